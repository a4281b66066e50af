// The records of a tariff sheet: a kind byte, and a body of fixed length.
ghost use Rattle.std.specs.Prelude.{◌≡◌, ◌≤◌, length};
ghost use Rattle.std.specs.Option.{ok_or};
ghost use Rattle.sheet.specs.declared.refusal.RecordFault.TheVariants.{UnknownKind};
ghost use Rattle.sheet.specs.Fields.{written};
ghost use Rattle.sheet.specs.Records.{kind_coded, opening_counts, body_terms, body_line, opening_record, tariff_record, line_record};

use crate::fields::{bytes_at, put, put_all};
use crate::refusal::RecordFault;
use lines::{ClassSet, Counts, Line};
use tariff::Terms;

// The kind byte of each record.
const OPENING_KIND: u8 = 0x01;

const TARIFF_KIND: u8 = 0x02;

const LINE_KIND: u8 = 0x03;

pub(crate) const END_KIND: u8 = 0x04;

// The length of each record without its kind byte.
pub(crate) const OPENING_BODY: usize = 5;

pub(crate) const TARIFF_BODY: usize = 30;

pub(crate) const LINE_BODY: usize = 35;

// The length of each record.
pub(crate) const OPENING_LENGTH: usize = 1 + OPENING_BODY;

pub(crate) const TARIFF_LENGTH: usize = 1 + TARIFF_BODY;

pub(crate) const LINE_LENGTH: usize = 1 + LINE_BODY;

pub(crate) const END_LENGTH: usize = 1;

#[derive(Clone, Copy)]
pub(crate) enum Kind {
    Opening,
    Tariff,
    Line,
    End,
}

impl TryFrom<u8> for Kind {
    type Error = RecordFault;

    ghost try_from_gives = { λ code kind. kind ≡ ok_or (kind_coded code) UnknownKind };

    fn try_from(code: u8) -> Result<Kind, RecordFault> {
        match code {
            OPENING_KIND => Ok(Kind::Opening),
            TARIFF_KIND => Ok(Kind::Tariff),
            LINE_KIND => Ok(Kind::Line),
            END_KIND => Ok(Kind::End),
            _ => Err(RecordFault::UnknownKind),
        }
    }
}

// What a body holds: functions, since `From` may be written only beside one of its two types.
pub(crate) fn counts_of(body: &[u8; OPENING_BODY]) -> Counts
    ensures { result ≡ opening_counts body.now }
{
    Counts {
        vehicles: body[1],
        times: body[2],
        locations: body[3],
        users: body[4],
    }
}

pub(crate) fn terms_of(body: &[u8; TARIFF_BODY]) -> Terms
    ensures { result ≡ body_terms body.now }
{
    Terms {
        measure: body[1],
        unit: u32::from_be_bytes(bytes_at(body, 2)),
        rate: u32::from_be_bytes(bytes_at(body, 6)),
        rounding: body[10],
        threshold: u32::from_be_bytes(bytes_at(body, 11)),
        offset: u32::from_be_bytes(bytes_at(body, 15)),
        minimum: u32::from_be_bytes(bytes_at(body, 19)),
        cap: u32::from_be_bytes(bytes_at(body, 23)),
        vat: u16::from_be_bytes(bytes_at(body, 27)),
        vat_rounding: body[29],
    }
}

pub(crate) fn line_of(body: &[u8; LINE_BODY]) -> Line
    ensures { result ≡ body_line body.now }
{
    Line {
        tariff: body[2],
        vehicles: ClassSet(u64::from_be_bytes(bytes_at(body, 3))),
        times: ClassSet(u64::from_be_bytes(bytes_at(body, 11))),
        locations: ClassSet(u64::from_be_bytes(bytes_at(body, 19))),
        users: ClassSet(u64::from_be_bytes(bytes_at(body, 27))),
    }
}

// Each writer is lent the space from its record's place on, and answers its record's length.
pub(crate) fn write_opening(space: &mut [u8], version: u8, counts: &Counts) -> usize
    requires { OPENING_LENGTH ≤ length space.old }
    ensures after { space.new ≡ written 0 (opening_record version counts.now) space.old }
    ensures value { result ≡ OPENING_LENGTH }
{
    let record = [
        OPENING_KIND,
        version,
        counts.vehicles,
        counts.times,
        counts.locations,
        counts.users,
    ];
    put(space, 0, &record)
}

pub(crate) fn write_tariff(space: &mut [u8], number: u8, terms: &Terms) -> usize
    requires { TARIFF_LENGTH ≤ length space.old }
    ensures after { space.new ≡ written 0 (tariff_record number terms.now) space.old }
    ensures value { result ≡ TARIFF_LENGTH }
{
    let parts: [&[u8]; 10] = [
        &[TARIFF_KIND, number, terms.measure],
        &terms.unit.to_be_bytes(),
        &terms.rate.to_be_bytes(),
        &[terms.rounding],
        &terms.threshold.to_be_bytes(),
        &terms.offset.to_be_bytes(),
        &terms.minimum.to_be_bytes(),
        &terms.cap.to_be_bytes(),
        &terms.vat.to_be_bytes(),
        &[terms.vat_rounding],
    ];
    put_all(space, &parts)
}

pub(crate) fn write_line(space: &mut [u8], number: u16, line: &Line) -> usize
    requires { LINE_LENGTH ≤ length space.old }
    ensures after { space.new ≡ written 0 (line_record number line.now) space.old }
    ensures value { result ≡ LINE_LENGTH }
{
    let parts: [&[u8]; 7] = [
        &[LINE_KIND],
        &number.to_be_bytes(),
        &[line.tariff],
        &line.vehicles.0.to_be_bytes(),
        &line.times.0.to_be_bytes(),
        &line.locations.0.to_be_bytes(),
        &line.users.0.to_be_bytes(),
    ];
    put_all(space, &parts)
}
