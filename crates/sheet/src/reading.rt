// Reading a tariff sheet: record by record, into a draft.
ghost use Rattle.std.specs.Prelude.{◌≡◌, ◌<◌, ◌≤◌, length, take, drop, None, Some, MatchResult};
ghost use Rattle.contents.specs.Calls.{answered};
ghost use Rattle.sheet.specs.declared.refusal.RecordFault.TheVariants.{CutShort};
ghost use Rattle.sheet.specs.Records.{kind_coded, body_length};
ghost use Rattle.sheet.specs.Reading.{new_draft, due, not_ended, above, body_refusal, body_taken, due_refusal, due_taken, record_refusal, kind_taken, kind_length, finished, sheet_outcome};
ghost use Rattle.sheet.specs.Refusals.{fault_numbered, fault_outcome, outcome, left_by};

use crate::fields::bytes_at;
use crate::records::{Kind, LINE_BODY, OPENING_BODY, TARIFF_BODY, counts_of, line_of, terms_of};
use crate::refusal::{RecordFault, SheetRefusal};
use contents::Contents;

// What may come next.
#[derive(Clone, Copy)]
pub(crate) enum Stage {
    // The opening.
    Start,
    // Tariffs, lines or the end.
    Tariffs,
    // Lines or the end.
    Lines,
    // Nothing.
    Ended,
}

// What was read so far.
#[derive(Drop)]
pub(crate) struct Draft {
    contents: Contents,
    stage: Stage,
    last_tariff: Option<u16>,
    last_line: Option<u16>,
}

impl Stage {
    fn takes(self, kind: Kind) -> bool
        ensures { result ≡ due self kind }
    {
        matches!(
            (self, kind),
            (Stage::Start, Kind::Opening)
                | (Stage::Tariffs, Kind::Tariff | Kind::Line | Kind::End)
                | (Stage::Lines, Kind::Line | Kind::End)
        )
    }

    fn is_open(self) -> bool
        ensures { result ≡ not_ended self }
    {
        !matches!(self, Stage::Ended)
    }
}

// Whether a number is above the one before it, if there is one.
fn is_above(last: Option<u16>, number: u16) -> bool
    ensures { result ≡ above last number }
{
    last.is_none_or(|before| before < number)
}

// The body at the front of these bytes, and the bytes behind it.
fn split_body<const N: usize>(rest: &[u8]) -> Result<(&[u8; N], &[u8]), RecordFault>
    ensures { MatchResult result (λ p. (N ≤ length rest.now) × (p.0.now ≡ take N rest.now) × (p.1.now ≡ drop N rest.now)) (λ fault. (length rest.now < N) × (fault ≡ CutShort)) }
{
    rest.split_first_chunk().ok_or(RecordFault::CutShort)
}

impl Draft {
    fn new() -> Draft
        ensures { result ≡ new_draft }
    {
        Draft {
            contents: Contents::new(),
            stage: Stage::Start,
            last_tariff: None,
            last_line: None,
        }
    }

    fn take_opening(&mut self, body: &[u8; OPENING_BODY]) -> Result<(), RecordFault>
        ensures answer { fault_outcome result ≡ answered (body_refusal self.old Kind.Opening body.now) tt }
        ensures after { self.new ≡ left_by (body_refusal self.old Kind.Opening body.now) self.old (body_taken self.old Kind.Opening body.now) }
    {
        self.contents.open(counts_of(body))?;
        self.contents.version = body[0];
        self.stage = Stage::Tariffs;
        Ok(())
    }

    fn take_tariff(&mut self, body: &[u8; TARIFF_BODY]) -> Result<(), RecordFault>
        ensures answer { fault_outcome result ≡ answered (body_refusal self.old Kind.Tariff body.now) tt }
        ensures after { self.new ≡ left_by (body_refusal self.old Kind.Tariff body.now) self.old (body_taken self.old Kind.Tariff body.now) }
    {
        let number = body[0];
        if !is_above(self.last_tariff, u16::from(number)) {
            return Err(RecordFault::NotDue);
        }
        self.contents.put(number, terms_of(body))?;
        self.stage = Stage::Tariffs;
        self.last_tariff = Some(u16::from(number));
        Ok(())
    }

    // As a tariff is taken, but the width of the number, the call and what is remembered are others.
    fn take_line(&mut self, body: &[u8; LINE_BODY]) -> Result<(), RecordFault>
        ensures answer { fault_outcome result ≡ answered (body_refusal self.old Kind.Line body.now) tt }
        ensures after { self.new ≡ left_by (body_refusal self.old Kind.Line body.now) self.old (body_taken self.old Kind.Line body.now) }
    {
        let number = u16::from_be_bytes(bytes_at(body, 0));
        if !is_above(self.last_line, number) {
            return Err(RecordFault::NotDue);
        }
        self.contents.add(number, line_of(body))?;
        self.stage = Stage::Lines;
        self.last_line = Some(number);
        Ok(())
    }

    // Takes a record of a kind that is due, and answers the bytes behind it.
    fn take_due<'a>(&mut self, kind: Kind, rest: &'a [u8]) -> Result<&'a [u8], RecordFault>
        ensures answer { MatchResult result (λ behind. (due_refusal self.old kind rest.now ≡ None) × (behind.now ≡ drop (body_length kind) rest.now)) (λ fault. due_refusal self.old kind rest.now ≡ Some (fault_numbered fault)) }
        ensures after { self.new ≡ left_by (due_refusal self.old kind rest.now) self.old (due_taken self.old kind rest.now) }
    {
        // Three arms alike: a body's length is in the type that its call takes.
        match kind {
            Kind::Opening => {
                let (body, behind) = split_body(rest)?;
                self.take_opening(body)?;
                Ok(behind)
            }
            Kind::Tariff => {
                let (body, behind) = split_body(rest)?;
                self.take_tariff(body)?;
                Ok(behind)
            }
            Kind::Line => {
                let (body, behind) = split_body(rest)?;
                self.take_line(body)?;
                Ok(behind)
            }
            Kind::End => {
                self.stage = Stage::Ended;
                Ok(rest)
            }
        }
    }

    // Takes one record, given by its kind byte and the bytes behind it, and answers the bytes behind its body.
    fn take_record<'a>(&mut self, code: u8, rest: &'a [u8]) -> Result<&'a [u8], RecordFault>
        ensures answer { MatchResult result (λ behind. (record_refusal self.old code rest.now ≡ None) × (behind.now ≡ drop (kind_length (kind_coded code)) rest.now)) (λ fault. record_refusal self.old code rest.now ≡ Some (fault_numbered fault)) }
        ensures after { self.new ≡ left_by (record_refusal self.old code rest.now) self.old (kind_taken self.old (kind_coded code) rest.now) }
    {
        if !self.stage.is_open() {
            return Err(RecordFault::NotDue);
        }
        let kind = Kind::try_from(code)?;
        if !self.stage.takes(kind) {
            return Err(RecordFault::NotDue);
        }
        self.take_due(kind, rest)
    }

    // What was read, unless the input ended at this place before the end record.
    fn finish(self, place: usize) -> Result<Contents, SheetRefusal>
        ensures { outcome result ≡ finished self place }
    {
        if self.stage.is_open() {
            return Err(SheetRefusal::Record {
                place,
                fault: RecordFault::CutShort,
            });
        }
        Ok(self.contents)
    }
}

// The contents that a sheet stands for, or the first record at fault.
pub fn read_sheet(bytes: &[u8]) -> Result<Contents, SheetRefusal>
    ensures { outcome result ≡ sheet_outcome bytes.now }
{
    let mut draft = Draft::new();
    let mut rest = bytes;
    while let [code, behind @ ..] = rest {
        // The fault gets its place here; `map_err` and `?` are no shorter.
        match draft.take_record(*code, behind) {
            Ok(after) => rest = after,
            Err(fault) => {
                let place = bytes.len() - rest.len();
                return Err(SheetRefusal::Record { place, fault });
            }
        }
    }
    draft.finish(bytes.len())
}
