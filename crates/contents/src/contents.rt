// What a book holds. It has no invariant: it is the plain model of which the contracts of the book speak.
ghost use Rattle.std.specs.Prelude.{◌≡◌, ◌-◌, ◌&&◌, [], if◌then◌else◌, Some, None, nat_le};
ghost use Rattle.classes.specs.Outcomes.{accepted, refusal};
ghost use Rattle.contents.specs.Calls.{answered, overlap_refusal};
ghost use Rattle.contents.specs.Contents.{in_phase, new_contents, tariff_number, line_number, tariff_at, line_at};
ghost use Rattle.contents.specs.Refusals.{outcome};

use crate::refusal::Refusal;
use lines::{Counts, Line, LineState, LineTable};
use tariff::Tariff;

#[derive(Clone, Copy, PartialEq, Eq)]
pub enum Phase {
    Blank,
    Draft,
    Issued,
}

// Tariff n stands at place n - 1, and so does line n. The tables are fixed, so that a book asks for no memory.
#[derive(Drop)]
pub struct Contents {
    pub phase: Phase,
    pub version: u8,
    pub counts: Counts,
    pub tariffs: [Option<Tariff>; Contents::TARIFFS],
    pub lines: LineTable,
}

// The place of a number that counts from 1, among so many places.
fn place_of(number: usize, places: usize) -> Option<usize>
    ensures { result ≡ (if nat_le 1 number && nat_le number places then Some (number - 1) else None) }
{
    number.checked_sub(1).filter(|place| *place < places)
}

// The place of a line number in the table.
pub(crate) fn line_place(number: u16) -> Result<usize, Refusal>
    ensures { outcome result ≡ (if line_number number then accepted (number - 1) else refusal (5, [])) }
{
    place_of(usize::from(number), LineTable::NUMBERS).ok_or(Refusal::NoSuchLine)
}

// The place of a tariff number in the table.
pub(crate) fn tariff_place(number: u8) -> Result<usize, Refusal>
    ensures { outcome result ≡ (if tariff_number number then accepted (number - 1) else refusal (3, [])) }
{
    place_of(usize::from(number), Contents::TARIFFS).ok_or(Refusal::NoSuchTariff)
}

impl Contents {
    pub const TARIFFS: usize = 64;

    pub fn new() -> Contents
        ensures { result ≡ new_contents }
    {
        Contents {
            phase: Phase::Blank,
            version: 0,
            counts: Counts {
                vehicles: 0,
                times: 0,
                locations: 0,
                users: 0,
            },
            tariffs: [None; Contents::TARIFFS],
            lines: LineTable {
                states: [LineState::Free; LineTable::NUMBERS],
            },
        }
    }

    // Refuses unless the book is in this phase.
    pub fn expect(&self, phase: Phase) -> Result<(), Refusal>
        ensures { outcome result ≡ (if in_phase phase self.now then accepted tt else refusal (1, [])) }
    {
        if self.phase == phase {
            Ok(())
        } else {
            Err(Refusal::WrongPhase)
        }
    }

    // The tariff that was put under a number.
    pub fn tariff(&self, number: u8) -> Option<Tariff>
        ensures { result ≡ tariff_at self.now number }
    {
        let place = usize::from(number).checked_sub(1)?;
        *self.tariffs.get(place)?
    }

    // What stands at a line number.
    pub fn line(&self, number: u16) -> LineState
        ensures { result ≡ line_at self.now number }
    {
        usize::from(number)
            .checked_sub(1)
            .and_then(|place| self.lines.states.get(place).copied())
            .unwrap_or(LineState::Free)
    }

    pub(crate) fn clear_of_lines(&self, line: &Line) -> Result<(), Refusal>
        ensures { outcome result ≡ answered (overlap_refusal self.now line.now) tt }
    {
        match self.lines.first_overlap(line) {
            Some(number) => Err(Refusal::Overlap(number)),
            None => Ok(()),
        }
    }
}
