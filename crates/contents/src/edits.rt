// The editing and issuing calls on plain contents: tests in a fixed order, and then one change.
ghost use Rattle.std.specs.Prelude.{◌≡◌, ◌+◌};
ghost use Rattle.tariff.specs.Ranges.{checked};
ghost use Rattle.contents.specs.Calls.{answered, settled, open_refusal, opened, put_refusal, stored, add_refusal, added, withdraw_refusal, withdrawn, restore_refusal, restored, strike_refusal, struck, issue_refusal, issued, reopen_refusal, reopened};
ghost use Rattle.contents.specs.Refusals.{outcome};

use crate::contents::{Contents, Phase, line_place, tariff_place};
use crate::refusal::Refusal;
use gaps::first_gap;
use lines::{Counts, Line, LineState};
use tariff::{Tariff, Terms};

impl Contents {
    pub fn open(&mut self, counts: Counts) -> Result<(), Refusal>
        ensures answer { outcome result ≡ answered (open_refusal self.old counts) tt }
        ensures after { self.new ≡ settled (open_refusal self.old counts) self.old (opened counts self.old) }
    {
        self.expect(Phase::Blank)?;
        if !counts.in_range() {
            return Err(Refusal::CountOutOfRange);
        }
        self.counts = counts;
        self.phase = Phase::Draft;
        Ok(())
    }

    pub fn put(&mut self, number: u8, terms: Terms) -> Result<(), Refusal>
        ensures answer { outcome result ≡ answered (put_refusal self.old number terms) tt }
        ensures after { self.new ≡ settled (put_refusal self.old number terms) self.old (stored number (checked terms) self.old) }
    {
        self.expect(Phase::Draft)?;
        let place = tariff_place(number)?;
        let tariff = Tariff::try_from(terms)?;
        self.tariffs[place] = Some(tariff);
        Ok(())
    }

    pub fn add(&mut self, number: u16, line: Line) -> Result<(), Refusal>
        ensures answer { outcome result ≡ answered (add_refusal self.old number line) tt }
        ensures after { self.new ≡ settled (add_refusal self.old number line) self.old (added number line self.old) }
    {
        self.expect(Phase::Draft)?;
        let place = line_place(number)?;
        let LineState::Free = self.line(number) else {
            return Err(Refusal::NumberTaken);
        };
        tariff_place(line.tariff)?;
        self.tariff(line.tariff).ok_or(Refusal::TariffNeverPut)?;
        if !line.fits(&self.counts) {
            return Err(Refusal::SetOutOfRange);
        }
        self.clear_of_lines(&line)?;
        self.lines.states[place] = LineState::Live(line);
        Ok(())
    }

    pub fn withdraw(&mut self, number: u16) -> Result<(), Refusal>
        ensures answer { outcome result ≡ answered (withdraw_refusal self.old number) tt }
        ensures after { self.new ≡ settled (withdraw_refusal self.old number) self.old (withdrawn number self.old) }
    {
        self.expect(Phase::Draft)?;
        let place = line_place(number)?;
        let LineState::Live(line) = self.line(number) else {
            return Err(Refusal::NotLive);
        };
        self.lines.states[place] = LineState::Withdrawn(line);
        Ok(())
    }

    pub fn restore(&mut self, number: u16) -> Result<(), Refusal>
        ensures answer { outcome result ≡ answered (restore_refusal self.old number) tt }
        ensures after { self.new ≡ settled (restore_refusal self.old number) self.old (restored number self.old) }
    {
        self.expect(Phase::Draft)?;
        let place = line_place(number)?;
        let LineState::Withdrawn(kept) = self.line(number) else {
            return Err(Refusal::NotWithdrawn);
        };
        self.clear_of_lines(&kept)?;
        self.lines.states[place] = LineState::Live(kept);
        Ok(())
    }

    pub fn strike(&mut self, number: u16) -> Result<(), Refusal>
        ensures answer { outcome result ≡ answered (strike_refusal self.old number) tt }
        ensures after { self.new ≡ settled (strike_refusal self.old number) self.old (struck number self.old) }
    {
        self.expect(Phase::Draft)?;
        let place = line_place(number)?;
        let LineState::Withdrawn(_) = self.line(number) else {
            return Err(Refusal::NotWithdrawn);
        };
        self.lines.states[place] = LineState::Free;
        Ok(())
    }

    pub fn issue(&mut self) -> Result<u8, Refusal>
        ensures answer { outcome result ≡ answered (issue_refusal self.old) (self.old.version + 1) }
        ensures after { self.new ≡ settled (issue_refusal self.old) self.old (issued self.old) }
    {
        self.expect(Phase::Draft)?;
        if self.version == u8::MAX {
            return Err(Refusal::LastVersion);
        }
        if let Some(gap) = first_gap(&self.lines, &self.counts) {
            return Err(Refusal::Gap(gap));
        }
        self.version += 1;
        self.phase = Phase::Issued;
        Ok(self.version)
    }

    pub fn reopen(&mut self) -> Result<(), Refusal>
        ensures answer { outcome result ≡ answered (reopen_refusal self.old) tt }
        ensures after { self.new ≡ settled (reopen_refusal self.old) self.old (reopened self.old) }
    {
        self.expect(Phase::Issued)?;
        self.phase = Phase::Draft;
        Ok(())
    }
}
