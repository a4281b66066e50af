// The calls of a book. Each answers what its definition gives, for every contents and every argument. A call of the contents
// stands beside each, since contents have no invariant to keep, and those of a book are never lent for writing.
ghost use Rattle.std.specs.Prelude.{◌≡◌, ℕ, ◌+◌, [], ◌∷◌};
ghost use Rattle.classes.specs.declared.refusal.Classes.{Classes};
ghost use Rattle.classes.specs.Outcomes.{accepted, refusal};
ghost use Rattle.tariff.specs.Ranges.{checked};
ghost use Rattle.lines.specs.declared.states.Line.{Line};
ghost use Rattle.gaps.specs.Gaps.{NoGap, FirstGap};
ghost use Rattle.contents.specs.Calls.{answered, settled, open_refusal, opened, put_refusal, stored, add_refusal, added, withdraw_refusal, withdrawn, restore_refusal, restored, strike_refusal, struck, issue_refusal, issued, reopen_refusal, reopened};
ghost use Rattle.contents.specs.Contents.{new_contents, line_at};
ghost use Rattle.book.specs.Laws.{LowestOverlap};
ghost use Rattle.contents.specs.Refusals.{gap_values, outcome};

use crate::book::Book;
use contents::{Contents, Refusal};
use lines::{Counts, Line, LineState};
use tariff::Terms;

impl Book {
    // A blank book of version 0 with nothing in it.
    #[tactic(auto, using(crate::proofs::Left::new_left))]
    pub fn new() -> Book
        ensures { result.contents ≡ new_contents }
    {
        Book {
            contents: Contents::new(),
        }
    }

    // What the book holds.
    pub fn contents(&self) -> &Contents
        ensures { result.now ≡ self.now.contents }
    {
        &self.contents
    }

    // Makes a draft of a blank book, with this many classes of each determinant.
    #[tactic(auto, using(crate::proofs::Left::open_left))]
    pub fn open(&mut self, counts: Counts) -> Result<(), Refusal>
        ensures answer { outcome result ≡ answered (open_refusal self.old.contents counts) tt }
        ensures after { self.new.contents ≡ settled (open_refusal self.old.contents counts) self.old.contents (opened counts self.old.contents) }
    {
        self.contents.open(counts)
    }

    // Sets or replaces a tariff.
    #[tactic(auto, using(crate::proofs::Left::put_left))]
    pub fn put(&mut self, number: u8, terms: Terms) -> Result<(), Refusal>
        ensures answer { outcome result ≡ answered (put_refusal self.old.contents number terms) tt }
        ensures after { self.new.contents ≡ settled (put_refusal self.old.contents number terms) self.old.contents (stored number (checked terms) self.old.contents) }
    {
        self.contents.put(number, terms)
    }

    // Makes a free number live, with a line that overlaps no live line.
    #[tactic(auto, using(crate::proofs::Left::add_left, crate::proofs::Refusing::add_overlap))]
    pub fn add(&mut self, number: u16, line: Line) -> Result<(), Refusal>
        ensures answer { outcome result ≡ answered (add_refusal self.old.contents number line) tt }
        ensures after { self.new.contents ≡ settled (add_refusal self.old.contents number line) self.old.contents (added number line self.old.contents) }
        ensures overlap { (n : ℕ) → outcome result ≡ refusal (11, n ∷ []) → LowestOverlap self.old.contents line n }
    {
        self.contents.add(number, line)
    }

    // Takes a live line out of use; its number stays taken.
    #[tactic(auto, using(crate::proofs::Left::withdraw_left))]
    pub fn withdraw(&mut self, number: u16) -> Result<(), Refusal>
        ensures answer { outcome result ≡ answered (withdraw_refusal self.old.contents number) tt }
        ensures after { self.new.contents ≡ settled (withdraw_refusal self.old.contents number) self.old.contents (withdrawn number self.old.contents) }
    {
        self.contents.withdraw(number)
    }

    // Makes a withdrawn line live again, where it overlaps no live line.
    #[tactic(auto, using(crate::proofs::Left::restore_left, crate::proofs::Refusing::restore_overlap))]
    pub fn restore(&mut self, number: u16) -> Result<(), Refusal>
        ensures answer { outcome result ≡ answered (restore_refusal self.old.contents number) tt }
        ensures after { self.new.contents ≡ settled (restore_refusal self.old.contents number) self.old.contents (restored number self.old.contents) }
        ensures overlap { (l : Line) (n : ℕ) → line_at self.old.contents number ≡ LineState.Withdrawn l → outcome result ≡ refusal (11, n ∷ []) → LowestOverlap self.old.contents l n }
    {
        self.contents.restore(number)
    }

    // Gives up a withdrawn line, so that its number is free again.
    #[tactic(auto, using(crate::proofs::Left::strike_left))]
    pub fn strike(&mut self, number: u16) -> Result<(), Refusal>
        ensures answer { outcome result ≡ answered (strike_refusal self.old.contents number) tt }
        ensures after { self.new.contents ≡ settled (strike_refusal self.old.contents number) self.old.contents (struck number self.old.contents) }
    {
        self.contents.strike(number)
    }

    // Issues the next version of a draft in which every combination is claimed.
    #[tactic(auto, using(crate::proofs::Left::issue_left, crate::proofs::Refusing::issue_whole))]
    pub fn issue(&mut self) -> Result<u8, Refusal>
        ensures answer { outcome result ≡ answered (issue_refusal self.old.contents) (self.old.contents.version + 1) }
        ensures after { self.new.contents ≡ settled (issue_refusal self.old.contents) self.old.contents (issued self.old.contents) }
        ensures gap { (k : Classes) → outcome result ≡ refusal (12, gap_values k) → FirstGap self.old.contents.counts self.old.contents.lines.states k }
        ensures whole { (v : ℕ) → outcome result ≡ accepted v → NoGap self.old.contents.counts self.old.contents.lines.states }
    {
        self.contents.issue()
    }

    // Makes a draft of an issued book.
    #[tactic(auto, using(crate::proofs::Left::reopen_left))]
    pub fn reopen(&mut self) -> Result<(), Refusal>
        ensures answer { outcome result ≡ answered (reopen_refusal self.old.contents) tt }
        ensures after { self.new.contents ≡ settled (reopen_refusal self.old.contents) self.old.contents (reopened self.old.contents) }
    {
        self.contents.reopen()
    }
}
