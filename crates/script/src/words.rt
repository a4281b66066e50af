// The words of a line: only spaces stand between them.
ghost use Rattle.std.specs.Prelude.{◌≡◌, List, Option, not, ◌==◌, position};
ghost use Rattle.std.specs.Iterator.{YieldsFirstRef, item_count};
ghost use Rattle.std.specs.List.{position_or_len};
ghost use Rattle.script.specs.Fields.{Word, with_rest, first_by};
ghost use Rattle.script.specs.Pieces.{words_of};

use std::marker::Model;

const SEPARATOR: u8 = b' ';

// The words of a line that were not read yet. A contract sees them as a list. The library's `split` with a filter would give
// the same, but a function cannot name its type.
#[derive(Drop)]
pub(crate) struct Words<'a> {
    rest: &'a [u8],
}

impl<'a> Model for Words<'a> {
    ghost Value = { List Word };

    ghost view = { λ w. words_of w.rest.now };
}

// What a single word may write.
pub(crate) trait FromWord: Sized {
    ghost written: { Word → Option Self };

    fn from_word(word: &[u8]) -> Option<Self>
        ensures { result ≡ written word.now };
}

// What several words write, one behind another.
pub(crate) trait FromWords: Sized {
    ghost fields: { List Word → Option (Self × List Word) };

    fn from_words(words: &mut Words) -> Option<Self>
        ensures { with_rest result words.new ≡ fields words.old };
}

// Where the first word begins.
fn word_start(text: &[u8]) -> Option<usize>
    ensures { result ≡ position (λ b. not (b == 32)) text.now }
{
    text.iter().position(|byte| *byte != SEPARATOR)
}

// How many bytes stand before the first space.
fn word_length(text: &[u8]) -> usize
    ensures { result ≡ position_or_len (λ b. b == 32) text.now }
{
    text.iter()
        .position(|byte| *byte == SEPARATOR)
        .unwrap_or(text.len())
}

impl<'a> Words<'a> {
    pub(crate) fn new(line: &'a [u8]) -> Words<'a>
        ensures { result ≡ words_of line.now }
    {
        Words { rest: line }
    }

    // What the next word writes.
    pub(crate) fn field<T: FromWord>(&mut self) -> Option<T>
        ensures { with_rest result self.new ≡ first_by T.written self.old }
    {
        T::from_word(self.next()?)
    }
}

impl<'a> Iterator for Words<'a> {
    type Item = &'a [u8];

    ghost next_gives = { YieldsFirstRef (λ words. words) };

    ghost remaining = { item_count (λ words. words) };

    fn next(&mut self) -> Option<&'a [u8]> {
        let text = self.rest;
        let (_, text) = text.split_at(word_start(text)?);
        let (word, rest) = text.split_at(word_length(text));
        self.rest = rest;
        Some(word)
    }
}
