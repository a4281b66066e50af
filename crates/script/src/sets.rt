// Class sets as words: "1,3-5" and the like, and "-" for the empty set.
ghost use Rattle.std.specs.Prelude.{◌≡◌, ◌≤◌, Some, None, IfSome, MatchOption};
ghost use Rattle.std.specs.Option.{option_map, unwrap_or};
ghost use Rattle.script.specs.Sets.{single, class_of, ends_of, item_ends, range_of, item_of, set_of, Named};

use crate::numbers::number;
use lines::ClassSet;

const EMPTY_SET: &[u8] = b"-";

const ITEM_SEPARATOR: u8 = b',';

const RANGE_SEPARATOR: u8 = b'-';

// A class from 1 to 64.
#[derive(Clone, Copy)]
struct Class {
    number: u8,
    ghost low: { 1 ≤ number },
    ghost high: { number ≤ 64 },
}

impl Class {
    fn from_word(word: &[u8]) -> Option<Class>
        ensures { option_map (λ c. c.number) result ≡ class_of word.now }
    {
        let number = number(word, u32::from(ClassSet::HIGHEST_CLASS))?;
        let number = u8::try_from(number).ok()?;
        if number >= 1 {
            Some(Class { number })
        } else {
            None
        }
    }
}

// The set of one class. Written inside `range` it was tried, and the goal of `range` did not close.
fn single(class: u8) -> ClassSet
    requires low { 1 ≤ class }
    requires high { class ≤ 64 }
    ensures { result ≡ single class }
{
    ClassSet(1 << (class - 1))
}

// The classes from one to another, unless they fall.
#[tactic(auto, using(crate::proofs::Runs::run_more))]
fn range(low: Class, high: Class) -> Option<ClassSet>
    ensures { result ≡ range_of (ends_of (Some low.number) (Some high.number)) }
{
    if high.number < low.number {
        return None;
    }
    let mut set = ClassSet::EMPTY;
    for class in low.number..=high.number {
        set = set.union(single(class));
    }
    Some(set)
}

// The first end of an item, and the last if it has one; a class alone is both.
fn ends(word: &[u8]) -> Option<(&[u8], Option<&[u8]>)>
    ensures { MatchOption result
        (item_ends word.now ≡ None)
        (λ p. item_ends word.now ≡ ends_of (class_of p.0.now) (class_of (unwrap_or p.1 p.0).now)) }
{
    let mut ends = word.split(|byte| *byte == RANGE_SEPARATOR);
    let first = ends.next()?;
    let last = ends.next();
    ends.next().is_none().then_some((first, last))
}

// A class alone, which is read once, or a range that does not fall.
#[tactic(auto, using(crate::proofs::Runs::last_unread))]
fn item(word: &[u8]) -> Option<ClassSet>
    ensures { result ≡ item_of word.now }
{
    let (first, last) = ends(word)?;
    let low = Class::from_word(first)?;
    match last {
        Some(last) => range(low, Class::from_word(last)?),
        None => range(low, low),
    }
}

// The class set that a word writes.
#[tactic(auto, using(crate::proofs::Runs::empty_is, crate::proofs::Naming::set_named))]
pub fn class_set(word: &[u8]) -> Option<ClassSet>
    ensures value { result ≡ set_of word.now }
    ensures meaning { IfSome result (Named word.now) }
{
    let mut set = ClassSet::EMPTY;
    if word == EMPTY_SET {
        return Some(set);
    }
    for piece in word.split(|byte| *byte == ITEM_SEPARATOR) {
        set = set.union(item(piece)?);
    }
    Some(set)
}
