// Spans of keys: the classes of locations and of users, and the check that no key lies in two spans.
ghost use Rattle.std.specs.Prelude.{◌≡◌, true, Decides};
ghost use Rattle.classes.specs.Spans.{span_class, span_covers, span_follows, spans_ordered, InOrder, NoKeyTwice};

use crate::entries::{Entry, Listed, first_match};
use crate::keys::{ContractKey, Key, ObjectKey, UsageKey};
use crate::usage::Usage;

// Keys from low to high, both included.
#[derive(Clone, Copy)]
pub struct Span<K> {
    pub class: u8,
    pub low: K,
    pub high: K,
}

impl<K: Key> Span<K> {
    // The class that the span gives, whatever it is asked with.
    pub fn class(&self) -> u8
        ensures { result ≡ span_class self.now }
    {
        self.class
    }

    // Whether the key is neither before the low nor after the high.
    fn holds(&self, key: &K) -> bool
        ensures { result ≡ span_covers K.upto self.now key.now }
    {
        self.low.not_after(key) && key.not_after(&self.high)
    }

    // Whether the span runs forward, from after the high before it, if there is one.
    pub fn follows(&self, before: Option<K>) -> bool
        ensures { result ≡ span_follows K.Key.upto before self.now }
    {
        before.is_none_or(|high| !self.low.not_after(&high)) && self.low.not_after(&self.high)
    }
}

impl<K: Key> Entry<K> for Span<K> {
    ghost given = { span_class };

    ghost covering = { span_covers K.Key.upto };

    fn class(&self) -> u8 {
        Span::class(self)
    }

    fn covers(&self, key: &K) -> bool {
        self.holds(key)
    }
}

// A usage is asked for its key.
impl<K: UsageKey> Entry<Usage> for Span<K> {
    ghost given = { span_class };

    ghost covering = { λ s u. span_covers K.Key.upto s (K.UsageKey.taken u) };

    fn class(&self) -> u8 {
        Entry::<K>::class(self)
    }

    fn covers(&self, usage: &Usage) -> bool {
        self.holds(&K::of(usage))
    }

    // The key is taken once, and not for each span.
    fn first(count: u8, spans: &[Span<K>], usage: &Usage) -> Option<u8> {
        first_match(count, spans, &K::of(usage))
    }
}

pub type Locations<'a> = Listed<'a, Span<ObjectKey>>;

pub type Users<'a> = Listed<'a, Span<ContractKey>>;

// Whether no low is after its high, and each later low is after the high before it.
pub fn in_order<K: Key>(spans: &[Span<K>]) -> bool
    ensures value { result ≡ spans_ordered K.Key.upto spans.now }
    ensures exact { Decides result (InOrder K.Key.upto spans.now) }
    ensures apart { result ≡ true → NoKeyTwice K.Key.upto spans.now }
{
    let mut before = None;
    for span in spans {
        if !span.follows(before) {
            return false;
        }
        before = Some(span.high);
    }
    true
}
