// Keys in an order, and the two keys of a usage: its charge object and its contract.
ghost use Rattle.std.specs.Prelude.{◌≡◌, ℕ, Bool, true, false, List};
ghost use Rattle.std.proofs.Common.{ap};
ghost use Rattle.classes.specs.declared.usage.Usage.{Usage};
ghost use Rattle.classes.specs.Keys.{object_upto, object_key, bytes_upto, contract_upto, contract_key};
ghost use Rattle.classes.specs.Orders.{object_total, object_same, object_carries, bytes_total, bytes_same, bytes_carries};
ghost use Rattle.classes.specs.declared.keys.ContractKey.{ContractKey};

use crate::usage::Usage;

// Not `Ord`, whose laws come all at once: who uses a key names the laws that it needs.
pub trait Key: Copy {
    // Whether a key is not after another.
    ghost upto: { Self → Self → Bool };

    fn not_after(&self, other: &Self) -> bool
        ensures { result ≡ upto self.now other.now };

    // Of two keys one is not after the other.
    ghost total: { (a b : Self) → upto a b ≡ false → upto b a ≡ true };

    // Two keys, neither after the other, are the same.
    ghost same: { (a b : Self) → upto a b ≡ true → upto b a ≡ true → a ≡ b };

    // "Not after" carries through a third key.
    ghost carries: { (a b c : Self) → upto a b ≡ true → upto b c ≡ true → upto a c ≡ true };
}

// A key that every usage has.
pub trait UsageKey: Key {
    ghost taken: { Usage → Self };

    fn of(usage: &Usage) -> Self
        ensures { result ≡ taken usage.now };
}

// A charge object, by its partition and then its number.
#[derive(Clone, Copy, PartialEq, Eq, PartialOrd, Ord)]
pub struct ObjectKey {
    pub partition: u8,
    pub object: u32,
}

impl Key for ObjectKey {
    ghost upto = { object_upto };

    ghost total = { object_total };

    ghost same = { object_same };

    ghost carries = { object_carries };

    fn not_after(&self, other: &ObjectKey) -> bool {
        *self <= *other
    }
}

impl UsageKey for ObjectKey {
    ghost taken = { object_key };

    fn of(usage: &Usage) -> ObjectKey {
        ObjectKey {
            partition: usage.partition,
            object: usage.object,
        }
    }
}

// A contract, compared byte by byte from the first.
#[derive(Clone, Copy)]
pub struct ContractKey {
    pub text: [u8; Usage::CONTRACT_BYTES],
}

// Whether a text is not after another: as numbers, the first byte highest, which takes less time than byte by byte.
fn text_upto(a: [u8; Usage::CONTRACT_BYTES], b: [u8; Usage::CONTRACT_BYTES]) -> bool
    ensures { result ≡ bytes_upto a b }
{
    u64::from_be_bytes(a) <= u64::from_be_bytes(b)
}

impl Key for ContractKey {
    ghost upto = { contract_upto };

    ghost total = { λ a b. bytes_total a.text b.text };

    ghost same = { λ a b h k. let key : List ℕ → ContractKey = λ text. record { text = text } in ap key (bytes_same a.text b.text h k) };

    ghost carries = { λ a b c. bytes_carries a.text b.text c.text };

    fn not_after(&self, other: &ContractKey) -> bool {
        text_upto(self.text, other.text)
    }
}

impl UsageKey for ContractKey {
    ghost taken = { contract_key };

    fn of(usage: &Usage) -> ContractKey {
        ContractKey {
            text: usage.contract,
        }
    }
}
