// Numbers in decimal.
ghost use Rattle.std.specs.Prelude.{◌≡◌, ◌≤◌, IfSome};
ghost use Rattle.script.specs.Numbers.{digit_of, number_of};

const BASE: u64 = 10;

// The value of a digit.
fn digit(byte: u8) -> Option<u8>
    ensures { result ≡ digit_of byte }
{
    match byte {
        b'0'..=b'9' => Some(byte - b'0'),
        _ => None,
    }
}

// The number that a word writes in decimal, if it is at most so much. By hand, since the library's `parse` takes a sign.
#[tactic(auto, using(crate::proofs::Digits::number_is, crate::proofs::Digits::too_large_next, crate::proofs::Digits::digit_next, crate::proofs::Digits::no_digit, crate::proofs::Digits::digits_end))]
pub(crate) fn number(word: &[u8], most: u32) -> Option<u32>
    ensures value { result ≡ number_of most word.now }
    ensures bound { IfSome result (λ n. n ≤ most) }
{
    if word.is_empty() {
        return None;
    }
    let mut value = 0;
    for byte in word {
        value = value * BASE + u64::from(digit(*byte)?);
        if value > u64::from(most) {
            return None;
        }
    }
    u32::try_from(value).ok()
}
