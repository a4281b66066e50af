// Contracts as words: up to eight visible ASCII characters.
ghost use Rattle.std.specs.Prelude.{◌≡◌};
ghost use Rattle.script.specs.Padding.{visible_only, contract_of};

use classes::Usage;

const PADDING: u8 = b' ';

// Whether every byte is a visible ASCII character.
fn visible_only(word: &[u8]) -> bool
    ensures { result ≡ visible_only word.now }
{
    word.iter().all(|byte| byte.is_ascii_graphic())
}

// The contract that a word writes: its text, with spaces behind.
pub(crate) fn contract(word: &[u8]) -> Option<[u8; Usage::CONTRACT_BYTES]>
    ensures { result ≡ contract_of word.now }
{
    if word.len() > Usage::CONTRACT_BYTES || !visible_only(word) {
        return None;
    }
    let mut contract = [PADDING; Usage::CONTRACT_BYTES];
    contract[..word.len()].copy_from_slice(word);
    Some(contract)
}
