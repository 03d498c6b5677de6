// Numbers in decimal.
#![tactic(auto)]

ghost use Rattle.std.specs.Prelude.{◌≡◌};
ghost use Rattle.decimal.specs.Decimal.{digit, reading};

// The number that a word is: one decimal digit or more, and below 2^64.
pub fn number(word: &[u8]) -> Option<u64>
    ensures { result ≡ reading word.now }
{
    if word.is_empty() {
        return None;
    }
    let mut value: u64 = 0;
    for &b in word {
        value = value.checked_mul(10)?.checked_add(digit(b)?)?;
    }
    Some(value)
}

#[tactic(auto, unfolding(crate::specs::Decimal::digit))]
fn digit(b: u8) -> Option<u64>
    ensures { result ≡ digit b }
{
    match b {
        b'0'..=b'9' => Some(u64::from(b - b'0')),
        _ => None,
    }
}
