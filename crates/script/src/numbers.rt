// Decimal numbers. The library's `parse` takes text and a sign, and the words of a script are bytes.
ghost use Rattle.std.specs.Prelude.{◌≡◌};
ghost use Rattle.script.specs.Decimals.{NextDigit, digits_within, decimal_of};

// `n` with one more digit, if it is a digit and the number stays within `max`.
fn with_digit(n: u64, digit: u8, max: u64) -> Option<u64>
    ensures { NextDigit n digit max result }
{
    if !digit.is_ascii_digit() {
        return None;
    }
    let longer = n.checked_mul(10)?.checked_add(u64::from(digit - b'0'))?;
    if longer <= max { Some(longer) } else { None }
}

// The number that digits spell, if it is within `max`. It stops at the first digit that goes past `max`.
#[tactic(auto, using(crate::proofs::Decimals::goes_on, crate::proofs::Decimals::stops, crate::proofs::Decimals::ends))]
fn value_within(digits: &[u8], max: u64) -> Option<u64>
    ensures { result ≡ digits_within digits.now max }
{
    let mut n = 0;
    for digit in digits {
        n = with_digit(n, *digit, max)?;
    }
    Some(n)
}

// A number of at most `max` in decimal: one digit or more. Leading zeros do not matter.
pub fn decimal(word: &[u8], max: u64) -> Option<u64>
    ensures { result ≡ decimal_of word.now max }
{
    if word.is_empty() {
        return None;
    }
    value_within(word, max)
}
