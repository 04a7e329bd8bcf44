// Bytes in lower-case hex, two digits a byte, and `-` for none.
#![tactic(auto)]

ghost use Rattle.std.specs.Prelude.{◌≡◌, ℕ, ◌*◌, ◌<◌, ◌≤◌, [], ◌∷◌, length, take, IfOk, MatchOption, Some, ◌≢◌};
ghost use Rattle.std.specs.Fmt.{WritesOnOk};
ghost use Rattle.hex_words.specs.Spelling.{hex_digit, hex, spelled_bytes, Spells, SpellsNone};

pub mod laws;

use std::alloc::{AllocError, Global};
use std::fmt;

fn value_of(digit: u8) -> Option<u8>
    ensures { MatchOption result ((d : ℕ) → d < 16 → hex_digit d ≢ digit) (λ d. (d < 16) × (hex_digit d ≡ digit)) }
{
    match digit {
        b'0'..=b'9' => Some(digit - b'0'),
        b'a'..=b'f' => Some(digit - b'a' + 10),
        _ => None,
    }
}

// The byte that two digits spell.
fn byte_of(high: u8, low: u8) -> Option<u8>
    ensures { MatchOption result ((b : ℕ) → b < 256 → hex (b ∷ []) ≢ high ∷ low ∷ []) (λ b. (b < 256) × (hex (b ∷ []) ≡ high ∷ low ∷ [])) }
{
    Some(value_of(high)? * 16 + value_of(low)?)
}

// The bytes of a word that is neither empty nor `-`: each two digits spell one.
#[tactic(auto, using(crate::proofs::Spelling::a_byte, crate::proofs::Spelling::bytes_push))]
fn from_digits(heap: Global, word: &[u8]) -> Result<Option<Vec<u8>>, AllocError>
    requires some { 0 < length word.now }
    requires no_dash { word.now ≢ 45 ∷ [] }
    ensures { IfOk result (λ o. MatchOption o (SpellsNone word.now) (λ v. Spells word.now v.items)) }
{
    let (pairs, []) = word.as_chunks::<2>() else {
        return Ok(None);
    };
    let mut bytes = Vec::new(heap);
    for &[high, low] in pairs {
        let Some(byte) = byte_of(high, low) else {
            return Ok(None);
        };
        bytes.push(byte)?;
    }
    Ok(Some(bytes))
}

// The bytes that a word spells, if it spells any.
pub fn unhex(heap: Global, word: &[u8]) -> Result<Option<Vec<u8>>, AllocError>
    ensures { IfOk result (λ o. MatchOption o (SpellsNone word.now) (λ v. Spells word.now v.items)) }
{
    match word {
        [] => Ok(None),
        b"-" => Ok(Some(Vec::new(heap))),
        _ => from_digits(heap, word),
    }
}

// Bytes that print as the word that spells them.
#[derive(Clone, Copy)]
pub struct Hex<'a>(pub &'a [u8]);

// How many bytes are written at a time: the formatter is called for a block, and not for each byte.
const BLOCK: usize = 32;

fn digit_of(value: u8) -> u8
    requires { value < 16 }
    ensures { result ≡ hex_digit value }
{
    if value < 10 {
        b'0' + value
    } else {
        b'a' + (value - 10)
    }
}

// The digits of at most a block of bytes.
fn digits_of(bytes: &[u8]) -> [u8; 2 * BLOCK]
    requires { length bytes.now ≤ 32 }
    ensures { take (2 * length bytes.now) result ≡ hex bytes.now }
{
    let mut digits = [b'0'; 2 * BLOCK];
    for (i, &byte) in bytes.iter().enumerate() {
        digits[2 * i] = digit_of(byte / 16);
        digits[2 * i + 1] = digit_of(byte % 16);
    }
    digits
}

// Writes two digits for each of at most `BLOCK` bytes.
fn write_digits<W: fmt::Write>(bytes: &[u8], f: &mut fmt::Formatter<W>) -> fmt::Result
    requires { length bytes.now ≤ 32 }
    ensures { WritesOnOk W.write_str_gives f.old result (hex bytes.now) f.new }
{
    let digits = digits_of(bytes);
    let Ok(text) = str::from_utf8(&digits[..2 * bytes.len()]) else {
        unreachable!()
    };
    f.write_str(text)
}

impl fmt::Display for Hex<'_> {
    ghost output = { λ h. Some (spelled_bytes h.0.now) };

    fn fmt<W: fmt::Write>(&self, f: &mut fmt::Formatter<W>) -> fmt::Result {
        if self.0.is_empty() {
            return f.write_str("-");
        }
        let (blocks, rest) = self.0.as_chunks::<BLOCK>();
        for block in blocks {
            write_digits(block, f)?;
        }
        write_digits(rest, f)
    }
}
