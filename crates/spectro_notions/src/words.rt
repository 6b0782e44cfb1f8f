ghost use Rattle.std.specs.Prelude.{◌≡◌, true, false, MatchOption};
ghost use Rattle.std.specs.List.{list_all};
ghost use Rattle.spectro_notions.specs.LineReading.{AreRead, LacksPart, part_in};
ghost use Rattle.spectro_notions.specs.NotionLines.{is_name, is_name_byte, is_small};

use crate::Bound;
use spectro_io::{number, token_at};

/// How many bytes the name of a notion may have.
pub const MAX_NAME_BYTES: usize = 64;

fn is_name_byte(byte: u8) -> bool
    ensures { result ≡ is_name_byte byte }
{
    byte.is_ascii_lowercase() || byte.is_ascii_digit() || byte == b'-'
}

fn has_name_bytes(word: &[u8]) -> bool
    ensures { result ≡ list_all is_name_byte word.now }
{
    word.iter().all(|byte| is_name_byte(*byte))
}

// Whether the word is a name of a notion.
fn is_name(word: &[u8]) -> bool
    ensures { result ≡ is_name word.now }
{
    !word.is_empty() && word.len() <= MAX_NAME_BYTES && has_name_bytes(word)
}

/// The word as a text, where it is a name.
pub(crate) fn name_of(word: &[u8]) -> Option<&str>
    ensures { MatchOption result (is_name word.now ≡ false) (λ name. (name.now ≡ word.now) × (is_name word.now ≡ true)) }
{
    if !is_name(word) {
        return None;
    }
    let Ok(name) = str::from_utf8(word) else {
        return None;
    };
    Some(name)
}

// The part of a bound that the word says: none for `*`, and the greatest `u64` for a greater number.
fn part_of(word: &[u8]) -> Option<Option<u64>>
    ensures { result ≡ part_in word.now }
{
    if word == b"*".as_slice() {
        return Some(None);
    }
    Some(Some(number(word)?))
}

/// The parts of a bound that the first six words say, and what follows them.
pub(crate) fn parts_at(text: &[u8]) -> Option<([Option<u64>; 6], &[u8])>
    ensures { MatchOption result (LacksPart text.now) (λ found. AreRead text.now 6 found.0 found.1.now) }
{
    let mut parts = [None; 6];
    let mut rest = text;
    for part in parts.iter_mut() {
        let (word, behind) = token_at(rest);
        *part = part_of(word)?;
        rest = behind;
    }
    Some((parts, rest))
}

// The part in 32 bits, where it fits.
fn narrow(part: Option<u64>) -> Option<Option<u32>>
    ensures { MatchOption result (is_small part ≡ false) (λ found. (found ≡ part) × (is_small part ≡ true)) }
{
    match part {
        None => Some(None),
        Some(most) => Some(Some(u32::try_from(most).ok()?)),
    }
}

/// The bound of these parts, where each fits 32 bits.
pub(crate) fn bound_in(parts: [Option<u64>; 6]) -> Option<Bound>
    ensures { MatchOption result (list_all is_small parts ≡ false) (λ bound. (bound.parts ≡ parts) × (list_all is_small parts ≡ true)) }
{
    let [
        observations,
        conjunctions,
        deepest,
        other,
        negative,
        negations,
    ] = parts;
    Some(Bound {
        parts: [
            narrow(observations)?,
            narrow(conjunctions)?,
            narrow(deepest)?,
            narrow(other)?,
            narrow(negative)?,
            narrow(negations)?,
        ],
    })
}
