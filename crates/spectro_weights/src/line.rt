ghost use Rattle.std.specs.Prelude.{ℕ, List, IfOk, MatchOption, MatchResult};
ghost use Rattle.spectro_weights.specs.WeightLines.{IsWeightLine, IsEntryLine};
ghost use Rattle.spectro_weights.specs.LineReading.{ArePartsOf, weight_in};
ghost use Rattle.spectro_weights.specs.Faults.{IsEntryFault};

use crate::WeightKind;
use spectro_io::{in_quotes, number, token_at, trim, unquoted};
use std::alloc::{AllocError, Global};

/// A label and its weight, as a line has them.
#[derive(Drop)]
pub(crate) struct Entry {
    pub(crate) label: String,
    pub(crate) weight: u8,
}

/// The number of a line, or the greatest `u64` where it is greater, and what stands between the quotes.
#[derive(Clone, Copy)]
struct Parts<'a> {
    number: u64,
    inside: &'a str,
}

// The parts of a line that is of the form of an entry.
fn parts_of(line: &str) -> Option<Parts<'_>>
    ensures { MatchOption result ((digits inside : List ℕ) → ¬ IsWeightLine line.now digits inside) (ArePartsOf line.now) }
{
    let (digits, rest) = token_at(line.as_bytes());
    let number = number(digits)?;
    let inside = in_quotes(trim(rest))?;
    let inside = str::from_utf8(inside).ok()?;
    Some(Parts { number, inside })
}

/// What the line sets, or why it sets nothing.
pub(crate) fn entry_in(alloc: Global, line: &str) -> Result<Result<Entry, WeightKind>, AllocError>
    ensures { IfOk result (λ found. MatchResult found (λ entry. IsEntryLine line.now (weight_in entry)) (IsEntryFault line.now)) }
{
    let Some(parts) = parts_of(line) else {
        return Ok(Err(WeightKind::BadLine));
    };
    let Some(label) = unquoted(alloc, parts.inside)? else {
        return Ok(Err(WeightKind::BadLabel));
    };
    let Ok(weight) = u8::try_from(parts.number) else {
        return Ok(Err(WeightKind::BadWeight));
    };
    Ok(Ok(Entry { label, weight }))
}
