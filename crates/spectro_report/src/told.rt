ghost use Rattle.std.specs.Prelude.{◌≡◌, ◌<◌, ◌≤◌, [], ◌∷◌, length, map, take, All, IfOk};
ghost use Rattle.std.specs.Option.{option_map};
ghost use Rattle.spectro_energy.specs.Energy.{price_of};
ghost use Rattle.spectro_hml.specs.Sheets.{unfolded};
ghost use Rattle.spectro_hmltext.specs.Lengths.{AreLengths};
ghost use Rattle.spectro_report.specs.Firsts.{AreTold, IsPutLast, firsts_of, prices_found};
ghost use Rattle.spectro_report.specs.Verdicts.{IsShownAs, verdict_of};

use crate::{MAX_INLINE_BYTES, Shown, Verdict};
use spectro_energy::Energy;
use spectro_hml::Sheet;
use spectro_hmltext::{Printed, print_with_lengths};
use std::alloc::{AllocError, Global};

/// The verdicts that tell what was found. Each that fails has the next of the nodes, whose texts have these lengths.
pub(crate) fn tell(
    alloc: Global,
    sheet: &Sheet,
    lengths: &[u64],
    firsts: &[Option<Energy>],
    numbers: &[usize],
) -> Result<Vec<Verdict>, AllocError>
    requires lengths { AreLengths sheet.now (length sheet.now) lengths.now }
    requires numbers { All (λ k. k < length sheet.now) numbers.now }
    requires count { length numbers.now ≡ length (prices_found (firsts_of firsts.now)) }
    ensures { IfOk result (λ verdicts. AreTold sheet.now (firsts_of firsts.now) numbers.now (map verdict_of verdicts.items)) }
{
    let mut verdicts = Vec::with_capacity(alloc, firsts.len())?;
    let mut next = 0;
    for first in firsts {
        let rest = &numbers[next..];
        next += tell_one(alloc, sheet, lengths, *first, rest, &mut verdicts)?;
    }
    Ok(verdicts)
}

// Puts the verdict on one notion last. Answers how many nodes it has.
fn tell_one(
    alloc: Global,
    sheet: &Sheet,
    lengths: &[u64],
    first: Option<Energy>,
    numbers: &[usize],
    verdicts: &mut Vec<Verdict>,
) -> Result<usize, AllocError>
    requires lengths { AreLengths sheet.now (length sheet.now) lengths.now }
    requires numbers { All (λ k. k < length sheet.now) numbers.now }
    requires count { length (prices_found (firsts_of (first ∷ []))) ≤ length numbers.now }
    ensures told { IfOk result (λ count. IsPutLast sheet.now (option_map (λ energy. price_of energy.parts) first) (take count numbers.now)
        (map verdict_of verdicts.old.items) (map verdict_of verdicts.new.items)) }
    ensures count { IfOk result (λ count. count ≡ length (prices_found (firsts_of (first ∷ [])))) }
{
    let Some(price) = first else {
        verdicts.push(Verdict::Holds)?;
        return Ok(0);
    };
    let node = numbers[0];
    let shown = shown(alloc, sheet, lengths, node)?;
    verdicts.push(Verdict::Fails { price, node, shown })?;
    Ok(1)
}

// How the formula of the node is shown.
fn shown(alloc: Global, sheet: &Sheet, lengths: &[u64], node: usize) -> Result<Shown, AllocError>
    requires lengths { AreLengths sheet.now (length sheet.now) lengths.now }
    requires node { node < length sheet.now }
    ensures { IfOk result (IsShownAs (unfolded sheet.now node)) }
{
    match print_with_lengths(alloc, sheet, lengths, node, MAX_INLINE_BYTES)? {
        Printed::Text(text) => Ok(Shown::Inline(text)),
        Printed::TooLong => Ok(Shown::ByNode),
    }
}
