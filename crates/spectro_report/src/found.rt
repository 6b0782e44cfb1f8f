ghost use Rattle.std.specs.Prelude.{◌≡◌, [], ◌∷◌, ◌++◌, IfOk, OnOk};
ghost use Rattle.std.specs.Option.{option_map};
ghost use Rattle.spectro_energy.specs.Energy.{price_of};
ghost use Rattle.spectro_notions.specs.Bounds.{bound_of};
ghost use Rattle.spectro_report.specs.Firsts.{AreFirsts, IsFirst, firsts_of, wanted_of};

use spectro_build::Wanted;
use spectro_energy::Energy;
use spectro_notions::{Bound, Notions, within};
use spectro_solve::Antichain;
use std::alloc::{AllocError, Global};

/// For each notion the first price of the list within its bound.
pub(crate) fn find(
    alloc: Global,
    list: &Antichain,
    notions: &Notions,
) -> Result<Vec<Option<Energy>>, AllocError>
    ensures { IfOk result (λ firsts. AreFirsts list.now notions.now (firsts_of firsts.items)) }
{
    let mut firsts = Vec::with_capacity(alloc, notions.count() as usize)?;
    for k in 0..notions.count() {
        firsts.push(first_within(list, notions.bound(k)))?;
    }
    Ok(firsts)
}

// The first price of the list within the bound.
fn first_within(list: &Antichain, bound: Bound) -> Option<Energy>
    ensures { IsFirst list.now (bound_of bound.parts) (option_map (λ energy. price_of energy.parts) result) }
{
    for k in 0..list.len() {
        let price = list.item(k);
        if within(price, bound) {
            return Some(price);
        }
    }
    None
}

/// Puts what was found last, as wanted for the pair.
pub(crate) fn ask(
    pair: u32,
    firsts: &[Option<Energy>],
    wanted: &mut Vec<Wanted>,
) -> Result<(), AllocError>
    ensures { OnOk result (wanted.new.items ≡ wanted.old.items ++ wanted_of pair firsts.now) }
{
    for first in firsts {
        ask_one(pair, *first, wanted)?;
    }
    Ok(())
}

fn ask_one(pair: u32, first: Option<Energy>, wanted: &mut Vec<Wanted>) -> Result<(), AllocError>
    ensures { OnOk result (wanted.new.items ≡ wanted.old.items ++ wanted_of pair (first ∷ [])) }
{
    if let Some(price) = first {
        wanted.push(Wanted { pair, price })?;
    }
    Ok(())
}
