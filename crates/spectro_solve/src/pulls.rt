ghost use Rattle.std.specs.Prelude.{◌+◌, ◌<◌, ◌^◌, Contains, OnOk};
ghost use Rattle.spectro_spec.specs.Price.{Price, IsAtMost};
ghost use Rattle.spectro_spec.specs.LeastPrices.{Covers};
ghost use Rattle.spectro_game.specs.Update.{conjoin, inverse, to_deepest};
ghost use Rattle.spectro_energy.specs.Energy.{price_of};
ghost use Rattle.spectro_energy.specs.Updates.{update_of, CanRaise};
ghost use Rattle.spectro_solve.specs.Added.{AreChosen, AreOf, CanBeConjoined, IsAdded, IsClauseBy, IsClauseOf, IsCoveredByBoth, IsCoveredWith, IsJoinedBy, IsJoinedWith, IsMadeBy};

use spectro_energy::{Energy, Update};
use spectro_lanes::Antichain;
use std::alloc::AllocError;

/// Adds what the update makes of each member.
pub(crate) fn add_pulled(
    made: &mut Antichain,
    from: &Antichain,
    update: Update,
) -> Result<(), AllocError>
    requires { (e : Price) → Contains from.now e → CanRaise update e }
    ensures { OnOk result (IsAdded (IsMadeBy (update_of update) from.now) made.old made.new) }
{
    for k in 0..from.len() {
        made.insert(from.item(k).inverse(update))?;
    }
    Ok(())
}

/// Adds what a clause that is not the deepest costs over each member, where the update says its sign.
pub(crate) fn add_clauses(
    made: &mut Antichain,
    from: &Antichain,
    sign: Update,
) -> Result<(), AllocError>
    requires { (e : Price) → Contains from.now e → CanRaise sign e }
    ensures added { OnOk result (IsAdded (IsClauseBy (update_of sign) from.now) made.old made.new) }
    ensures members { OnOk result (AreOf (IsClauseOf (update_of sign) from.now) made.old made.new) }
{
    for k in 0..from.len() {
        made.insert(from.item(k).inverse(sign).inverse(Update::Other))?;
    }
    Ok(())
}

/// Adds the conjunctions of what was chosen for some states and of a clause that refutes all others.
pub(crate) fn add_joined(
    made: &mut Antichain,
    chosen: &Antichain,
    from: &Antichain,
) -> Result<(), AllocError>
    requires chosen { CanBeConjoined chosen.now }
    requires from { CanBeConjoined from.now }
    ensures { OnOk result (IsAdded (IsJoinedBy chosen.now from.now) made.old made.new) }
{
    for k in 0..chosen.len() {
        add_joined_with(made, chosen.item(k), from)?;
    }
    Ok(())
}

// Adds the conjunctions of `e` and of a clause over each member.
fn add_joined_with(made: &mut Antichain, e: Energy, from: &Antichain) -> Result<(), AllocError>
    requires chosen { (price_of e.parts).conjunctions + 1 < 2 ^ 32 }
    requires from { CanBeConjoined from.now }
    ensures { OnOk result (IsAdded (IsJoinedWith (price_of e.parts) from.now) made.old made.new) }
{
    for k in 0..from.len() {
        let clause = from.item(k).inverse(Update::Deepest);
        made.insert(e.sup(clause).inverse(Update::Conjoin))?;
    }
    Ok(())
}

/// Chooses one of each in every way, but for what is of no use.
pub(crate) fn choose_both(
    chosen: &mut Antichain,
    left: &Antichain,
    right: &Antichain,
    made: &Antichain,
) -> Result<(), AllocError>
    requires left { CanBeConjoined left.now }
    requires right { CanBeConjoined right.now }
    ensures chosen { OnOk result (AreChosen (IsCoveredByBoth left.now right.now) made.now chosen.old chosen.new) }
    ensures low { OnOk result (CanBeConjoined chosen.old → CanBeConjoined chosen.new) }
{
    for k in 0..left.len() {
        choose_with(chosen, left.item(k), right, made)?;
    }
    Ok(())
}

// Chooses `e` and one of the others in every way, but for what is of no use.
fn choose_with(
    chosen: &mut Antichain,
    e: Energy,
    others: &Antichain,
    made: &Antichain,
) -> Result<(), AllocError>
    requires energy { (price_of e.parts).conjunctions + 1 < 2 ^ 32 }
    requires others { CanBeConjoined others.now }
    ensures chosen { OnOk result (AreChosen (IsCoveredWith (price_of e.parts) others.now) made.now chosen.old chosen.new) }
    ensures low { OnOk result (CanBeConjoined chosen.old → CanBeConjoined chosen.new) }
{
    for k in 0..others.len() {
        choose(chosen, e.sup(others.item(k)), made)?;
    }
    Ok(())
}

// Chooses `e`, unless it is of no use.
fn choose(chosen: &mut Antichain, e: Energy, made: &Antichain) -> Result<(), AllocError>
    requires { (price_of e.parts).conjunctions + 1 < 2 ^ 32 }
    ensures chosen { OnOk result (AreChosen (IsAtMost (price_of e.parts)) made.now chosen.old chosen.new) }
    ensures low { OnOk result (CanBeConjoined chosen.old → CanBeConjoined chosen.new) }
{
    if made.covers(e.inverse(Update::Conjoin)) {
        return Ok(());
    }
    chosen.insert(e)?;
    Ok(())
}
