ghost use Rattle.std.specs.Prelude.{ℕ, ◌<◌, ◌^◌, length, OnOk};
ghost use Rattle.spectro_rows.specs.Rows.{row_at};
ghost use Rattle.spectro_solve.specs.Added.{CanBeConjoined};
ghost use Rattle.spectro_solve.specs.Choices.{AreChosenTo, IsChosenFor};

use crate::pulls::choose_both;
use spectro_energy::Energy;
use spectro_lanes::Antichain;
use std::alloc::AllocError;

// what no clause costs
const NOTHING: Energy = Energy {
    parts: [0, 0, 0, 0, 0, 0, 0],
};

/// Makes the list of what is chosen for the members whose bits are set in a mask, where the lists of all smaller masks are
/// given, in order: one of the clauses of the lowest such member, and what is chosen for the others.
pub(crate) fn choose_for(
    clauses: &[Antichain],
    smaller: &[Antichain],
    made: &Antichain,
    list: &mut Antichain,
) -> Result<(), AllocError>
    requires mask { length smaller.now < 2 ^ length clauses.now }
    requires few { length clauses.now < 32 }
    requires low { (i : ℕ) → i < length clauses.now → CanBeConjoined (row_at clauses.now i) }
    requires smaller { AreChosenTo clauses.now made.now (length smaller.now) smaller.now }
    ensures { OnOk result (IsChosenFor clauses.now made.now (length smaller.now) list.new) }
{
    list.clear();
    let mask = smaller.len();
    if mask == 0 {
        list.insert(NOTHING)?;
        return Ok(());
    }
    let i = mask.trailing_zeros();
    choose_both(list, &smaller[mask - (1 << i)], &clauses[i as usize], made)
}
