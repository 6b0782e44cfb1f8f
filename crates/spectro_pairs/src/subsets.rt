ghost use Rattle.std.specs.Prelude.{◌≡◌, ℕ, ◌<◌, ◌≤◌, ◌^◌, length, OnOk};
ghost use Rattle.spectro_pairs.specs.Explored.{IsSetWithin};
ghost use Rattle.spectro_pairs.specs.Subsets.{IsSubsetAt};

use smallvec::SmallVec;
use std::alloc::AllocError;

/// The members of the set whose bits are set in the mask, in place of what was there. Bit 0 is for the first member.
pub(crate) fn take_subset(
    set: &[u32],
    mask: u32,
    subset: &mut SmallVec<u32, 16>,
) -> Result<(), AllocError>
    requires few { length set.now ≤ 19 }
    requires mask { mask < 2 ^ length set.now }
    ensures subset { OnOk result (IsSubsetAt set.now mask subset.new.items) }
    ensures within { OnOk result ((states : ℕ) → IsSetWithin states set.now → IsSetWithin states subset.new.items) }
{
    subset.clear();
    for (i, q) in set.iter().enumerate() {
        if mask >> i & 1 == 1 {
            subset.push(*q)?;
        }
    }
    Ok(())
}
