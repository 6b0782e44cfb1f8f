ghost use Rattle.std.specs.Prelude.{◌≤◌, length, map, string_bytes, IfOk};
ghost use Rattle.spectro_lts.specs.Ranks.{texts_of, AreSorted, AreRanks};
ghost use Rattle.spectro_lts.specs.declared.draft.TheConstants.{MAX_LABELS};

use indexmap::IndexSet;
use std::alloc::{AllocError, Global};

/// The place of each label in the order of bytes.
pub(crate) fn ranks(alloc: Global, labels: &IndexSet<String>) -> Result<Vec<u32>, AllocError>
    requires { length labels.now.keys ≤ MAX_LABELS }
    ensures { IfOk result (λ ranks. AreRanks labels.now.keys ranks.items) }
{
    let sorted = sorted_labels(alloc, labels)?;
    let mut ranks = Vec::with_capacity(alloc, labels.len())?;
    for label in labels {
        ranks.push(sorted.partition_point(|other| *other < label) as u32)?;
    }
    Ok(ranks)
}

// The labels in the order of bytes.
fn sorted_labels(alloc: Global, labels: &IndexSet<String>) -> Result<Vec<&String>, AllocError>
    ensures { IfOk result (λ sorted. AreSorted (map string_bytes labels.now.keys) (texts_of sorted.items)) }
{
    let mut sorted = Vec::with_capacity(alloc, labels.len())?;
    for label in labels {
        sorted.push(label)?;
    }
    sorted.sort_unstable();
    Ok(sorted)
}
