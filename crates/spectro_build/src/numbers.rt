ghost use Rattle.std.specs.Prelude.{◌≡◌, Some, Contains, IfOk, map, slice_get};
ghost use Rattle.spectro_build.specs.declared.key.Key.{Key};

use crate::built::NodeList;
use crate::key::Key;
use crate::needs::Needs;
use std::alloc::{AllocError, Global};

/// The numbers of the nodes of the keys.
pub(crate) fn numbers_of(alloc: Global, needs: &Needs, keys: &[Key]) -> Result<NodeList, AllocError>
    requires { (key : Key) → Contains keys.now key → Contains needs.now key }
    ensures { IfOk result (λ nodes. map (slice_get needs.now) nodes ≡ map Some keys.now) }
{
    let mut numbers = Vec::with_capacity(alloc, keys.len())?;
    for key in keys {
        numbers.push(needs.number(*key))?;
    }
    Ok(NodeList { numbers })
}
