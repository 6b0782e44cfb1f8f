ghost use Rattle.std.specs.Prelude.{◌≡◌};
ghost use Rattle.spectro_pairs.specs.declared.error.ExploreError.TheVariants.{OutOfMemory};

use std::alloc::{AllocError, AllocFailed};
use thiserror::Error;

/// Why pairs were not explored.
#[derive(Debug, Drop, Error)]
pub enum ExploreError {
    /// The game has at least so many positions, which is more than the limit.
    #[error("at least {at_least} positions")]
    TooLarge { at_least: u64 },
    #[error("out of memory")]
    OutOfMemory,
}

impl From<AllocError> for ExploreError {
    ghost from_gives = { λ _ e. e ≡ OutOfMemory };

    fn from(_error: AllocError) -> ExploreError {
        ExploreError::OutOfMemory
    }
}

impl<T: Drop> From<AllocFailed<T>> for ExploreError {
    ghost from_gives = { λ _ e. e ≡ OutOfMemory };

    fn from(_error: AllocFailed<T>) -> ExploreError {
        ExploreError::OutOfMemory
    }
}
