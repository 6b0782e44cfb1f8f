ghost use Rattle.std.specs.Prelude.{◌≡◌};
ghost use Rattle.spectro_report.specs.declared.error.ReportError.TheVariants.{OutOfMemory};

use std::alloc::AllocError;
use thiserror::Error;

/// Why there is no report.
#[derive(Debug, Drop, Error)]
pub enum ReportError {
    /// The game of the comparison has more positions than the limit.
    #[error("more than {limit} positions")]
    TooLarge { limit: u32 },
    #[error("out of memory")]
    OutOfMemory,
}

impl From<AllocError> for ReportError {
    ghost from_gives = { λ _ e. e ≡ OutOfMemory };

    fn from(_error: AllocError) -> ReportError {
        ReportError::OutOfMemory
    }
}
