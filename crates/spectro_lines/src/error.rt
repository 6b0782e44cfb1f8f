ghost use Rattle.std.specs.Prelude.{◌≡◌};
ghost use Rattle.spectro_lines.specs.declared.error.LineError.TheVariants.{OutOfMemory};

use std::alloc::AllocError;

/// The first faulty line, counted from 1, and its fault.
#[derive(Clone, Copy, Debug, PartialEq, Eq)]
pub struct LineFault<K> {
    pub line: u64,
    pub kind: K,
}

/// Why a text has no value.
#[derive(Clone, Copy, Debug, PartialEq, Eq)]
pub enum LineError<K> {
    /// A line of the text has a fault.
    Text(LineFault<K>),
    /// Nothing is said of the text.
    OutOfMemory,
}

impl<K> From<AllocError> for LineError<K> {
    ghost from_gives = { λ _ error. error ≡ OutOfMemory };

    fn from(_error: AllocError) -> LineError<K> {
        LineError::OutOfMemory
    }
}
