ghost use Rattle.std.specs.Prelude.{◌≡◌, Some};
ghost use Rattle.spectro_weights.specs.Kinds.{fault_text, kind_name};
ghost use Rattle.spectro_weights.specs.declared.error.WeightError.TheVariants.{OutOfMemory};

use std::alloc::AllocError;
use std::fmt;
use thiserror::Error;

/// Why a text is not read as weights.
#[derive(Debug, Drop, Error)]
pub enum WeightError {
    /// The text is of no weights.
    #[error("{0}")]
    Text(WeightFault),
    /// Nothing is said of the text.
    #[error("out of memory")]
    OutOfMemory,
}

impl From<AllocError> for WeightError {
    ghost from_gives = { λ _ error. error ≡ OutOfMemory };

    fn from(_error: AllocError) -> WeightError {
        WeightError::OutOfMemory
    }
}

/// The first faulty line, counted from 1, and its fault.
#[derive(Clone, Copy, Debug, PartialEq, Eq)]
pub struct WeightFault {
    pub line: u64,
    pub kind: WeightKind,
}

/// What is wrong with a line, in the order in which the faults of a line are told.
#[derive(Clone, Copy, Debug, PartialEq, Eq)]
pub enum WeightKind {
    /// The line has more than 32,768 bytes without its line end, or the text has more than 67,108,864 with it.
    TooLong,
    /// The line is not UTF-8.
    NotText,
    /// The line is not a number, blanks and a label in quotes.
    BadLine,
    /// What stands between the quotes is no label.
    BadLabel,
    /// The number is above 255.
    BadWeight,
    /// An earlier line has the label.
    Repeated,
    /// 65,536 labels stand before the line.
    TooManyLabels,
}

impl WeightKind {
    /// The kind's name.
    pub fn name(&self) -> &'static str
        ensures { result.now ≡ kind_name self.now }
    {
        match self {
            WeightKind::TooLong => "TooLong",
            WeightKind::NotText => "NotText",
            WeightKind::BadLine => "BadLine",
            WeightKind::BadLabel => "BadLabel",
            WeightKind::BadWeight => "BadWeight",
            WeightKind::Repeated => "Repeated",
            WeightKind::TooManyLabels => "TooManyLabels",
        }
    }
}

impl fmt::Display for WeightFault {
    ghost output = { λ fault. Some (fault_text fault) };

    fn fmt<W: fmt::Write>(&self, f: &mut fmt::Formatter<W>) -> fmt::Result {
        let line = self.line;
        let kind = self.kind.name();
        write!(f, "line {line}: {kind}")
    }
}
