ghost use Rattle.std.specs.Prelude.{◌≡◌, Some};
ghost use Rattle.spectro_notions.specs.Kinds.{fault_text, kind_name};
ghost use Rattle.spectro_notions.specs.declared.error.NotionError.TheVariants.{OutOfMemory};

use std::alloc::AllocError;
use std::fmt;
use thiserror::Error;

/// Why a text is not read as a table of notions.
#[derive(Debug, Drop, Error)]
pub enum NotionError {
    /// The text is of no table.
    #[error("{0}")]
    Text(NotionFault),
    /// Nothing is said of the text.
    #[error("out of memory")]
    OutOfMemory,
}

impl From<AllocError> for NotionError {
    ghost from_gives = { λ _ error. error ≡ OutOfMemory };

    fn from(_error: AllocError) -> NotionError {
        NotionError::OutOfMemory
    }
}

/// The first faulty line, counted from 1, and its fault.
#[derive(Clone, Copy, Debug, PartialEq, Eq)]
pub struct NotionFault {
    pub line: u64,
    pub kind: NotionKind,
}

/// What is wrong with a line, in the order in which the faults of a line are told.
#[derive(Clone, Copy, Debug, PartialEq, Eq)]
pub enum NotionKind {
    /// The line has more than 32,768 bytes without its line end, or the text has more than 67,108,864 with it.
    TooLong,
    /// The line is not UTF-8.
    NotText,
    /// The line is not a name and six bounds, of which each is a number or `*`.
    BadLine,
    /// A bound is above 4,294,967,295.
    BadNumber,
    /// An earlier line has the name.
    Repeated,
    /// 64 notions stand before the line.
    TooMany,
    /// The text ends with no notion.
    NoNotion,
}

impl NotionKind {
    /// The kind's name.
    pub fn name(&self) -> &'static str
        ensures { result.now ≡ kind_name self.now }
    {
        match self {
            NotionKind::TooLong => "TooLong",
            NotionKind::NotText => "NotText",
            NotionKind::BadLine => "BadLine",
            NotionKind::BadNumber => "BadNumber",
            NotionKind::Repeated => "Repeated",
            NotionKind::TooMany => "TooMany",
            NotionKind::NoNotion => "NoNotion",
        }
    }
}

impl fmt::Display for NotionFault {
    ghost output = { λ fault. Some (fault_text fault) };

    fn fmt<W: fmt::Write>(&self, f: &mut fmt::Formatter<W>) -> fmt::Result {
        let line = self.line;
        let kind = self.kind.name();
        write!(f, "line {line}: {kind}")
    }
}
