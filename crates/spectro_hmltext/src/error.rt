ghost use Rattle.std.specs.Prelude.{◌≡◌, Some};
ghost use Rattle.spectro_hmltext.specs.Kinds.{fault_text, kind_name};
ghost use Rattle.spectro_hmltext.specs.declared.error.ParseError.TheVariants.{OutOfMemory};

use std::alloc::AllocError;
use std::fmt;
use thiserror::Error;

/// Why a text is not read as a formula.
#[derive(Debug, Drop, Error)]
pub enum ParseError {
    /// The text is of no formula.
    #[error("{0}")]
    Text(TextFault),
    /// Nothing is said of the text.
    #[error("out of memory")]
    OutOfMemory,
}

impl From<AllocError> for ParseError {
    ghost from_gives = { λ _ error. error ≡ OutOfMemory };

    fn from(_error: AllocError) -> ParseError {
        ParseError::OutOfMemory
    }
}

/// The first fault of a text, and the place of the byte at which it stands, counted from 0.
#[derive(Clone, Copy, Debug, PartialEq, Eq)]
pub struct TextFault {
    pub at: u32,
    pub kind: TextKind,
}

/// What is wrong with a text.
#[derive(Clone, Copy, Debug, PartialEq, Eq)]
pub enum TextKind {
    /// The text has more than 65,536 bytes.
    TooLong,
    /// A formula begins that stands in 256 others.
    TooDeep,
    /// In a label a backslash stands before another character than a quote or a backslash, or an LF stands, or a
    /// character brings it above 8,192 bytes.
    BadLabel,
    /// A token that can't stand there.
    Unexpected,
    /// The text ends inside a formula or a label.
    UnexpectedEnd,
}

impl TextKind {
    /// The kind's name.
    pub fn name(&self) -> &'static str
        ensures { result.now ≡ kind_name self.now }
    {
        match self {
            TextKind::TooLong => "TooLong",
            TextKind::TooDeep => "TooDeep",
            TextKind::BadLabel => "BadLabel",
            TextKind::Unexpected => "Unexpected",
            TextKind::UnexpectedEnd => "UnexpectedEnd",
        }
    }
}

impl fmt::Display for TextFault {
    ghost output = { λ fault. Some (fault_text fault) };

    fn fmt<W: fmt::Write>(&self, f: &mut fmt::Formatter<W>) -> fmt::Result {
        let at = self.at;
        let kind = self.kind.name();
        write!(f, "byte {at}: {kind}")
    }
}
