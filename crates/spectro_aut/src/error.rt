ghost use Rattle.std.specs.Prelude.{◌≡◌, Some};
ghost use Rattle.spectro_aut.specs.Kinds.{fault_text, kind_name};
ghost use Rattle.spectro_aut.specs.declared.error.AutError.TheVariants.{OutOfMemory};

use std::alloc::AllocError;
use std::fmt;
use thiserror::Error;

/// Why a text is not read as a system.
#[derive(Debug, Drop, Error)]
pub enum AutError {
    /// The text is of no system.
    #[error("{0}")]
    Text(AutFault),
    /// Nothing is said of the text.
    #[error("out of memory")]
    OutOfMemory,
}

impl From<AllocError> for AutError {
    ghost from_gives = { λ _ error. error ≡ OutOfMemory };

    fn from(_error: AllocError) -> AutError {
        AutError::OutOfMemory
    }
}

/// The first faulty line, counted from 1, and its fault.
#[derive(Clone, Copy, Debug, PartialEq, Eq)]
pub struct AutFault {
    pub line: u64,
    pub kind: AutKind,
}

/// What is wrong with a line, in the order in which the faults of a line are told, but that `TooLong` comes first.
#[derive(Clone, Copy, Debug, PartialEq, Eq)]
pub enum AutKind {
    /// The line is not UTF-8.
    NotText,
    /// The first line that is not blank does not begin with `des`, or there is no such line.
    NoHeader,
    /// That line begins with `des` and is no header.
    BadHeader,
    /// The header has more than 65,536 states.
    TooManyStates,
    /// The header has more than 1,000,000 transitions.
    TooManyTransitions,
    /// The header has no state.
    NoState,
    /// The initial state is not below the number of states.
    BadInitial,
    /// The line is no transition, the label aside.
    BadLine,
    /// The label is not in quotes, and is empty or has a quote in it.
    BadLabel,
    /// The label has more than 8,192 bytes.
    LabelTooLong,
    /// The source or the target is not below the number of states.
    StateRange,
    /// The label is new, and 65,536 labels stand before it.
    TooManyLabels,
    /// As many transitions as the header says stand before the line.
    ExtraLine,
    /// The text ended with fewer transitions than the header says.
    MissingLines { said: u32, found: u32 },
    /// The line has more than 32,768 bytes without its line end, or the text has more than 67,108,864 with it.
    TooLong,
}

impl AutKind {
    /// The kind's name, without its numbers.
    pub fn name(&self) -> &'static str
        ensures { result.now ≡ kind_name self.now }
    {
        match self {
            AutKind::NotText => "NotText",
            AutKind::NoHeader => "NoHeader",
            AutKind::BadHeader => "BadHeader",
            AutKind::TooManyStates => "TooManyStates",
            AutKind::TooManyTransitions => "TooManyTransitions",
            AutKind::NoState => "NoState",
            AutKind::BadInitial => "BadInitial",
            AutKind::BadLine => "BadLine",
            AutKind::BadLabel => "BadLabel",
            AutKind::LabelTooLong => "LabelTooLong",
            AutKind::StateRange => "StateRange",
            AutKind::TooManyLabels => "TooManyLabels",
            AutKind::ExtraLine => "ExtraLine",
            AutKind::MissingLines { .. } => "MissingLines",
            AutKind::TooLong => "TooLong",
        }
    }
}

impl fmt::Display for AutFault {
    ghost output = { λ fault. Some (fault_text fault) };

    fn fmt<W: fmt::Write>(&self, f: &mut fmt::Formatter<W>) -> fmt::Result {
        let line = self.line;
        let kind = self.kind.name();
        match self.kind {
            AutKind::MissingLines { said, found } => {
                write!(f, "line {line}: {kind} said {said} found {found}")
            }
            _ => write!(f, "line {line}: {kind}"),
        }
    }
}
