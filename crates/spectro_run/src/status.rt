ghost use Rattle.std.specs.Prelude.{◌≡◌};
ghost use Rattle.spectro_run.specs.Codes.{code_of, refusal_of, status_of};
ghost use Rattle.spectro_run.specs.Messages.{kind_name};
ghost use Rattle.spectro_run.specs.declared.status.Status.TheVariants.{OutOfMemory};

use spectro_aut::AutKind;
use spectro_hmltext::TextKind;
use spectro_io::ReadError;
use spectro_notions::NotionKind;
use spectro_report::ReportError;
use spectro_weights::WeightKind;
use std::alloc::AllocError;

/// How a run ended.
#[derive(Clone, Copy, Debug, PartialEq, Eq)]
pub enum Status {
    /// The whole output was written.
    Done,
    /// A certificate is not valid, and the refusal was written.
    No,
    /// The words are no command.
    Usage,
    /// A text is not of its grammar.
    BadText(BadText),
    /// The comparison has more positions than the limit.
    TooLarge { limit: u32 },
    /// A text could not be read.
    ReadFault,
    /// The output could not be written whole.
    WriteFault,
    /// Memory ran out before anything was written.
    OutOfMemory,
}

/// Which text was refused, at which line of a file (from 1) or byte of a formula (from 0), and why.
#[derive(Clone, Copy, Debug, PartialEq, Eq)]
pub struct BadText {
    pub which: Which,
    pub at: u64,
    pub kind: Kind,
}

/// A text of a command.
#[derive(Clone, Copy, Debug, PartialEq, Eq)]
pub enum Which {
    Left,
    Right,
    Formula,
    Certificate,
    Weights,
    Notions,
}

/// Why a text was refused.
#[derive(Clone, Copy, Debug, PartialEq, Eq)]
pub enum Kind {
    Aut(AutKind),
    Formula(TextKind),
    Weights(WeightKind),
    Notions(NotionKind),
}

impl Kind {
    /// The kind's name, without its numbers.
    pub fn name(&self) -> &'static str
        ensures { result.now ≡ kind_name self.now }
    {
        match self {
            Kind::Aut(kind) => kind.name(),
            Kind::Formula(kind) => kind.name(),
            Kind::Weights(kind) => kind.name(),
            Kind::Notions(kind) => kind.name(),
        }
    }
}

impl From<AllocError> for Status {
    ghost from_gives = { λ _ status. status ≡ OutOfMemory };

    fn from(_error: AllocError) -> Status {
        Status::OutOfMemory
    }
}

impl From<ReadError> for Status {
    ghost from_gives = { λ error status. status ≡ status_of error };

    fn from(error: ReadError) -> Status {
        match error {
            ReadError::Failed => Status::ReadFault,
            ReadError::OutOfMemory => Status::OutOfMemory,
        }
    }
}

impl From<ReportError> for Status {
    ghost from_gives = { λ error status. status ≡ refusal_of error };

    fn from(error: ReportError) -> Status {
        match error {
            ReportError::TooLarge { limit } => Status::TooLarge { limit },
            ReportError::OutOfMemory => Status::OutOfMemory,
        }
    }
}

impl Status {
    /// The exit code.
    pub fn code(&self) -> u8
        ensures { result ≡ code_of self.now }
    {
        match self {
            Status::Done => 0,
            Status::No => 1,
            Status::Usage => 2,
            Status::BadText(_) => 3,
            Status::TooLarge { .. } => 4,
            Status::ReadFault => 5,
            Status::WriteFault => 6,
            Status::OutOfMemory => 7,
        }
    }
}
