ghost use Rattle.std.specs.Prelude.{◌≡◌, ◌≤◌, ℕ, List, ◌++◌, take, IfOk, IfSome, OnOk, OnErr, IsErrOf};
ghost use Rattle.spectro_io.specs.declared.read.ReadError.TheVariants.{Failed as FailedError, OutOfMemory};
ghost use Rattle.spectro_io.specs.Faults.{Rose};
ghost use Rattle.spectro_io.specs.Limits.{read_limit};
ghost use Rattle.spectro_io.specs.Reads.{ReadsAll, ReadsInto, TakesFront};

use crate::{Failed, Source};
use std::alloc::{AllocError, Global};

/// As many bytes a text has at most, line ends counted.
pub const TEXT_LIMIT: usize = 67_108_864;

/// As many bytes of a text are read: one more than a text may have.
pub const READ_LIMIT: usize = TEXT_LIMIT + 1;

// Bytes that are lent to one read.
pub(crate) const PIECE: usize = 65_536;

/// Why a text was not read.
#[derive(Clone, Copy, Debug, PartialEq, Eq)]
pub enum ReadError {
    Failed,
    OutOfMemory,
}

impl From<Failed> for ReadError {
    ghost from_gives = { λ _ error. error ≡ FailedError };

    fn from(_failed: Failed) -> ReadError {
        ReadError::Failed
    }
}

impl From<AllocError> for ReadError {
    ghost from_gives = { λ _ error. error ≡ OutOfMemory };

    fn from(_error: AllocError) -> ReadError {
        ReadError::OutOfMemory
    }
}

/// What bytes are read into, piece by piece.
pub trait Intake {
    // It has taken these bytes.
    ghost has_taken: { Self → List ℕ → Type 0 };

    /// Takes the next bytes.
    fn take(&mut self, piece: &[u8]) -> Result<(), AllocError>
        ensures { OnOk result ((taken : List ℕ) → has_taken self.old taken → has_taken self.new (taken ++ piece.now)) };
}

impl Intake for Vec<u8> {
    ghost has_taken = { λ bytes taken. bytes.items ≡ taken };

    fn take(&mut self, piece: &[u8]) -> Result<(), AllocError> {
        self.extend_from_slice(piece)
    }
}

/// Reads to the end, or as many bytes as the limit allows, into what takes them. At most 65,536 bytes are lent to
/// a read.
#[tactic(auto, unfolding(crate::specs::Limits::read_limit))]
pub fn read_into<S: Source, I: Intake>(source: &mut S, intake: &mut I) -> Result<(), ReadError>
    ensures all { OnOk result (ReadsInto I.has_taken (S.left source.old) (S.left source.new) intake.old intake.new) }
    ensures err { OnErr result (TakesFront (S.left source.old) (S.left source.new)) }
    ensures texts { S.texts source.new ≡ S.texts source.old }
    ensures cause { IsErrOf result ReadError.Failed → Rose (S.faults source.old) (S.faults source.new) }
    ensures later { S.faults source.old ≤ S.faults source.new }
    ensures kept { OnOk result (S.faults source.new ≡ S.faults source.old) }
    ensures memory { IsErrOf result ReadError.OutOfMemory → S.faults source.new ≡ S.faults source.old }
{
    let mut piece = [0u8; PIECE];
    let mut taken = 0;
    'reading: while taken < READ_LIMIT {
        let room = PIECE.min(READ_LIMIT - taken);
        let count = source.read(&mut piece[..room])?;
        if count == 0 {
            break;
        }
        intake.take(&piece[..count])?;
        taken += count;
    }
    Ok(())
}

/// Reads to the end, or as many bytes as the limit allows, and answers them. At most 65,536 bytes are lent to
/// a read.
pub fn read_all<S: Source>(alloc: Global, source: &mut S) -> Result<Vec<u8>, ReadError>
    ensures all { IfOk result (λ bytes. ReadsAll (S.left source.old) (S.left source.new) bytes.items) }
    ensures bytes { IfOk result (λ bytes. IfSome (S.left source.old) (λ left. bytes.items ≡ take read_limit left)) }
    ensures err { OnErr result (TakesFront (S.left source.old) (S.left source.new)) }
    ensures texts { S.texts source.new ≡ S.texts source.old }
    ensures cause { IsErrOf result ReadError.Failed → Rose (S.faults source.old) (S.faults source.new) }
    ensures later { S.faults source.old ≤ S.faults source.new }
    ensures kept { OnOk result (S.faults source.new ≡ S.faults source.old) }
    ensures memory { IsErrOf result ReadError.OutOfMemory → S.faults source.new ≡ S.faults source.old }
{
    let mut bytes = Vec::new(alloc);
    read_into(source, &mut bytes)?;
    Ok(bytes)
}
