ghost use Rattle.std.specs.Prelude.{◌≡◌, IfOk, IfErr};
ghost use Rattle.spectro_hmltext.specs.Faults.{IsMisplaced};
ghost use Rattle.spectro_hmltext.specs.Parts.{IsNotFirst};
ghost use Rattle.spectro_hmltext.specs.Stops.{StopsAt};
ghost use Rattle.spectro_hmltext.specs.Tokens.{Begins};
ghost use Rattle.spectro_hmltext.specs.declared.stop.Stop.TheVariants.{OutOfMemory};

use crate::error::TextKind;
use crate::token::{Token, token_at};
use spectro_io::trim_start;
use std::alloc::AllocError;

/// Why reading stopped.
#[derive(Clone, Copy)]
pub enum Stop {
    /// A fault, with so many bytes left from it on.
    Fault { left: usize, kind: TextKind },
    OutOfMemory,
}

impl From<AllocError> for Stop {
    ghost from_gives = { λ _ stop. stop ≡ OutOfMemory };

    fn from(_error: AllocError) -> Stop {
        Stop::OutOfMemory
    }
}

/// The stop at the first token of the text, which can't stand there.
pub(crate) fn misplaced(text: &[u8]) -> Stop
    ensures { StopsAt (IsMisplaced text.now) result }
{
    let kind = match token_at(text).0 {
        Token::End => TextKind::UnexpectedEnd,
        _ => TextKind::Unexpected,
    };
    Stop::Fault {
        left: trim_start(text).len(),
        kind,
    }
}

/// What stands behind the token, which is to be the first of the text.
pub(crate) fn behind(token: Token, text: &[u8]) -> Result<&[u8], Stop>
    ensures ok { IfOk result (λ rest. Begins token text.now rest.now) }
    ensures stopped { IfErr result (StopsAt (IsNotFirst token text.now)) }
{
    let (first, rest) = token_at(text);
    if first != token {
        return Err(misplaced(text));
    }
    Ok(rest)
}
