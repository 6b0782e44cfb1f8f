ghost use Rattle.std.specs.Prelude.{◌≡◌, [], ◌++◌, List, ℕ, IfOk, IfErr, OnOk, OnErr, IsErr, Err};
ghost use Rattle.spectro_aut.specs.Feeding.{HasTaken, IsBroken};
ghost use Rattle.spectro_aut.specs.Texts.{IsRefused, IsText};
ghost use Rattle.spectro_aut.specs.declared.error.AutError.TheVariants.{OutOfMemory};

use crate::reading::Reading;
use crate::{AutError, AutFault};
use spectro_io::Intake;
use spectro_lines::LineError;
use spectro_lts::Lts;
use std::alloc::{AllocError, Global};
use std::marker::Model;

/// A reader of a text that comes in pieces. It keeps the system so far, the first fault, and at most one line.
#[derive(Drop)]
pub struct Feed {
    lines: spectro_lines::Feed<Reading>,
}

impl Model for Feed {
    ghost use Rattle.spectro_aut.specs.Feeding.{Fed};

    ghost Value = { Fed };

    ghost view = { λ feed. feed.lines };
}

impl Feed {
    /// A reader that has taken nothing.
    pub fn new(alloc: Global) -> Result<Feed, AllocError>
        ensures { IfOk result (λ feed. HasTaken feed []) }
    {
        let lines = spectro_lines::Feed::new(alloc);
        Ok(Feed { lines })
    }

    /// Takes the next bytes of the text, and tells no fault of it. After an error it takes no more.
    pub fn feed(&mut self, piece: &[u8]) -> Result<(), AllocError>
        ensures ok { OnOk result ((taken : List ℕ) → HasTaken self.old taken → HasTaken self.new (taken ++ piece.now)) }
        ensures err { OnErr result (IsBroken self.new) }
        ensures broken { IsBroken self.old → IsErr result }
    {
        self.lines.feed(piece)
    }

    /// The system of which the bytes that were taken are a text.
    pub fn finish(self) -> Result<Lts, AutError>
        ensures ok { IfOk result (λ lts. (taken : List ℕ) → HasTaken self taken → IsText taken lts) }
        ensures refused { IfErr result (λ error. (taken : List ℕ) → HasTaken self taken → IsRefused taken error) }
        ensures broken { IsBroken self → result ≡ Err OutOfMemory }
    {
        match self.lines.finish() {
            Ok(lts) => Ok(lts),
            Err(LineError::Text(fault)) => Err(AutError::Text(AutFault {
                line: fault.line,
                kind: fault.kind,
            })),
            Err(LineError::OutOfMemory) => Err(AutError::OutOfMemory),
        }
    }
}

impl Intake for Feed {
    ghost has_taken = { HasTaken };

    fn take(&mut self, piece: &[u8]) -> Result<(), AllocError> {
        self.feed(piece)
    }
}
