// A text that comes in pieces, of which no more than a line is held: the bytes behind the last LF, until the next LF comes
// and the line is read. A fault is kept until the end, since the rest of the text is taken all the same, and behind it
// nothing is held. A whole text is a feed of one piece, so there is one reader and one proof. To hold the whole text takes
// up to 64 MiB beside what it stands for, and `BufRead::lines` takes memory for each line, however long it is.
ghost use Rattle.std.specs.Prelude.{◌≡◌, ◌<◌, [], ◌∷◌, ◌++◌, List, ℕ, Contains, IfOk, IfErr, OnOk, OnErr, IsErr, Err};
ghost use Rattle.spectro_lines.specs.Feeding.{EndsLine, HasRead, HasTaken, IsBroken, IsTold, Takes, stopped};
ghost use Rattle.spectro_lines.specs.Texts.{IsText};
ghost use Rattle.spectro_lines.specs.declared.error.LineError.TheVariants.{OutOfMemory};

use crate::line::{split_at_feed, take_line};
use crate::{Grammar, LineError, LineFault};
use spectro_io::{LINE_LIMIT, without_cr};
use std::alloc::{AllocError, Global};
use std::marker::Model;

/// In bytes, without the LF that ends the line.
const MAX_HELD: usize = LINE_LIMIT + 1;

/// How far the reading of a text has come.
#[derive(Drop)]
pub(crate) enum Progress<G, K> {
    /// No line had a fault.
    Open(G),
    /// A line had one.
    Faulty(LineFault<K>),
    /// Memory ran out.
    Broken,
}

/// A reader of a text that comes in pieces. It keeps the state so far, the first fault, and at most one line.
#[derive(Drop)]
pub struct Feed<G: Grammar> {
    alloc: Global,
    progress: Progress<G, G::Kind>,
    bytes: usize,
    lines: u64,
    held: Vec<u8>,
}

impl<G: Grammar> Model for Feed<G> {
    ghost use Rattle.spectro_lines.specs.Feeding.{Fed, IsWhole};

    ghost Value = { Fed G G.Kind };

    ghost view = { λ feed. record { progress = feed.progress; bytes = feed.bytes; lines = feed.lines; held = feed.held.items } };

    ghost invariant = { λ feed. IsWhole G.form (record { progress = feed.progress; bytes = feed.bytes; lines = feed.lines; held = feed.held.items }) };
}

impl<G: Grammar> Feed<G> {
    /// A reader that has taken nothing.
    pub fn new(alloc: Global) -> Feed<G>
        ensures { HasTaken G.form result [] }
    {
        Feed {
            alloc,
            progress: Progress::Open(G::start(alloc)),
            bytes: 0,
            lines: 0,
            held: Vec::new(alloc),
        }
    }

    /// Takes the next bytes of the text, and tells no fault of it. After an error it takes no more.
    pub fn feed(&mut self, piece: &[u8]) -> Result<(), AllocError>
        ensures ok { OnOk result (Takes G.form self.old self.new piece.now) }
        ensures err { OnErr result (IsBroken self.new) }
        ensures broken { IsBroken self.old → IsErr result }
    {
        if let Progress::Broken = self.progress {
            return Err(AllocError);
        }
        match self.take_bytes(piece) {
            Ok(()) => Ok(()),
            Err(AllocError) => {
                self.progress = Progress::Broken;
                Err(AllocError)
            }
        }
    }

    /// The value of the text that was taken.
    pub fn finish(mut self) -> Result<G::Value, LineError<G::Kind>>
        ensures ok { IfOk result (λ value. (taken : List ℕ) → HasTaken G.form self taken → IsText G.form taken value) }
        ensures refused { IfErr result (λ error. (taken : List ℕ) → HasTaken G.form self taken → IsTold G.form taken error) }
        ensures broken { IsBroken self → result ≡ Err OutOfMemory }
    {
        self.read_last_line()?;
        self.answer()
    }

    // Takes the bytes, one line after the other.
    fn take_bytes(&mut self, piece: &[u8]) -> Result<(), AllocError>
        ensures { OnOk result (Takes G.form self.old self.new piece.now) }
    {
        let mut rest = piece;
        while let Some((line, others)) = split_at_feed(rest) {
            self.take_line(line)?;
            rest = others;
        }
        self.hold(rest)
    }

    // Takes what is left of a line, and the LF that ends it.
    fn take_line(&mut self, part: &[u8]) -> Result<(), AllocError>
        requires { ¬ Contains part.now 10 }
        ensures { OnOk result (Takes G.form self.old self.new (part.now ++ 10 ∷ [])) }
    {
        self.hold(part)?;
        self.end_line()
    }

    // Takes bytes of one line, none of which ends it.
    fn hold(&mut self, part: &[u8]) -> Result<(), AllocError>
        requires { ¬ Contains part.now 10 }
        ensures { OnOk result (Takes G.form self.old self.new part.now) }
    {
        let Progress::Open(_) = &self.progress else {
            return Ok(());
        };
        let room = (G::limit() - self.bytes).min(MAX_HELD - self.held.len());
        if part.len() > room {
            self.stop(G::too_long());
            return Ok(());
        }
        self.held.extend_from_slice(part)?;
        self.bytes += part.len();
        Ok(())
    }

    // Takes the LF that ends a line.
    fn end_line(&mut self) -> Result<(), AllocError>
        ensures { OnOk result (Takes G.form self.old self.new (10 ∷ [])) }
    {
        let Progress::Open(_) = &self.progress else {
            return Ok(());
        };
        if self.bytes == G::limit() {
            self.stop(G::too_long());
            return Ok(());
        }
        self.bytes += 1;
        self.read_held()
    }

    // Reads the line that is held, which has ended.
    fn read_held(&mut self) -> Result<(), AllocError>
        requires { self.old.lines < self.old.bytes }
        ensures { OnOk result (EndsLine G.form self.old self.new) }
    {
        let Progress::Open(grammar) = &mut self.progress else {
            return Ok(());
        };
        match take_line(grammar, self.alloc, without_cr(&self.held), self.lines + 1)? {
            None => {
                self.lines += 1;
                self.held.clear();
            }
            Some(kind) => self.stop(kind),
        }
        Ok(())
    }

    // The line that has not ended has the fault.
    fn stop(&mut self, kind: G::Kind)
        ensures { self.new ≡ stopped self.old kind }
    {
        let line = self.lines + 1;
        self.progress = Progress::Faulty(LineFault { line, kind });
        self.bytes = 0;
        self.lines = 0;
        self.held.clear();
    }

    // Reads the last line, which no LF ends, where there is one.
    fn read_last_line(&mut self) -> Result<(), AllocError>
        ensures last { OnOk result ((taken : List ℕ) → HasTaken G.form self.old taken → HasRead G.form self.new taken) }
        ensures broken { IsBroken self.old → OnOk result (IsBroken self.new) }
    {
        if self.held.is_empty() {
            return Ok(());
        }
        self.read_held()
    }

    // What the text was, behind its last line.
    fn answer(self) -> Result<G::Value, LineError<G::Kind>>
        ensures ok { IfOk result (λ value. (taken : List ℕ) → HasRead G.form self taken → IsText G.form taken value) }
        ensures refused { IfErr result (λ error. (taken : List ℕ) → HasRead G.form self taken → IsTold G.form taken error) }
        ensures broken { IsBroken self → result ≡ Err OutOfMemory }
    {
        let Feed {
            progress,
            lines,
            ..
        } = self;
        match progress {
            Progress::Open(grammar) => match grammar.finish(lines)? {
                Ok(value) => Ok(value),
                Err(fault) => Err(LineError::Text(fault)),
            },
            Progress::Faulty(fault) => Err(LineError::Text(fault)),
            Progress::Broken => Err(LineError::OutOfMemory),
        }
    }
}
