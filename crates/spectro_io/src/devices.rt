ghost use Rattle.std.specs.Prelude.{◌≡◌, ℕ, ◌<◌, ◌≤◌, List, length, Option, IfOk};
ghost use Rattle.std.specs.Io.{ReadsAtMost};
ghost use Rattle.std.specs.Io.KnownBytes.{ReadConsumes, WriteAppends};
ghost use Rattle.spectro_io.specs.Faults.{HasCause};
ghost use Rattle.spectro_io.specs.Shelves.{Texts, no_texts, AnswersOpen};

/// The one error of a device.
#[derive(Clone, Copy, Debug, PartialEq, Eq)]
pub struct Failed;

/// Where bytes come from.
pub trait Source {
    // The bytes that are left, where the source tells them.
    ghost left: { Self → Option (List ℕ) };

    // How many calls have failed.
    ghost faults: { Self → ℕ };

    // What text each name holds, where this is a shelf that tells it.
    ghost texts: { Self → Option Texts } = { λ _. no_texts };

    /// Takes bytes from the front of those that are left, and puts them at the front of the buffer.
    /// Answers how many, which is 0 only where none was left.
    fn read(&mut self, buf: &mut [u8]) -> Result<usize, Failed>
        requires { 0 < length buf.old }
        ensures bound { ReadsAtMost result buf.new }
        ensures bytes { ReadConsumes (left self.old) (left self.new) result buf.new }
        ensures texts { texts self.new ≡ texts self.old }
        ensures cause { HasCause (faults self.old) (faults self.new) result };
}

/// Texts under names, of which one at a time is open and read.
pub trait Shelf: Source {
    /// Opens the text that the name holds, and closes the one before. Answers whether the name holds one;
    /// where it does not, and after a failure, nothing is open.
    fn open(&mut self, name: &str) -> Result<bool, Failed>
        ensures opened { AnswersOpen (Self.texts self.old) name.now result (Self.left self.new) }
        ensures texts { Self.texts self.new ≡ Self.texts self.old }
        ensures cause { HasCause (Self.faults self.old) (Self.faults self.new) result };
}

/// Where bytes go.
pub trait Sink {
    // The bytes that were written, where the sink tells them.
    ghost written: { Self → Option (List ℕ) };

    // How many calls have failed.
    ghost faults: { Self → ℕ };

    /// Takes one or more bytes from the front of the piece, and answers how many.
    fn write(&mut self, piece: &[u8]) -> Result<usize, Failed>
        requires { 0 < length piece.now }
        ensures some { IfOk result (λ count. (0 < count) × (count ≤ length piece.now)) }
        ensures bytes { WriteAppends (written self.old) (written self.new) result piece.now }
        ensures cause { HasCause (faults self.old) (faults self.new) result };
}
