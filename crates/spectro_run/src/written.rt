ghost use Rattle.std.specs.Prelude.{◌≡◌, ◌≢◌, ℕ, List, Option, Some, IfOk, IfErr};
ghost use Rattle.spectro_io.specs.Bytes.{WritesWhole};
ghost use Rattle.spectro_io.specs.Faults.{HasCause, Rose};
ghost use Rattle.spectro_io.specs.Shelves.{Texts};
ghost use Rattle.spectro_run.specs.Outcome.{Finishes, IsAnswered, IsSilent};
ghost use Rattle.spectro_run.specs.Stops.{IsPrepared, IsStop};
ghost use Rattle.spectro_words.specs.Commands.{Command};

use crate::status::Status;
use spectro_io::{Failed, Sink};

/// What a command has to write.
pub trait Written {
    // The bytes that go out.
    ghost text: { Self → List ℕ };

    /// Writes the bytes.
    fn write<O: Sink>(&self, out: &mut O) -> Result<(), Failed>
        ensures bytes { WritesWhole (O.written out.old) (O.written out.new) result (text self.now) }
        ensures cause { HasCause (O.faults out.old) (O.faults out.new) result };
}

/// Writes what a command has to write, or leaves the output where it has stopped.
pub fn finish<W: Written + Drop, O: Sink>(answer: Result<W, Status>, out: &mut O) -> Status
    requires { IfErr answer IsStop }
    ensures written { IfOk answer (λ written. Finishes (W.text written) result (O.written out.old) (O.written out.new)) }
    ensures stopped { IfErr answer (λ status. (result ≡ status) × (out.new ≡ out.old)) }
    ensures answered { (told : Option Texts) (command : Command) (before now : ℕ) → IsPrepared told command W.text (Rose before now) answer
        → IsAnswered told (Some command) (Rose before now) (Rose (O.faults out.old) (O.faults out.new)) result (O.written out.old) (O.written out.new) }
    ensures silent { IsSilent result out.old out.new }
    ensures cause { result ≡ Status.WriteFault → Rose (O.faults out.old) (O.faults out.new) }
    ensures kept { result ≢ Status.WriteFault → O.faults out.new ≡ O.faults out.old }
{
    match answer {
        Ok(written) => write_all(&written, out),
        Err(status) => status,
    }
}

fn write_all<W: Written, O: Sink>(written: &W, out: &mut O) -> Status
    ensures written { Finishes (W.text written.now) result (O.written out.old) (O.written out.new) }
    ensures cause { result ≡ Status.WriteFault → Rose (O.faults out.old) (O.faults out.new) }
    ensures kept { result ≢ Status.WriteFault → O.faults out.new ≡ O.faults out.old }
{
    match written.write(out) {
        Ok(()) => Status::Done,
        Err(_) => Status::WriteFault,
    }
}
