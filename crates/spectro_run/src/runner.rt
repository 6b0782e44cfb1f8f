ghost use Rattle.std.specs.Prelude.{◌≡◌, ◌≢◌, None, IfSome};
ghost use Rattle.std.specs.Option.{option_map};
ghost use Rattle.spectro_io.specs.Faults.{Rose};
ghost use Rattle.spectro_words.specs.Asked.{asked};
ghost use Rattle.spectro_run.specs.Held.{HasNoFile};
ghost use Rattle.spectro_run.specs.Messages.{IsUntold, Tells, message};
ghost use Rattle.spectro_run.specs.Outcome.{IsAnswered, IsSilent};
ghost use Rattle.spectro_run.specs.Reading.{JudgesWhole};
ghost use Rattle.spectro_words.specs.Commands.{IsInRange};
ghost use Rattle.spectro_words.specs.Reading.{command};
ghost use Rattle.spectro_words.specs.Words.{words_of};

use crate::commands::compare::compare;
use crate::commands::demo::demo;
use crate::commands::eval::eval;
use crate::commands::price::price;
use crate::commands::rewrite::rewrite;
use crate::commands::size::size;
use crate::message::write_message;
use crate::status::Status;
use crate::written::finish;
use spectro_io::{Shelf, Sink, Source};
use spectro_words::{Command, command_of};
use std::alloc::Global;

// Does what the command asks for.
fn perform<H: Shelf, O: Sink>(
    alloc: Global,
    command: Option<Command<'_>>,
    shelf: &mut H,
    out: &mut O,
) -> Status
    requires range { IfSome command (λ command. IsInRange (asked command)) }
    ensures answer { IsAnswered (H.texts shelf.old) (option_map asked command.entry) (Rose (H.faults shelf.old) (H.faults shelf.new))
        (Rose (O.faults out.old) (O.faults out.new)) result (O.written out.old) (O.written out.new) }
    ensures whole { JudgesWhole (H.texts shelf.old) (option_map asked command.entry) (H.left shelf.new) result }
    ensures usage { option_map asked command.entry ≡ None → result ≡ Status.Usage }
    ensures read { result ≢ Status.ReadFault → H.faults shelf.new ≡ H.faults shelf.old }
    ensures write { result ≢ Status.WriteFault → O.faults out.new ≡ O.faults out.old }
    ensures silent { IsSilent result out.old out.new }
    ensures shelf { HasNoFile (option_map asked command.entry) → shelf.new ≡ shelf.old }
    ensures texts { H.texts shelf.new ≡ H.texts shelf.old }
{
    match command {
        None => Status::Usage,
        Some(
            Command::Eval {
                formula,
                file,
                weights,
            },
        ) => finish(eval(alloc, formula, file, weights, shelf), out),
        Some(Command::Rewrite { file }) => finish(rewrite(alloc, file, shelf), out),
        Some(Command::Price { formula, weights }) => {
            finish(price(alloc, formula, weights, shelf), out)
        }
        Some(Command::Size { left, right, limit }) => {
            finish(size(alloc, left, right, limit, shelf), out)
        }
        Some(
            Command::Compare {
                left,
                right,
                weights,
                notions,
                limit,
            },
        ) => finish(
            compare(alloc, left, right, weights, notions, limit, shelf),
            out,
        ),
        Some(Command::Demo { number }) => finish(demo(alloc, number), out),
    }
}

/// Does what the words ask for, over the devices, and writes the message of how it ended.
///
/// The order is: the words; opening and reading the left file, then its grammar; the right file likewise; the formula;
/// opening and reading the weights, then their grammar; the notions likewise; the size; the writing. A command skips what it
/// has not. The first refusal that is met is the answer. All memory is taken before the first byte is written. A message that
/// cannot be written changes nothing of the answer.
pub fn run<H: Shelf, I: Source, O: Sink, E: Sink>(
    alloc: Global,
    words: &[String],
    shelf: &mut H,
    input: &mut I,
    out: &mut O,
    err: &mut E,
) -> Status
    // The status and the bytes are those of the words and of what the files hold. A text of a file is judged when it has been
    // read to its end, or as far as a text is read.
    ensures answer { IsAnswered (H.texts shelf.old) (command (words_of words.now)) (Rose (H.faults shelf.old) (H.faults shelf.new))
        (Rose (O.faults out.old) (O.faults out.new)) result (O.written out.old) (O.written out.new) }
    ensures whole { JudgesWhole (H.texts shelf.old) (command (words_of words.now)) (H.left shelf.new) result }
    ensures usage { command (words_of words.now) ≡ None → result ≡ Status.Usage }

    // A device whose fault is not answered did not fail.
    ensures read { result ≢ Status.ReadFault → H.faults shelf.new ≡ H.faults shelf.old }
    ensures write { result ≢ Status.WriteFault → O.faults out.new ≡ O.faults out.old }

    // The message is that of the words and the status.
    ensures message { Tells (message (words_of words.now) result) (E.written err.old) (E.written err.new) (E.faults err.old) (E.faults err.new) }
    ensures untold { IsUntold result err.old err.new }

    // What is left alone.
    ensures silent { IsSilent result out.old out.new }
    ensures shelf { HasNoFile (command (words_of words.now)) → shelf.new ≡ shelf.old }
    ensures texts { H.texts shelf.new ≡ H.texts shelf.old }
    ensures input { input.new ≡ input.old }
{
    let command = command_of(words);
    let status = perform(alloc, command, shelf, out);
    let _told = write_message(command, status, err);
    status
}
