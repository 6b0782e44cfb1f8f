ghost use Rattle.std.specs.Prelude.{◌≡◌, ◌++◌};
ghost use Rattle.std.specs.Option.{option_map};
ghost use Rattle.spectro_io.specs.Batches.{Puts};
ghost use Rattle.spectro_io.specs.Bytes.{WritesWhole};
ghost use Rattle.spectro_io.specs.Faults.{HasCause};
ghost use Rattle.spectro_words.specs.Asked.{asked};
ghost use Rattle.spectro_words.specs.Words.{named};
ghost use Rattle.spectro_run.specs.Held.{file_of, of_files};
ghost use Rattle.spectro_run.specs.Messages.{IsUntold, command_message, fault_text, kind_text, place_text, text_name};

use crate::status::{BadText, Kind, Status, Which};
use spectro_aut::AutKind;
use spectro_io::{Batch, Digits, Failed, Sink, write_all, write_whole};
use spectro_words::Command;

// The name of this file of the command, if it has one.
fn file_of<'a>(which: Which, command: Command<'a>) -> Option<&'a str>
    ensures { named result ≡ file_of which (asked command.entry) }
{
    match command {
        Command::Eval { file, weights, .. } => of_files(Some(file), None, weights, None, which),
        Command::Rewrite { file } => of_files(Some(file), None, None, None, which),
        Command::Price { weights, .. } => of_files(None, None, weights, None, which),
        Command::Size { left, right, .. } => of_files(Some(left), Some(right), None, None, which),
        Command::Compare {
            left,
            right,
            weights,
            notions,
            ..
        } => of_files(Some(left), Some(right), weights, notions, which),
        Command::Demo { .. } => None,
    }
}

// The name that is asked for, of the left file, the right one, that of weights and that of notions.
fn of_files<'a>(
    left: Option<&'a str>,
    right: Option<&'a str>,
    weights: Option<&'a str>,
    notions: Option<&'a str>,
    which: Which,
) -> Option<&'a str>
    ensures { named result ≡ of_files (named left.entry) (named right.entry) (named weights.entry) (named notions.entry) which }
{
    match which {
        Which::Left => left,
        Which::Right => right,
        Which::Weights => weights,
        Which::Notions => notions,
        Which::Formula | Which::Certificate => None,
    }
}

// How the text of the command is called.
fn text_name<'a>(which: Which, command: Option<Command<'a>>) -> &'a str
    ensures { result.now ≡ text_name which (option_map asked command.entry) }
{
    match (which, command) {
        (Which::Formula, _) => "formula",
        (_, None) => "",
        (_, Some(command)) => file_of(which, command).unwrap_or(""),
    }
}

fn write_fault<E: Sink>(name: &str, fault: BadText, err: &mut E) -> Result<(), Failed>
    ensures bytes { WritesWhole (E.written err.old) (E.written err.new) result (fault_text name.now fault) }
    ensures cause { HasCause (E.faults err.old) (E.faults err.new) result }
{
    let mut batch = Batch::new();
    put_place(name, fault.at, &mut batch, err)?;
    put_kind(fault.kind, &mut batch, err)?;
    batch.flush(err)
}

fn put_place<E: Sink>(name: &str, at: u64, batch: &mut Batch, err: &mut E) -> Result<(), Failed>
    ensures bytes { Puts (E.written err.old) (E.written err.new) result batch.new (batch.old ++ place_text name.now at) }
    ensures cause { HasCause (E.faults err.old) (E.faults err.new) result }
{
    let at = Digits::of(at);
    batch.put_all(
        &[b"spectro: ", name.as_bytes(), b":", at.as_bytes(), b": "],
        err,
    )
}

fn put_kind<E: Sink>(kind: Kind, batch: &mut Batch, err: &mut E) -> Result<(), Failed>
    ensures bytes { Puts (E.written err.old) (E.written err.new) result batch.new (batch.old ++ kind_text kind) }
    ensures cause { HasCause (E.faults err.old) (E.faults err.new) result }
{
    match kind {
        Kind::Aut(AutKind::MissingLines { said, found }) => {
            let said = Digits::of(u64::from(said));
            let found = Digits::of(u64::from(found));
            batch.put_all(
                &[
                    kind.name().as_bytes(),
                    b" said ",
                    said.as_bytes(),
                    b" found ",
                    found.as_bytes(),
                    b"\n",
                ],
                err,
            )
        }
        _ => batch.put_all(&[kind.name().as_bytes(), b"\n"], err),
    }
}

/// Writes the message for a command that ended so, which is none for `Done` and `No`. It takes no memory.
pub fn write_message<E: Sink>(
    command: Option<Command<'_>>,
    status: Status,
    err: &mut E,
) -> Result<(), Failed>
    ensures bytes { WritesWhole (E.written err.old) (E.written err.new) result (command_message (option_map asked command.entry) status) }
    ensures cause { HasCause (E.faults err.old) (E.faults err.new) result }
    ensures untold { IsUntold status err.old err.new }
{
    match status {
        Status::Done | Status::No => Ok(()),
        Status::Usage => write_whole(err, b"spectro: words not understood\n"),
        Status::BadText(fault) => write_fault(text_name(fault.which, command), fault, err),
        Status::TooLarge { limit } => write_all(
            &[
                b"spectro: more than ",
                Digits::of(u64::from(limit)).as_bytes(),
                b" positions\n",
            ],
            err,
        ),
        Status::ReadFault => write_whole(err, b"spectro: cannot read\n"),
        Status::WriteFault => write_whole(err, b"spectro: cannot write\n"),
        Status::OutOfMemory => write_whole(err, b"spectro: out of memory\n"),
    }
}
