ghost use Rattle.std.specs.Prelude.{◌≡◌, ◌++◌};
ghost use Rattle.std.specs.Fmt.{decimal};
ghost use Rattle.spectro_io.specs.Batches.{Puts};
ghost use Rattle.spectro_io.specs.Bytes.{WritesWhole};
ghost use Rattle.spectro_io.specs.Faults.{HasCause};
ghost use Rattle.spectro_aut.specs.Written.{header_text, step_text, text_of};

use spectro_io::{Batch, Digits, Failed, Sink};
use spectro_lts::Lts;

/// Writes the text of the system.
pub fn write<O: Sink>(lts: &Lts, out: &mut O) -> Result<(), Failed>
    ensures bytes { WritesWhole (O.written out.old) (O.written out.new) result (text_of lts.now) }
    ensures cause { HasCause (O.faults out.old) (O.faults out.new) result }
{
    let mut batch = Batch::new();
    put_header(lts, &mut batch, out)?;
    for k in 0..lts.step_count() {
        let step = lts.step(k);
        put_step(step.from, lts.label(step.label), step.to, &mut batch, out)?;
    }
    batch.flush(out)
}

fn put_header<O: Sink>(lts: &Lts, batch: &mut Batch, out: &mut O) -> Result<(), Failed>
    ensures bytes { Puts (O.written out.old) (O.written out.new) result batch.new (batch.old ++ header_text lts.now) }
    ensures cause { HasCause (O.faults out.old) (O.faults out.new) result }
{
    let initial = digits(lts.initial());
    let steps = digits(lts.step_count());
    let states = digits(lts.states());
    batch.put_all(
        &[
            b"des (",
            initial.as_bytes(),
            b", ",
            steps.as_bytes(),
            b", ",
            states.as_bytes(),
            b")\n",
        ],
        out,
    )
}

fn put_step<O: Sink>(
    source: u32,
    label: &str,
    target: u32,
    batch: &mut Batch,
    out: &mut O,
) -> Result<(), Failed>
    ensures bytes { Puts (O.written out.old) (O.written out.new) result batch.new
        (batch.old ++ step_text (record { source = source; label = label.now; target = target })) }
    ensures cause { HasCause (O.faults out.old) (O.faults out.new) result }
{
    let source = digits(source);
    let target = digits(target);
    batch.put_all(
        &[
            b"(",
            source.as_bytes(),
            b", \"",
            label.as_bytes(),
            b"\", ",
            target.as_bytes(),
            b")\n",
        ],
        out,
    )
}

fn digits(number: u32) -> Digits
    ensures { result ≡ decimal number }
{
    Digits::of(u64::from(number))
}
