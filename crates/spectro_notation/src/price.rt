ghost use Rattle.std.specs.Prelude.{◌≡◌, ◌++◌, OnErr, [], map, ◌≤◌, length};
ghost use Rattle.std.specs.Fmt.{decimal};
ghost use Rattle.std.specs.List.{join_with_byte};
ghost use Rattle.spectro_energy.specs.Energy.{price_of};
ghost use Rattle.spectro_io.specs.Batches.{Puts};
ghost use Rattle.spectro_io.specs.Faults.{HasCause};
ghost use Rattle.spectro_notation.specs.Prices.{next_text, price_text};

use spectro_energy::{Energy, Parts};
use spectro_io::{Batch, Digits, Failed, Sink};

/// Puts the parts of the price in decimal, with one space between them, behind the bytes that are held. Nothing is
/// held after it failed.
pub fn put_price<O: Sink>(
    price: Energy,
    parts: Parts,
    batch: &mut Batch,
    out: &mut O,
) -> Result<(), Failed>
    ensures bytes { Puts (O.written out.old) (O.written out.new) result batch.new (batch.old ++ price_text parts (price_of price.parts)) }
    ensures held { OnErr result (batch.new ≡ []) }
    ensures cause { HasCause (O.faults out.old) (O.faults out.new) result }
{
    match parts {
        Parts::Six => put_numbers(&price.parts[..6], batch, out),
        Parts::Seven => put_numbers(&price.parts, batch, out),
    }
}

// Puts the numbers in decimal, with one space between them.
fn put_numbers<O: Sink>(numbers: &[u32], batch: &mut Batch, out: &mut O) -> Result<(), Failed>
    ensures bytes { Puts (O.written out.old) (O.written out.new) result batch.new (batch.old ++ join_with_byte 32 (map decimal numbers.now)) }
    ensures held { OnErr result (batch.new ≡ []) }
    ensures cause { HasCause (O.faults out.old) (O.faults out.new) result }
{
    let [first, others @ ..] = numbers else {
        return Ok(());
    };
    batch.put(digits(*first).as_bytes(), out)?;
    for number in others {
        put_next(*number, batch, out)?;
    }
    Ok(())
}

// Puts the number behind a space.
fn put_next<O: Sink>(number: u32, batch: &mut Batch, out: &mut O) -> Result<(), Failed>
    ensures bytes { Puts (O.written out.old) (O.written out.new) result batch.new (batch.old ++ next_text number) }
    ensures held { OnErr result (batch.new ≡ []) }
    ensures cause { HasCause (O.faults out.old) (O.faults out.new) result }
{
    batch.put_all(&[b" ", digits(number).as_bytes()], out)
}

fn digits(number: u32) -> Digits
    ensures { result ≡ decimal number }
{
    Digits::of(u64::from(number))
}
