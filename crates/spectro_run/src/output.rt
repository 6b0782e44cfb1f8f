//! The lines that several commands write.

ghost use Rattle.std.specs.Prelude.{◌≡◌, ◌++◌};
ghost use Rattle.spectro_energy.specs.Energy.{price_of};
ghost use Rattle.spectro_io.specs.Batches.{Puts};
ghost use Rattle.spectro_io.specs.Faults.{HasCause};
ghost use Rattle.spectro_words.specs.Words.{named};
ghost use Rattle.spectro_run.specs.Notation.{price_line};
ghost use Rattle.spectro_run.specs.Weighted.{parts_shown};

use spectro_energy::{Energy, Parts};
use spectro_io::{Batch, Failed, Sink};
use spectro_notation::put_price;

/// How many parts of a price are shown, where weights are asked for by this name.
pub fn parts_shown(weights: Option<&str>) -> Parts
    ensures { result ≡ parts_shown (named weights.entry) }
{
    match weights {
        None => Parts::Six,
        Some(_) => Parts::Seven,
    }
}

/// Puts the line of the price behind the bytes that are held.
pub fn put_price_line<O: Sink>(
    price: Energy,
    parts: Parts,
    batch: &mut Batch,
    out: &mut O,
) -> Result<(), Failed>
    ensures bytes { Puts (O.written out.old) (O.written out.new) result batch.new (batch.old ++ price_line parts (price_of price.parts)) }
    ensures cause { HasCause (O.faults out.old) (O.faults out.new) result }
{
    batch.put(b"price ", out)?;
    put_price(price, parts, batch, out)?;
    batch.put(b"\n", out)
}
