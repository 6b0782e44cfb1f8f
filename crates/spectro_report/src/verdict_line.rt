ghost use Rattle.std.specs.Prelude.{◌≡◌, [], ◌++◌, codes, OnErr};
ghost use Rattle.spectro_io.specs.Batches.{Puts};
ghost use Rattle.spectro_io.specs.Faults.{HasCause};
ghost use Rattle.spectro_energy.specs.Energy.{price_of};
ghost use Rattle.spectro_report.specs.Texts.{shown_text, verdict_line};
ghost use Rattle.spectro_report.specs.Verdicts.{fails, verdict_of};

use crate::{Shown, Verdict};
use spectro_energy::{Energy, Parts};
use spectro_io::{Batch, Digits, Failed, Sink};
use spectro_notation::put_price;

/// Puts the line of a verdict on the notion of the name behind the bytes that are held. Nothing is held after it failed.
pub fn put_verdict<O: Sink>(
    name: &str,
    verdict: &Verdict,
    parts: Parts,
    batch: &mut Batch,
    out: &mut O,
) -> Result<(), Failed>
    ensures bytes { Puts (O.written out.old) (O.written out.new) result batch.new (batch.old ++ verdict_line parts name.now (verdict_of verdict.now)) }
    ensures held { OnErr result (batch.new ≡ []) }
    ensures cause { HasCause (O.faults out.old) (O.faults out.new) result }
{
    match verdict {
        Verdict::Holds => batch.put_all(&[name.as_bytes(), b" holds\n"], out),
        Verdict::Fails { price, node, shown } => {
            put_failure(name, *price, *node, shown, parts, batch, out)
        }
    }
}

// Puts the line of a notion that fails.
fn put_failure<O: Sink>(
    name: &str,
    price: Energy,
    node: usize,
    shown: &Shown,
    parts: Parts,
    batch: &mut Batch,
    out: &mut O,
) -> Result<(), Failed>
    ensures bytes { Puts (O.written out.old) (O.written out.new) result batch.new
        (batch.old ++ verdict_line parts name.now (fails (price_of price.parts) node shown.now)) }
    ensures held { OnErr result (batch.new ≡ []) }
    ensures cause { HasCause (O.faults out.old) (O.faults out.new) result }
{
    batch.put_all(&[name.as_bytes(), b" fails "], out)?;
    put_price(price, parts, batch, out)?;
    put_shown(node, shown, batch, out)
}

// Puts the end of the line: the text of a formula, or the number of its node.
fn put_shown<O: Sink>(
    node: usize,
    shown: &Shown,
    batch: &mut Batch,
    out: &mut O,
) -> Result<(), Failed>
    ensures bytes { Puts (O.written out.old) (O.written out.new) result batch.new (batch.old ++ (codes " " ++ shown_text node shown.now ++ codes "\n")) }
    ensures held { OnErr result (batch.new ≡ []) }
    ensures cause { HasCause (O.faults out.old) (O.faults out.new) result }
{
    match shown {
        Shown::Inline(text) => batch.put_all(&[b" ", text.as_str().as_bytes(), b"\n"], out),
        Shown::ByNode => {
            let node = Digits::of(node as u64);
            batch.put_all(&[b" node ", node.as_bytes(), b"\n"], out)
        }
    }
}
