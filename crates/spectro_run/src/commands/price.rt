ghost use Rattle.std.specs.Prelude.{◌≡◌, ◌<◌, ◌≤◌, length, None, IfOk, Some, IfErr};
ghost use Rattle.spectro_energy.specs.Energy.{price_of};
ghost use Rattle.spectro_hml.specs.Sheets.{unfolded};
ghost use Rattle.spectro_hmltext.specs.Printed.{formula_text};
ghost use Rattle.spectro_io.specs.Faults.{Rose};
ghost use Rattle.spectro_words.specs.Words.{named};
ghost use Rattle.spectro_run.specs.Commands.Price.{priced_text};
ghost use Rattle.spectro_run.specs.Reading.{JudgesWhole};
ghost use Rattle.spectro_run.specs.Stops.{Counts, IsPrepared};
ghost use Rattle.spectro_words.specs.Commands as words;

use crate::cost::cost_of;
use crate::output::{parts_shown, put_price_line};
use crate::status::Status;
use crate::texts::{read_formula, take_weights};
use crate::written::Written;
use spectro_energy::{Energy, Parts};
use spectro_hml::Sheet;
use spectro_hmltext::{FormulaText, Printed, print};
use spectro_io::{Batch, Failed, Shelf, Sink};
use std::alloc::{AllocError, Global};

// How many bytes are printed at most of the formula of a text.
const MOST_PRINTED: u32 = 131_072;

/// What is printed of a formula, and what it costs, of which so many parts are shown.
#[derive(Drop)]
pub struct Priced {
    text: FormulaText,
    price: Energy,
    parts: Parts,
}

impl Written for Priced {
    ghost text = { λ priced. priced_text priced.text priced.parts (price_of priced.price.parts) };

    fn write<O: Sink>(&self, out: &mut O) -> Result<(), Failed> {
        let mut batch = Batch::new();
        batch.put(self.text.as_str().as_bytes(), out)?;
        batch.put(b"\n", out)?;
        put_price_line(self.price, self.parts, &mut batch, out)?;
        batch.flush(out)
    }
}

// What is printed of the formula of a node.
fn printed(alloc: Global, sheet: &Sheet, node: usize) -> Result<FormulaText, AllocError>
    requires node { node < length sheet.now }
    requires short { length (formula_text (unfolded sheet.now node)) ≤ MOST_PRINTED }
    ensures { IfOk result (λ text. text ≡ formula_text (unfolded sheet.now node)) }
{
    match print(alloc, sheet, node, MOST_PRINTED)? {
        Printed::Text(text) => Ok(text),
        Printed::TooLong => unreachable!(),
    }
}

/// What is printed of the formula, and what it costs.
pub fn price<H: Shelf>(
    alloc: Global,
    formula: &str,
    weights: Option<&str>,
    shelf: &mut H,
) -> Result<Priced, Status>
    ensures prepared { IsPrepared (H.texts shelf.old) (words.price formula.now (named weights.entry))
        (λ priced. priced_text priced.text priced.parts (price_of priced.price.parts)) (Rose (H.faults shelf.old) (H.faults shelf.new)) result }
    ensures whole { IfErr result (JudgesWhole (H.texts shelf.old) (Some (words.price formula.now (named weights.entry))) (H.left shelf.new)) }
    ensures counts { Counts (H.faults shelf.old) (H.faults shelf.new) result }
    ensures texts { H.texts shelf.new ≡ H.texts shelf.old }
    ensures alone { named weights.entry ≡ None → shelf.new ≡ shelf.old }
{
    let parts = parts_shown(weights);
    let parsed = read_formula(alloc, formula)?;
    let weights = take_weights(alloc, weights, shelf)?;
    let price = cost_of(alloc, &parsed.sheet, parsed.top, &weights)?;
    let text = printed(alloc, &parsed.sheet, parsed.top)?;
    Ok(Priced { text, price, parts })
}
