ghost use Rattle.std.specs.Prelude.{◌≡◌, ◌↔◌, ◌<◌, ◌≤◌, length, IsTrue, IfOk, Some, IfErr};
ghost use Rattle.spectro_spec.specs.Formula.{Satisfies};
ghost use Rattle.spectro_spec.specs.Pricing.{price};
ghost use Rattle.spectro_energy.specs.Energy.{price_of};
ghost use Rattle.spectro_hml.specs.Sheets.{unfolded};
ghost use Rattle.spectro_io.specs.Faults.{Rose};
ghost use Rattle.spectro_words.specs.Words.{named};
ghost use Rattle.spectro_run.specs.Commands.Eval.{eval_text};
ghost use Rattle.spectro_run.specs.Notation.{truth_line};
ghost use Rattle.spectro_run.specs.Reading.{JudgesWhole};
ghost use Rattle.spectro_run.specs.Stops.{Counts, IsPrepared};
ghost use Rattle.spectro_run.specs.Weighted.{parts_shown};
ghost use Rattle.spectro_words.specs.Commands as words;
ghost use Rattle.spectro_hmltext.specs.declared.parser.TheConstants.{MAX_TEXT_BYTES};

use crate::cost::cost_of;
use crate::output::{parts_shown, put_price_line};
use crate::status::{Status, Which};
use crate::texts::{read_formula, take_system, take_weights};
use crate::written::Written;
use spectro_energy::{Energy, Parts};
use spectro_eval::Truth;
use spectro_hml::Sheet;
use spectro_io::{Batch, Failed, Shelf, Sink};
use spectro_lts::Lts;
use spectro_weights::Weights;
use std::alloc::{AllocError, Global};

/// Whether the formula is true at the initial state, and what it costs, of which so many parts are shown.
#[derive(Clone, Copy)]
pub struct Evaluated {
    truth: bool,
    price: Energy,
    parts: Parts,
}

impl Written for Evaluated {
    ghost text = { λ evaluated. eval_text evaluated.truth evaluated.parts (price_of evaluated.price.parts) };

    fn write<O: Sink>(&self, out: &mut O) -> Result<(), Failed> {
        let mut batch = Batch::new();
        batch.put(truth_line(self.truth), out)?;
        put_price_line(self.price, self.parts, &mut batch, out)?;
        batch.flush(out)
    }
}

fn truth_line(truth: bool) -> &'static [u8]
    ensures { result.now ≡ truth_line truth }
{
    if truth { b"true\n" } else { b"false\n" }
}

// What the node's formula is at the initial state, and what it costs.
fn evaluate(
    alloc: Global,
    lts: &Lts,
    sheet: &Sheet,
    node: usize,
    weights: &Weights,
    parts: Parts,
) -> Result<Evaluated, AllocError>
    requires node { node < length sheet.now }
    requires few { length sheet.now ≤ MAX_TEXT_BYTES }
    ensures truth { IfOk result (λ evaluated. IsTrue evaluated.truth ↔ Satisfies lts.now lts.now.initial (unfolded sheet.now node)) }
    ensures price { IfOk result (λ evaluated. price_of evaluated.price.parts ≡ price weights.now (unfolded sheet.now node)) }
    ensures parts { IfOk result (λ evaluated. evaluated.parts ≡ parts) }
{
    let truth = Truth::of(alloc, lts, sheet)?;
    let price = cost_of(alloc, sheet, node, weights)?;
    Ok(Evaluated {
        truth: truth.at(node, lts.initial()),
        price,
        parts,
    })
}

/// Whether the formula is true at the initial state of the file's system, and what it costs.
pub fn eval<H: Shelf>(
    alloc: Global,
    formula: &str,
    file: &str,
    weights: Option<&str>,
    shelf: &mut H,
) -> Result<Evaluated, Status>
    ensures prepared { IsPrepared (H.texts shelf.old) (words.eval formula.now file.now (named weights.entry))
        (λ evaluated. eval_text evaluated.truth evaluated.parts (price_of evaluated.price.parts)) (Rose (H.faults shelf.old) (H.faults shelf.new)) result }
    ensures whole { IfErr result (JudgesWhole (H.texts shelf.old) (Some (words.eval formula.now file.now (named weights.entry))) (H.left shelf.new)) }
    ensures counts { Counts (H.faults shelf.old) (H.faults shelf.new) result }
    ensures texts { H.texts shelf.new ≡ H.texts shelf.old }
{
    let parts = parts_shown(weights);
    let lts = take_system(alloc, file, Which::Left, shelf)?;
    let parsed = read_formula(alloc, formula)?;
    let weights = take_weights(alloc, weights, shelf)?;
    Ok(evaluate(alloc, &lts, &parsed.sheet, parsed.top, &weights, parts)?)
}
