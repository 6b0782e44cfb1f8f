ghost use Rattle.std.specs.Prelude.{◌≡◌, ◌<◌, ◌≤◌, length, IfOk};
ghost use Rattle.spectro_spec.specs.Pricing.{price};
ghost use Rattle.spectro_energy.specs.Energy.{price_of};
ghost use Rattle.spectro_hml.specs.Sheets.{unfolded};
ghost use Rattle.spectro_hmltext.specs.declared.parser.TheConstants.{MAX_TEXT_BYTES};

use spectro_energy::Energy;
use spectro_hml::Sheet;
use spectro_price::prices;
use spectro_weights::Weights;
use std::alloc::{AllocError, Global};

/// What the formula of the node costs under the weights.
pub fn cost_of(
    alloc: Global,
    sheet: &Sheet,
    node: usize,
    weights: &Weights,
) -> Result<Energy, AllocError>
    requires node { node < length sheet.now }
    requires few { length sheet.now ≤ MAX_TEXT_BYTES }
    ensures { IfOk result (λ cost. price_of cost.parts ≡ price weights.now (unfolded sheet.now node)) }
{
    let prices = prices(alloc, sheet, weights)?;
    Ok(prices[node])
}
