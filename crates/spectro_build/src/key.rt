ghost use Rattle.std.specs.Prelude.{◌≡◌, ◌<◌, length};
ghost use Rattle.spectro_energy.specs.Energy.{price_of};
ghost use Rattle.spectro_rows.specs.Rows.{row_at};
ghost use Rattle.spectro_build.specs.Keys.{key_of, price_at};

use spectro_energy::Energy;
use spectro_solve::Table;

/// A listed price of a pair, by what tells the order of its node.
#[derive(Clone, Copy, Debug, PartialEq, Eq, PartialOrd, Ord, Hash)]
pub(crate) struct Key {
    /// Depth of observations and nesting of conjunctions together.
    pub(crate) height: u64,
    /// The number of the pair.
    pub(crate) pair: u32,
    /// The place of the price in the list of the pair.
    pub(crate) place: usize,
}

impl Key {
    /// The key of the price, which is listed at the place.
    pub(crate) fn new(price: Energy, pair: u32, place: usize) -> Key
        ensures { result ≡ key_of (price_of price.parts) pair place }
    {
        let [observations, conjunctions, ..] = price.parts;
        Key {
            height: u64::from(observations) + u64::from(conjunctions),
            pair,
            place,
        }
    }

    /// The price.
    pub(crate) fn price(self, table: &Table) -> Energy
        requires pair { self.pair < length table.now.rows }
        requires place { self.place < length (row_at table.now.rows self.pair) }
        ensures { price_of result.parts ≡ price_at table.now.rows self.pair self.place }
    {
        table.least(self.pair).item(self.place)
    }
}
