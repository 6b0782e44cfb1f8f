ghost use Rattle.std.specs.Prelude.{◌≡◌, All, IfOk, List};
ghost use Rattle.spectro_game.specs.Pairs.{Pair};
ghost use Rattle.spectro_energy.specs.Energy.{price_of};
ghost use Rattle.spectro_build.specs.Keys.{IsKey, needs_at, price_at};
ghost use Rattle.spectro_build.specs.Wanted.{IsListedIn, needs_of};

use crate::key::Key;
use spectro_energy::Energy;
use spectro_solve::Table;
use std::alloc::{AllocError, Global};
use std::cmp::Ordering;

/// A pair of an arena and a price that is listed for it.
#[derive(Clone, Copy, Debug, PartialEq, Eq)]
pub struct Wanted {
    /// The number of the pair.
    pub pair: u32,
    /// The price that the formula is to have.
    pub price: Energy,
}

/// The keys of the wanted prices, in order.
pub(crate) fn keys_of(
    alloc: Global,
    table: &Table,
    wanted: &[Wanted],
) -> Result<Vec<Key>, AllocError>
    requires { All (IsListedIn table.now.rows) wanted.now }
    ensures keys { IfOk result (λ keys. All (IsKey table.now.rows) keys.items) }
    ensures needs { IfOk result (λ keys. (pairs : List Pair) → needs_at pairs table.now.rows keys.items ≡ needs_of pairs wanted.now) }
{
    let mut keys = Vec::with_capacity(alloc, wanted.len())?;
    for one in wanted {
        keys.push(key_of(table, *one))?;
    }
    Ok(keys)
}

// The key of the wanted price.
fn key_of(table: &Table, one: Wanted) -> Key
    requires { IsListedIn table.now.rows one }
    ensures key { IsKey table.now.rows result }
    ensures pair { result.pair ≡ one.pair }
    ensures price { price_at table.now.rows result.pair result.place ≡ price_of one.price.parts }
{
    let prices = table.least(one.pair);
    for place in 0..prices.len() {
        let price = prices.item(place);
        if let Ordering::Equal = price.lex(one.price) {
            return Key::new(price, one.pair, place);
        }
    }
    unreachable!()
}
