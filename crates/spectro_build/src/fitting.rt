ghost use Rattle.std.specs.Prelude.{◌≡◌, ◌<◌, length, option_map, IfSome};
ghost use Rattle.std.specs.List.{position};
ghost use Rattle.spectro_energy.specs.Energy.{price_of};
ghost use Rattle.spectro_game.specs.MinimalElements.{is_at_most};
ghost use Rattle.spectro_rows.specs.Rows.{row_at};
ghost use Rattle.spectro_solve.specs.Tables.{HaveRoom};
ghost use Rattle.spectro_build.specs.Keys.{IsKey, key_at};
ghost use Rattle.spectro_build.specs.Roles.{cost_in};

use crate::key::Key;
use crate::role::Role;
use spectro_energy::Energy;
use spectro_solve::Table;

/// The first price listed for the pair that costs at most `e` in the role.
pub(crate) fn first_fitting(table: &Table, pair: u32, role: Role, e: Energy) -> Option<Key>
    requires pair { pair < length table.now.rows }
    requires room { HaveRoom table.now.rows }
    ensures value { result ≡ option_map (key_at table.now.rows pair)
        (position (λ f. is_at_most (cost_in role f) (price_of e.parts)) (row_at table.now.rows pair)) }
    ensures key { IfSome result (λ key. IsKey table.now.rows key) }
{
    let prices = table.least(pair);
    for place in 0..prices.len() {
        let f = prices.item(place);
        if role.cost(f).leq(e) {
            return Some(Key::new(f, pair, place));
        }
    }
    None
}
