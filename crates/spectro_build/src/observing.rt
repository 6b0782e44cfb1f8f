ghost use Rattle.std.specs.Prelude.{◌≡◌, ◌<◌, length, option_map, IfSome};
ghost use Rattle.spectro_energy.specs.Energy.{price_of};
ghost use Rattle.spectro_game.specs.Rows.{listed_at};
ghost use Rattle.spectro_lts.specs.Labels.{labels_of};
ghost use Rattle.spectro_pairs.specs.Arenas.{FromEach};
ghost use Rattle.spectro_solve.specs.Evaluations.{AtPair};
ghost use Rattle.spectro_solve.specs.Tables.{HaveRoom};
ghost use Rattle.spectro_build.specs.Chosen.{first_observation_at, observation_at};
ghost use Rattle.spectro_build.specs.Keys.{IsKey};

use crate::fitting::first_fitting;
use crate::key::Key;
use crate::role::Role;
use spectro_energy::Energy;
use spectro_pairs::Arena;
use spectro_solve::Table;

/// An observation: the number of its label, and what is needed after the step.
#[derive(Clone, Copy)]
pub(crate) struct Observed {
    pub(crate) label: u32,
    pub(crate) next: Key,
}

/// The first observation of pair `k` that fits `e`.
pub(crate) fn first_observation(arena: &Arena, table: &Table, k: u32, e: Energy) -> Option<Observed>
    requires pair { k < length arena.now.pairs }
    requires rows { length table.now.rows ≡ length arena.now.pairs }
    requires room { HaveRoom table.now.rows }
    ensures first { AtPair arena.now k (λ system weighing x.
        first_observation_at weighing system (listed_at arena.now.pairs table.now.rows) x (price_of e.parts)
        ≡ option_map (observation_at system arena.now.pairs table.now.rows) result) }
    ensures label { FromEach arena.now (λ system weighing. IfSome result (λ seen. seen.label < length (labels_of system.steps))) }
    ensures key { IfSome result (λ seen. IsKey table.now.rows seen.next) }
{
    for i in 0..arena.observation_count(k) {
        let seen = arena.observation(k, i);
        let role = Role::AfterStep {
            weight: seen.weight,
        };
        if let Some(next) = first_fitting(table, seen.pair, role, e) {
            return Some(Observed {
                label: seen.label,
                next,
            });
        }
    }
    None
}
