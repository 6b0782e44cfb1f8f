ghost use Rattle.std.specs.Prelude.{◌≡◌, ◌<◌, length, OnOk};
ghost use Rattle.spectro_game.specs.Rows.{listed_at};
ghost use Rattle.spectro_solve.specs.Added.{IsAdded};
ghost use Rattle.spectro_solve.specs.Evaluations.{AtPair};
ghost use Rattle.spectro_solve.specs.Observations.{AffordsObservation};
ghost use Rattle.spectro_solve.specs.Tables.{HaveRoom};

use crate::pulls::add_pulled;
use spectro_energy::Update;
use spectro_lanes::Antichain;
use spectro_pairs::Arena;
use std::alloc::AllocError;

/// Adds what the observations of pair `k` make of the lists.
pub(crate) fn add_observations(
    arena: &Arena,
    lists: &[Antichain],
    k: u32,
    made: &mut Antichain,
) -> Result<(), AllocError>
    requires pair { k < length arena.now.pairs }
    requires lists { length lists.now ≡ length arena.now.pairs }
    requires room { HaveRoom lists.now }
    ensures { OnOk result (AtPair arena.now k (λ system weighing x.
        IsAdded (AffordsObservation weighing system (listed_at arena.now.pairs lists.now) x) made.old made.new)) }
{
    for i in 0..arena.observation_count(k) {
        let observation = arena.observation(k, i);
        let update = Update::Observe {
            weight: observation.weight,
        };
        add_pulled(made, &lists[observation.pair as usize], update)?;
    }
    Ok(())
}
