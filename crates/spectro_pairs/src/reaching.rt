ghost use Rattle.std.specs.Prelude.{◌≡◌, ◌≢◌, ◌<◌, ◌≤◌, List, [], map, All, IfOk, IfErr};
ghost use Rattle.spectro_spec.specs.Weighing.{IsWeighing, weight_of};
ghost use Rattle.spectro_game.specs.Pairs.{Pair, AreReachedPairs, size};
ghost use Rattle.spectro_lts.specs.Labels.{labels_of};
ghost use Rattle.spectro_pairs.specs.Arenas.{IsLeastWeight};
ghost use Rattle.spectro_pairs.specs.Explored.{IsExploredFrom, start_pairs};
ghost use Rattle.spectro_pairs.specs.Limits.{IsPastLimit};
ghost use Rattle.spectro_pairs.specs.declared.pairs.TheConstants.{MAX_LIMIT};

use crate::exploration::Exploration;
use crate::{Arena, ExploreError};
use spectro_lts::{Lts, MAX_STEPS};
use spectro_rows::turn;
use spectro_weights::Weights;
use std::alloc::{AllocError, Global};

/// The pairs that the starts reach, where the game on them has at most `limit` positions. A start is two states, of which
/// the first is to be told from the second.
pub fn explore(
    alloc: Global,
    lts: &Lts,
    weights: &Weights,
    starts: &[(u32, u32)],
    limit: u32,
) -> Result<Arena, ExploreError>
    requires some { starts.now ≢ [] }
    requires in_range { All (λ start. (start.0 < lts.now.states) × (start.1 < lts.now.states)) starts.now }
    requires bound { limit ≤ MAX_LIMIT }
    ensures explored { IfOk result (λ arena. IsExploredFrom lts.now weights.now starts.now arena) }
    ensures size { IfOk result (λ arena. size arena.pairs ≤ limit) }
    ensures limit { IfErr result (λ e. (pairs : List Pair) → AreReachedPairs lts.now (start_pairs starts.now) pairs → IsPastLimit e limit (size pairs)) }
{
    let weights = label_weights(alloc, lts, weights)?;
    let mut exploration = Exploration::new(alloc, lts, limit);
    exploration.start(starts)?;
    let mut k = 0;
    while k < exploration.pairs.len() {
        exploration.expand(alloc, lts, k)?;
        k += 1;
    }
    // An arena knows that its system has no more steps, since no row of it is longer.
    prove!(lts.step_count() <= MAX_STEPS);
    let preds = turn(alloc, &exploration.followers)?;
    let least = least_of(&weights);
    Ok(Arena {
        pairs: exploration.pairs,
        followers: exploration.followers,
        labels: exploration.labels,
        weights,
        least,
        preds,
    })
}

// The weight of each label.
fn label_weights(alloc: Global, lts: &Lts, weights: &Weights) -> Result<Vec<u8>, AllocError>
    ensures bytes { IfOk result (λ bytes. bytes.items ≡ map (weight_of weights.now) (labels_of lts.now.steps)) }
    ensures proper { IfOk result (λ _. IsWeighing weights.now) }
{
    let mut bytes = Vec::with_capacity(alloc, lts.label_count() as usize)?;
    for no in 0..lts.label_count() {
        bytes.push(weights.of(lts.label(no)))?;
    }
    // That each weight is at most 255 is known from a call of `of`, also where there is no label.
    prove!(weights.of("") <= 255);
    Ok(bytes)
}

// The least of the weights: 255 where there is none.
fn least_of(weights: &[u8]) -> u8
    ensures { IsLeastWeight weights.now result }
{
    let mut least = u8::MAX;
    for weight in weights {
        least = least.min(*weight);
    }
    least
}
