ghost use Rattle.std.specs.Prelude.{◌≡◌, ◌↔◌, ◌+◌, ◌<◌, ◌^◌, IsTrue, slice_index, option_map};
ghost use Rattle.spectro_spec.specs.Price.{IsAtMost};
ghost use Rattle.spectro_game.specs.Sup.{sup};
ghost use Rattle.spectro_game.specs.Update.{apply, inverse};
ghost use Rattle.spectro_energy.specs.Energy.{price_of, IsLexicographic};
ghost use Rattle.spectro_energy.specs.Updates.{update_of, CanRaise};

use crate::update::Update;
use std::cmp::Ordering;

// the places of the parts
const OBSERVATIONS: usize = 0;

const CONJUNCTIONS: usize = 1;

const DEEPEST_POSITIVE: usize = 2;

const OTHER_POSITIVE: usize = 3;

const DEEPEST_NEGATIVE: usize = 4;

const NEGATIONS: usize = 5;

const WEIGHTED_DEPTH: usize = 6;

/// A price as the machine keeps it. The parts are, in order: depth of observations, nesting of conjunctions,
/// greatest depth of the deepest positive clause, of the other positive clauses and of negative clauses,
/// nesting of negations, weighted depth of observations.
#[derive(Clone, Copy, Debug, PartialEq, Eq, Hash)]
pub struct Energy {
    pub parts: [u32; 7],
}

impl Energy {
    /// Whether each part is at most the other's.
    pub fn leq(self, other: Energy) -> bool
        ensures { IsTrue result ↔ IsAtMost (price_of self.parts) (price_of other.parts) }
    {
        self.parts
            .iter()
            .zip(other.parts.iter())
            .all(|(part, bound)| part <= bound)
    }

    /// The greater of each part.
    pub fn sup(self, other: Energy) -> Energy
        ensures { price_of result.parts ≡ sup (price_of self.parts) (price_of other.parts) }
    {
        let a = self.parts;
        let b = other.parts;
        Energy {
            parts: [
                a[OBSERVATIONS].max(b[OBSERVATIONS]),
                a[CONJUNCTIONS].max(b[CONJUNCTIONS]),
                a[DEEPEST_POSITIVE].max(b[DEEPEST_POSITIVE]),
                a[OTHER_POSITIVE].max(b[OTHER_POSITIVE]),
                a[DEEPEST_NEGATIVE].max(b[DEEPEST_NEGATIVE]),
                a[NEGATIONS].max(b[NEGATIONS]),
                a[WEIGHTED_DEPTH].max(b[WEIGHTED_DEPTH]),
            ],
        }
    }

    /// The lexicographic order, part 1 first.
    pub fn lex(self, other: Energy) -> Ordering
        ensures { IsLexicographic result (price_of self.parts) (price_of other.parts) }
    {
        self.parts.cmp(&other.parts)
    }

    /// What the update leaves. `None` exactly where it cannot be paid.
    pub fn apply(self, update: Update) -> Option<Energy>
        ensures { option_map (λ energy. price_of energy.parts) result ≡ apply (update_of update) (price_of self.parts) }
    {
        let mut parts = self.parts;
        match update {
            Update::Observe { weight } => {
                parts[OBSERVATIONS] = parts[OBSERVATIONS].checked_sub(1)?;
                parts[WEIGHTED_DEPTH] = parts[WEIGHTED_DEPTH].checked_sub(u32::from(weight))?;
            }
            Update::Conjoin => parts[CONJUNCTIONS] = parts[CONJUNCTIONS].checked_sub(1)?,
            Update::Deepest => parts[OBSERVATIONS] = parts[OBSERVATIONS].min(
                parts[DEEPEST_POSITIVE],
            ),
            Update::Other => parts[OTHER_POSITIVE] = parts[OTHER_POSITIVE].min(
                parts[DEEPEST_POSITIVE],
            ),
            Update::Positive => parts[OBSERVATIONS] = parts[OBSERVATIONS].min(
                parts[OTHER_POSITIVE],
            ),
            Update::Negative => {
                parts[NEGATIONS] = parts[NEGATIONS].checked_sub(1)?;
                parts[OBSERVATIONS] = parts[OBSERVATIONS].min(parts[DEEPEST_NEGATIVE]);
            }
        }
        Some(Energy { parts })
    }

    /// The least energy from which the update leaves this one.
    pub fn inverse(self, update: Update) -> Energy
        requires { CanRaise update (price_of self.parts) }
        ensures { price_of result.parts ≡ inverse (update_of update) (price_of self.parts) }
    {
        let mut parts = self.parts;
        match update {
            Update::Observe { weight } => {
                parts[OBSERVATIONS] += 1;
                parts[WEIGHTED_DEPTH] += u32::from(weight);
            }
            Update::Conjoin => parts[CONJUNCTIONS] += 1,
            Update::Deepest => parts[DEEPEST_POSITIVE] = parts[DEEPEST_POSITIVE].max(
                parts[OBSERVATIONS],
            ),
            Update::Other => parts[DEEPEST_POSITIVE] = parts[DEEPEST_POSITIVE].max(
                parts[OTHER_POSITIVE],
            ),
            Update::Positive => parts[OTHER_POSITIVE] = parts[OTHER_POSITIVE].max(
                parts[OBSERVATIONS],
            ),
            Update::Negative => {
                parts[DEEPEST_NEGATIVE] = parts[DEEPEST_NEGATIVE].max(parts[OBSERVATIONS]);
                parts[NEGATIONS] += 1;
            }
        }
        Energy { parts }
    }
}
