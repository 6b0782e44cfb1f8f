ghost use Rattle.std.specs.Prelude.{◌/◌, ◌≡◌, ◌<◌, ◌≤◌, ◌^◌, ◌==◌, not, length, filter, take, position, All};
ghost use Rattle.std.specs.List.Sorted.{IsStrictlyIncreasing};
ghost use Rattle.spectro_game.specs.Pairs.{size, observed};
ghost use Rattle.spectro_theory.specs.Reaching.{is_same_pair};
ghost use Rattle.spectro_rows.specs.Rows.{row_at};
ghost use Rattle.spectro_pairs.specs.Interned.{IsPairAt};
ghost use Rattle.spectro_pairs.specs.Arenas.{set_at, FromEach, IsLeastWeight, IsObservation, IsSubset, IsSwap, ArePredecessors};
ghost use Rattle.spectro_pairs.specs.declared.pairs.TheConstants.{MAX_LIMIT};

use crate::pairs::Pairs;
use spectro_rows::Rows;
use std::marker::Model;

/// An observation of a pair: after a step under the label the game is at another pair.
#[derive(Clone, Copy, Debug, PartialEq, Eq)]
pub struct Observation {
    /// The number of the label in the system.
    pub label: u32,
    /// The number of the pair after the step.
    pub pair: u32,
    /// What it costs to observe the label.
    pub weight: u8,
}

/// Reached pairs in the order in which they are found, with their followers and predecessors.
#[derive(Drop)]
pub struct Arena {
    pub(crate) pairs: Pairs,
    pub(crate) followers: Rows<u32>,
    pub(crate) labels: Rows<u32>,
    pub(crate) weights: Vec<u8>,
    pub(crate) least: u8,
    pub(crate) preds: Rows<u32>,
}

impl Model for Arena {
    ghost use Rattle.spectro_pairs.specs.Explored.{Explored};
    ghost use Rattle.spectro_pairs.specs.Arenas.{IsArena};

    ghost Value = { Explored };

    ghost view = { λ a. record { pairs = a.pairs.pairs; followers = a.followers.rows; labels = a.labels.rows; weights = a.weights.items } };

    ghost invariant = { λ a. IsArena (record { pairs = a.pairs.pairs; followers = a.followers.rows; labels = a.labels.rows; weights = a.weights.items })
        a.least a.preds.rows };
}

impl Arena {
    /// How many pairs there are. They are numbered from 0.
    pub fn pair_count(&self) -> u32
        ensures value { result ≡ length self.now.pairs }
        ensures some { 1 ≤ result }
        ensures bound { result ≤ MAX_LIMIT / 2 }
    {
        self.pairs.len()
    }

    /// How many positions the game on the pairs has.
    pub fn size(&self) -> u32
        ensures value { result ≡ size self.now.pairs }
        ensures bound { result ≤ MAX_LIMIT }
    {
        self.pairs.size()
    }

    /// The least weight of a label of the system: 255 where it has none.
    pub fn least_weight(&self) -> u8
        ensures least { IsLeastWeight self.now.weights result }
    {
        self.least
    }

    /// The state of pair `k`.
    pub fn state(&self, k: u32) -> u32
        requires { k < length self.now.pairs }
        ensures value { IsPairAt self.now.pairs k (λ pair. pair.state ≡ result) }
        ensures in_range { FromEach self.now (λ system weighing. result < system.states) }
    {
        self.pairs.state(k)
    }

    /// The set of pair `k`, rising.
    pub fn set(&self, k: u32) -> &[u32]
        requires { k < length self.now.pairs }
        ensures value { IsPairAt self.now.pairs k (λ pair. pair.set ≡ result.now) }
        ensures rises { IsStrictlyIncreasing result.now }
        ensures in_range { FromEach self.now (λ system weighing. All (λ q. q < system.states) result.now) }
        ensures few { length result.now ≤ 19 }
    {
        self.pairs.set(k)
    }

    /// The number of the pair of the state and the set. `None` exactly where it is not reached.
    pub fn find(&self, state: u32, set: &[u32]) -> Option<u32>
        ensures { result ≡ position (is_same_pair (record { state = state; set = set.now })) self.now.pairs }
    {
        self.pairs.find(state, set)
    }

    /// How many pairs are observed from pair `k`.
    pub fn observation_count(&self, k: u32) -> u32
        requires { k < length self.now.pairs }
        ensures value { result ≡ length (row_at self.now.labels k) }
        ensures count { FromEach self.now (λ system weighing. IsPairAt self.now.pairs k (λ pair. result ≡ length (observed system pair))) }
    {
        self.labels.row(k as usize).len() as u32
    }

    /// The observation of pair `k` at place `i`, in the order of label and then of target.
    pub fn observation(&self, k: u32, i: u32) -> Observation
        requires pair { k < length self.now.pairs }
        requires place { i < length (row_at self.now.labels k) }
        ensures observation { FromEach self.now (λ system weighing. IsObservation system weighing self.now.pairs k i result.label result.pair result.weight) }
        ensures pair { result.pair < length self.now.pairs }
    {
        let label = self.labels.row(k as usize)[i as usize];
        Observation {
            label,
            pair: self.followers.row(k as usize)[i as usize],
            weight: self.weights[label as usize],
        }
    }

    /// The pair of the state of pair `k` and the members of its set whose bits are set in the mask. Bit 0 is for the least
    /// member.
    pub fn subset(&self, k: u32, mask: u32) -> u32
        requires pair { k < length self.now.pairs }
        requires some { 1 ≤ mask }
        requires mask { mask < 2 ^ length (set_at self.now.pairs k) }
        ensures subset { IsSubset self.now.pairs k mask result }
        ensures pair { result < length self.now.pairs }
    {
        let from = self.observation_count(k) as usize;
        self.followers.row(k as usize)[from + mask as usize - 1]
    }

    /// The pair of the member of the set of pair `k` at place `i` and of the state of pair `k` alone. `None` exactly where
    /// the member is that state.
    pub fn swap(&self, k: u32, i: u32) -> Option<u32>
        requires pair { k < length self.now.pairs }
        requires place { i < length (set_at self.now.pairs k) }
        ensures { IsSwap self.now.pairs k i result }
    {
        let state = self.state(k);
        let set = self.set(k);
        if set[i as usize] == state {
            return None;
        }
        let from = self.observation_count(k) as usize + (1 << set.len()) - 1;
        let others = others_before(set, i as usize, state);
        Some(self.followers.row(k as usize)[from + others])
    }

    /// The pairs that have pair `k` as a follower, rising, each once.
    pub fn preds(&self, k: u32) -> &[u32]
        requires { k < length self.now.pairs }
        ensures value { FromEach self.now (λ system weighing. ArePredecessors system self.now.pairs k result.now) }
        ensures rises { IsStrictlyIncreasing result.now }
    {
        self.preds.row(k as usize)
    }
}

// How many members before place `i` are not the state.
fn others_before(set: &[u32], i: usize, state: u32) -> usize
    requires { i ≤ length set.now }
    ensures { result ≡ length (filter (λ q. not (q == state)) (take i set.now)) }
{
    set[..i].iter().filter(|q| **q != state).count()
}
