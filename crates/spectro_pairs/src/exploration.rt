// Pairs are found breadth first (Moore, 1959): their list is the queue as well, since a pair goes last when it is first
// reached, and is expanded when its turn comes. So their numbers are the order in which they are found, as is claimed of
// them, and no other queue is kept. Sets go by number too, as in the subset construction (Rabin and Scott, 1959): each is
// kept once, and a pair is two numbers. A search in depth would need a stack as deep as the arena, and a set that is kept
// with each of its pairs would be kept many times over.
ghost use Rattle.std.specs.Prelude.{◌≡◌, ◌<◌, ◌≤◌, ◌^◌, [], ◌∷◌, length, map, All, IfOk, IfErr, OnOk};
ghost use Rattle.spectro_spec.specs.System.{post};
ghost use Rattle.spectro_game.specs.Pairs.{observed, subsets, swaps};
ghost use Rattle.spectro_game.specs.Reached.{StandsAt};
ghost use Rattle.spectro_lts.specs.Labels.{labels_of, label_of};
ghost use Rattle.spectro_pairs.specs.Explored.{IsSetWithin, start_pair};
ghost use Rattle.spectro_pairs.specs.Interned.{pair_at};
ghost use Rattle.spectro_pairs.specs.Growth.{pair_of, ArePosts, KeepsPosts, HasReached, HasStarted, HasObserved, HasExpanded, IsPastWith, IsPastFollowers};
ghost use Rattle.spectro_pairs.specs.Lattices.{AreLattices, HasPlace, IsFilled};
ghost use Rattle.spectro_pairs.specs.Subsets.{subset_at};
ghost use Rattle.spectro_pairs.specs.declared.pairs.TheConstants.{MAX_LIMIT};

use crate::ExploreError;
use crate::known::Known;
use crate::lattices::{Lattices, Place, push_submasks};
use crate::pairs::Pairs;
use crate::subsets::take_subset;
use smallvec::SmallVec;
use spectro_lts::Lts;
use spectro_rows::Rows;
use std::alloc::{AllocError, Global};

// From so many members on the subsets of a set are kept: of fewer a look-up of each costs less than a table.
const WIDE: usize = 5;

/// The pairs that are reached so far, and for the first of them the numbers of the pairs that follow and of the labels of
/// their observations.
///
/// Most sets have one member, and what follows it under a label is asked for each pair of the set. So `posts` keeps the
/// numbers of the sets of successors by state and label.
#[derive(Drop)]
pub(crate) struct Exploration {
    pub(crate) pairs: Pairs,
    pub(crate) followers: Rows<u32>,
    pub(crate) labels: Rows<u32>,
    posts: Known,
    lattices: Lattices,
}

impl Exploration {
    /// No pairs of the system. It takes no memory.
    pub(crate) fn new(alloc: Global, lts: &Lts, limit: u32) -> Exploration
        requires { limit ≤ MAX_LIMIT }
        ensures pairs { result.pairs ≡ record { states = lts.now.states; limit = limit; sets = []; pairs = [] } }
        ensures followers { result.followers ≡ record { rows = []; last = [] } }
        ensures labels { result.labels ≡ record { rows = []; last = [] } }
        ensures posts { ArePosts lts.now result }
        ensures lattices { AreLattices result.pairs.pairs result.lattices }
    {
        Exploration {
            pairs: Pairs::new(alloc, lts.states(), limit),
            followers: Rows::new(alloc),
            labels: Rows::new(alloc),
            posts: Known::new(alloc, lts.label_count(), limit as usize),
            lattices: Lattices::new(alloc),
        }
    }

    /// Reaches the starts.
    pub(crate) fn start(&mut self, starts: &[(u32, u32)]) -> Result<(), ExploreError>
        requires in_range { All (λ start. (start.0 < self.old.pairs.states) × (start.1 < self.old.pairs.states)) starts.now }
        ensures ok { OnOk result (HasStarted self.old self.new (map start_pair starts.now)) }
        ensures posts { OnOk result (KeepsPosts self.old self.new) }
        ensures limit { IfErr result (λ e. IsPastWith e self.old (map start_pair starts.now)) }
    {
        for (p, q) in starts {
            let set = self.pairs.number_set(&[*q])?;
            self.pairs.reach(*p, set)?;
        }
        Ok(())
    }

    /// Reaches the followers of pair `k`, and puts down their numbers and the labels of its observations.
    pub(crate) fn expand(&mut self, alloc: Global, lts: &Lts, k: u32) -> Result<(), ExploreError>
        requires states { self.old.pairs.states ≡ lts.now.states }
        requires within { k < length self.old.pairs.pairs }
        requires closed { (self.old.followers.last ≡ []) × (self.old.labels.last ≡ []) }
        requires posts { ArePosts lts.now self.old }
        requires lattices { AreLattices self.old.pairs.pairs self.old.lattices }
        ensures ok { OnOk result (HasExpanded lts.now self.old self.new k) }
        ensures posts { OnOk result (ArePosts lts.now self.new) }
        ensures limit { IfErr result (λ e. IsPastFollowers e lts.now self.old k) }
    {
        let state = self.pairs.state(k);
        match self.pairs.set(k) {
            [] => self.add_followers(alloc, lts, k, state, &[]),
            [q] => {
                let q = *q;
                self.add_followers(alloc, lts, k, state, &[q])
            }
            set => {
                let set: SmallVec<u32, 16> = SmallVec::from_slice(alloc, set)?;
                self.add_followers(alloc, lts, k, state, set.as_slice())
            }
        }
    }

    // Reaches the followers of pair `k`, which is that of the state and the set.
    fn add_followers(
        &mut self,
        alloc: Global,
        lts: &Lts,
        k: u32,
        state: u32,
        set: &[u32],
    ) -> Result<(), ExploreError>
        requires states { self.old.pairs.states ≡ lts.now.states }
        requires here { StandsAt self.old.pairs.pairs k (pair_of state set.now) }
        requires state { state < lts.now.states }
        requires set { IsSetWithin lts.now.states set.now }
        requires few { length set.now ≤ 19 }
        requires closed { (self.old.followers.last ≡ []) × (self.old.labels.last ≡ []) }
        requires posts { ArePosts lts.now self.old }
        requires lattices { AreLattices self.old.pairs.pairs self.old.lattices }
        ensures ok { OnOk result (HasExpanded lts.now self.old self.new k) }
        ensures posts { OnOk result (ArePosts lts.now self.new) }
        ensures limit { IfErr result (λ e. IsPastFollowers e lts.now self.old k) }
    {
        self.add_observations(lts, state, set)?;
        self.add_subsets(alloc, k, state, set)?;
        self.add_swaps(state, set)?;
        self.followers.close()?;
        self.labels.close()?;
        Ok(())
    }

    // Reaches what is observed from the state and the set, label by label.
    fn add_observations(&mut self, lts: &Lts, state: u32, set: &[u32]) -> Result<(), ExploreError>
        requires states { self.old.pairs.states ≡ lts.now.states }
        requires state { state < lts.now.states }
        requires set { IsSetWithin lts.now.states set.now }
        requires posts { ArePosts lts.now self.old }
        ensures ok { OnOk result (HasObserved lts.now self.old self.new (pair_of state set.now)) }
        ensures posts { OnOk result (ArePosts lts.now self.new) }
        ensures limit { IfErr result (λ e. IsPastWith e self.old (observed lts.now (pair_of state set.now))) }
    {
        for (i, no) in lts.labels_of(state).iter().enumerate() {
            let after = self.number_post(lts, set, *no)?;
            self.add_observed(lts.successors_at(state, i), after, *no)?;
        }
        Ok(())
    }

    // The number of the set of successors of the set under the label.
    fn number_post(&mut self, lts: &Lts, set: &[u32], no: u32) -> Result<u32, AllocError>
        requires states { self.old.pairs.states ≡ lts.now.states }
        requires set { IsSetWithin lts.now.states set.now }
        requires label { no < length (labels_of lts.now.steps) }
        requires posts { ArePosts lts.now self.old }
        ensures ok { OnOk result (HasReached self.old self.new [] []) }
        ensures posts { OnOk result (ArePosts lts.now self.new) }
        ensures number { IfOk result (λ n. StandsAt self.new.pairs.sets n (post lts.now set.now (label_of lts.now.steps no))) }
    {
        match set {
            [q] => self.number_successors(lts, *q, no),
            _ => {
                let after = lts.post(set, no)?;
                self.pairs.number_set(after.as_slice())
            }
        }
    }

    // The number of the set of successors of the state under the label.
    fn number_successors(&mut self, lts: &Lts, q: u32, no: u32) -> Result<u32, AllocError>
        requires states { self.old.pairs.states ≡ lts.now.states }
        requires state { q < lts.now.states }
        requires label { no < length (labels_of lts.now.steps) }
        requires posts { ArePosts lts.now self.old }
        ensures ok { OnOk result (HasReached self.old self.new [] []) }
        ensures posts { OnOk result (ArePosts lts.now self.new) }
        ensures number { IfOk result (λ n. StandsAt self.new.pairs.sets n (post lts.now (q ∷ []) (label_of lts.now.steps no))) }
    {
        if let Some(n) = self.posts.get(q, no) {
            return Ok(n);
        }
        let n = self.pairs.number_set(lts.successors(q, no))?;
        self.posts.put(q, no, n);
        Ok(n)
    }

    // Reaches each target against the set of the number, and puts the label down for each.
    fn add_observed(&mut self, targets: &[u32], set: u32, no: u32) -> Result<(), ExploreError>
        requires targets { All (λ t. t < self.old.pairs.states) targets.now }
        requires set { set < length self.old.pairs.sets }
        ensures ok { OnOk result (HasReached self.old self.new (map (λ t. pair_at self.old.pairs.sets t set) targets.now) (map (λ t. no) targets.now)) }
        ensures posts { OnOk result (KeepsPosts self.old self.new) }
        ensures limit { IfErr result (λ e. IsPastWith e self.old (map (λ t. pair_at self.old.pairs.sets t set) targets.now)) }
    {
        for t in targets {
            self.add(*t, set)?;
            self.labels.push(no)?;
        }
        Ok(())
    }

    // Reaches the state, that of pair `k`, against each subset of its set that is not empty.
    fn add_subsets(
        &mut self,
        alloc: Global,
        k: u32,
        state: u32,
        set: &[u32],
    ) -> Result<(), ExploreError>
        requires here { StandsAt self.old.pairs.pairs k (pair_of state set.now) }
        requires state { state < self.old.pairs.states }
        requires set { IsSetWithin self.old.pairs.states set.now }
        requires few { length set.now ≤ 19 }
        requires lattices { AreLattices self.old.pairs.pairs self.old.lattices }
        ensures ok { OnOk result (HasReached self.old self.new (subsets (pair_of state set.now)) []) }
        ensures posts { OnOk result (KeepsPosts self.old self.new) }
        ensures limit { IfErr result (λ e. IsPastWith e self.old (subsets (pair_of state set.now))) }
    {
        if let Some(place) = self.lattices.place(k) {
            self.add_kept_subsets(place, k, state, set)?;
            return Ok(());
        }
        if set.len() < WIDE {
            return self.add_each_subset(alloc, state, set);
        }
        self.add_wide_subsets(alloc, state, set)
    }

    // Puts down the numbers of the pairs of the state and the subsets as they are kept.
    fn add_kept_subsets(
        &mut self,
        place: Place,
        k: u32,
        state: u32,
        set: &[u32],
    ) -> Result<(), AllocError>
        requires here { StandsAt self.old.pairs.pairs k (pair_of state set.now) }
        requires few { length set.now ≤ 19 }
        requires lattices { AreLattices self.old.pairs.pairs self.old.lattices }
        requires place { HasPlace self.old.lattices k place }
        ensures ok { OnOk result (HasReached self.old self.new (subsets (pair_of state set.now)) []) }
        ensures posts { OnOk result (KeepsPosts self.old self.new) }
    {
        let table = self.lattices.table(place);
        let count = (1 << set.len()) - 1;
        push_submasks(&mut self.followers, table, place.mask, count)
    }

    // Reaches the state against each subset, and keeps their numbers.
    fn add_wide_subsets(
        &mut self,
        alloc: Global,
        state: u32,
        set: &[u32],
    ) -> Result<(), ExploreError>
        requires state { state < self.old.pairs.states }
        requires set { IsSetWithin self.old.pairs.states set.now }
        requires few { length set.now ≤ 19 }
        ensures ok { OnOk result (HasReached self.old self.new (subsets (pair_of state set.now)) []) }
        ensures posts { OnOk result (KeepsPosts self.old self.new) }
        ensures limit { IfErr result (λ e. IsPastWith e self.old (subsets (pair_of state set.now))) }
    {
        let mut table = Vec::with_capacity(alloc, 1 << set.len())?;
        table.push(0)?;
        self.fill_table(alloc, state, set, &mut table)?;
        self.lattices.keep(table, self.pairs.len())?;
        Ok(())
    }

    // Reaches the state against each subset, and puts their numbers behind the one for no member.
    fn fill_table(
        &mut self,
        alloc: Global,
        state: u32,
        set: &[u32],
        table: &mut Vec<u32>,
    ) -> Result<(), ExploreError>
        requires state { state < self.old.pairs.states }
        requires set { IsSetWithin self.old.pairs.states set.now }
        requires few { length set.now ≤ 19 }
        requires first { length table.old.items ≡ 1 }
        ensures ok { OnOk result (HasReached self.old self.new (subsets (pair_of state set.now)) []) }
        ensures posts { OnOk result (KeepsPosts self.old self.new) }
        ensures filled { OnOk result (IsFilled self.new.pairs.pairs table.new.items state set.now (2 ^ length set.now)) }
        ensures limit { IfErr result (λ e. IsPastWith e self.old (subsets (pair_of state set.now))) }
    {
        let mut subset = SmallVec::new(alloc);
        for mask in 1..1 << set.len() {
            let k = self.add_subset(state, set, mask, &mut subset)?;
            table.push(k)?;
        }
        Ok(())
    }

    // Reaches the state against each subset.
    fn add_each_subset(
        &mut self,
        alloc: Global,
        state: u32,
        set: &[u32],
    ) -> Result<(), ExploreError>
        requires state { state < self.old.pairs.states }
        requires set { IsSetWithin self.old.pairs.states set.now }
        requires few { length set.now ≤ 19 }
        ensures ok { OnOk result (HasReached self.old self.new (subsets (pair_of state set.now)) []) }
        ensures posts { OnOk result (KeepsPosts self.old self.new) }
        ensures limit { IfErr result (λ e. IsPastWith e self.old (subsets (pair_of state set.now))) }
    {
        let mut subset = SmallVec::new(alloc);
        for mask in 1..1 << set.len() {
            self.add_subset(state, set, mask, &mut subset)?;
        }
        Ok(())
    }

    // Reaches the state against the subset of the mask, which is taken into `subset`, and answers the number of the pair.
    fn add_subset(
        &mut self,
        state: u32,
        set: &[u32],
        mask: u32,
        subset: &mut SmallVec<u32, 16>,
    ) -> Result<u32, ExploreError>
        requires state { state < self.old.pairs.states }
        requires set { IsSetWithin self.old.pairs.states set.now }
        requires few { length set.now ≤ 19 }
        requires mask { mask < 2 ^ length set.now }
        ensures ok { OnOk result (HasReached self.old self.new (pair_of state (subset_at set.now mask) ∷ []) []) }
        ensures posts { OnOk result (KeepsPosts self.old self.new) }
        ensures number { IfOk result (λ k. StandsAt self.new.pairs.pairs k (pair_of state (subset_at set.now mask))) }
        ensures limit { IfErr result (λ e. IsPastWith e self.old (pair_of state (subset_at set.now mask) ∷ [])) }
    {
        take_subset(set, mask, subset)?;
        self.add_pair(state, subset.as_slice())
    }

    // Reaches each other member of the set against the state.
    fn add_swaps(&mut self, state: u32, set: &[u32]) -> Result<(), ExploreError>
        requires state { state < self.old.pairs.states }
        requires set { IsSetWithin self.old.pairs.states set.now }
        ensures ok { OnOk result (HasReached self.old self.new (swaps (pair_of state set.now)) []) }
        ensures posts { OnOk result (KeepsPosts self.old self.new) }
        ensures limit { IfErr result (λ e. IsPastWith e self.old (swaps (pair_of state set.now))) }
    {
        for q in set {
            if *q != state {
                self.add_pair(*q, &[state])?;
            }
        }
        Ok(())
    }

    // Reaches the pair of the state and the set, puts its number into the open row, and answers it.
    fn add_pair(&mut self, state: u32, set: &[u32]) -> Result<u32, ExploreError>
        requires state { state < self.old.pairs.states }
        requires set { IsSetWithin self.old.pairs.states set.now }
        ensures ok { OnOk result (HasReached self.old self.new (pair_of state set.now ∷ []) []) }
        ensures posts { OnOk result (KeepsPosts self.old self.new) }
        ensures number { IfOk result (λ k. StandsAt self.new.pairs.pairs k (pair_of state set.now)) }
        ensures limit { IfErr result (λ e. IsPastWith e self.old (pair_of state set.now ∷ [])) }
    {
        let set_no = self.pairs.number_set(set)?;
        self.add(state, set_no)
    }

    // Reaches the pair of the state and the set of the number, puts its number into the open row, and answers it.
    fn add(&mut self, state: u32, set: u32) -> Result<u32, ExploreError>
        requires state { state < self.old.pairs.states }
        requires set { set < length self.old.pairs.sets }
        ensures ok { OnOk result (HasReached self.old self.new (pair_at self.old.pairs.sets state set ∷ []) []) }
        ensures posts { OnOk result (KeepsPosts self.old self.new) }
        ensures sets { OnOk result (self.new.pairs.sets ≡ self.old.pairs.sets) }
        ensures number { IfOk result (λ k. StandsAt self.new.pairs.pairs k (pair_at self.old.pairs.sets state set)) }
        ensures limit { IfErr result (λ e. IsPastWith e self.old (pair_at self.old.pairs.sets state set ∷ [])) }
    {
        let k = self.pairs.reach(state, set)?;
        self.followers.push(k)?;
        Ok(k)
    }
}
