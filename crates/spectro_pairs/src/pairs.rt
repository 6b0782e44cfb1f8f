ghost use Rattle.std.specs.Prelude.{◌≡◌, ◌<◌, ◌≤◌, ◌+◌, ◌*◌, ◌^◌, ◌==◌, [], ◌∷◌, if◌then◌else◌, length, position, slice_get, All, Some, IfOk, IfErr, OnOk, OnErr};
ghost use Rattle.std.specs.Str.{bytes_eq};
ghost use Rattle.spectro_game.specs.Pairs.{size};
ghost use Rattle.spectro_game.specs.Reached.{StandsAt};
ghost use Rattle.spectro_theory.specs.Reaching.{with_last, is_same_pair};
ghost use Rattle.spectro_pairs.specs.Explored.{IsSetWithin, IsPairWithin};
ghost use Rattle.spectro_pairs.specs.Interned.{Interned, pair_at, IsPairAt};
ghost use Rattle.spectro_pairs.specs.Limits.{IsPastLimit};

use crate::ExploreError;
use crate::known::Known;
use indexmap::IndexSet;
use std::alloc::{AllocError, Global};
use std::marker::Model;

// A pair as it is kept: its state, and the number of its set.
#[derive(Clone, Copy, PartialEq, Eq, Hash)]
struct Key {
    state: u32,
    set: u32,
}

/// The greatest limit of positions.
pub const MAX_LIMIT: u32 = 1_000_000;

// How many sets there may be. Each takes 24 bytes and more.
const MAX_SETS: usize = 4_294_967_295;

/// Sets of states and pairs of a state and a set, each numbered in the order in which they were found. The game on the
/// pairs has at most `limit` positions.
///
/// Most look-ups are of pairs that are there, and each costs two reads in tables that fit no cache. So `known` keeps their
/// numbers by set and state. And most sets have one member, so `singletons` keeps the numbers of these by their state.
#[derive(Drop)]
pub(crate) struct Pairs {
    states: u32,
    limit: u32,
    size: u32,
    sets: IndexSet<Vec<u32>>,
    keys: IndexSet<Key>,
    known: Known,
    singletons: Known,
}

impl Model for Pairs {
    ghost use Rattle.spectro_pairs.specs.Interned.{Interned, AreInterned, interned};

    ghost Value = { Interned };

    ghost view = { λ p. interned p.states p.limit p.sets.keys p.keys.keys };

    ghost invariant = { λ p. AreInterned p.states p.limit p.size p.known p.singletons p.sets.keys p.keys.keys };
}

impl Pairs {
    /// No pairs, of a system with so many states. It takes no memory.
    pub(crate) fn new(alloc: Global, states: u32, limit: u32) -> Pairs
        requires { limit ≤ MAX_LIMIT }
        ensures { result ≡ record { states = states; limit = limit; sets = []; pairs = [] } }
    {
        Pairs {
            states,
            limit,
            size: 0,
            sets: IndexSet::new(alloc),
            keys: IndexSet::new(alloc),
            known: Known::new(alloc, states, limit as usize),
            singletons: Known::new(alloc, 1, states as usize),
        }
    }

    /// How many pairs there are.
    pub(crate) fn len(&self) -> u32
        ensures value { result ≡ length self.now.pairs }
        ensures within { All (IsPairWithin self.now.states) self.now.pairs }
        ensures half { 2 * result ≤ self.now.limit }
        ensures limit { size self.now.pairs ≤ self.now.limit }
        ensures bound { self.now.limit ≤ MAX_LIMIT }
    {
        self.keys.len() as u32
    }

    /// How many positions the game on the pairs has.
    pub(crate) fn size(&self) -> u32
        ensures value { result ≡ size self.now.pairs }
        ensures limit { result ≤ self.now.limit }
        ensures bound { self.now.limit ≤ MAX_LIMIT }
    {
        self.size
    }

    /// The state of pair `k`.
    pub(crate) fn state(&self, k: u32) -> u32
        requires { k < length self.now.pairs }
        ensures state { IsPairAt self.now.pairs k (λ pair. pair.state ≡ result) }
        ensures in_range { result < self.now.states }
    {
        self.keys[k as usize].state
    }

    /// The set of pair `k`.
    pub(crate) fn set(&self, k: u32) -> &[u32]
        requires { k < length self.now.pairs }
        ensures set { IsPairAt self.now.pairs k (λ pair. pair.set ≡ result.now) }
        ensures within { IsSetWithin self.now.states result.now }
        ensures few { length result.now ≤ 19 }
    {
        let key = self.keys[k as usize];
        self.sets[key.set as usize].as_slice()
    }

    /// The number of the pair. `None` exactly where it is not there. It takes no memory.
    pub(crate) fn find(&self, state: u32, set: &[u32]) -> Option<u32>
        ensures { result ≡ position (is_same_pair (record { state = state; set = set.now })) self.now.pairs }
    {
        let set = self.sets.get_index_of(set)?;
        let set = set as u32;
        let k = self.keys.get_index_of(&Key { state, set })?;
        Some(k as u32)
    }

    /// The number of the set, which goes last if it is new. A set that is there takes no memory.
    pub(crate) fn number_set(&mut self, set: &[u32]) -> Result<u32, AllocError>
        requires { IsSetWithin self.old.states set.now }
        ensures ok { OnOk result (self.new ≡ record self.old { sets = with_last bytes_eq self.old.sets set.now }) }
        ensures number { IfOk result (λ no. StandsAt self.new.sets no set.now) }
        ensures bound { IfOk result (λ no. no < 4294967295) }
        ensures err { OnErr result (self.new ≡ self.old) }
    {
        match set {
            [q] => self.number_singleton(*q),
            _ => self.number_members(set),
        }
    }

    // The number of the set of the state alone, which goes last if it is new.
    fn number_singleton(&mut self, q: u32) -> Result<u32, AllocError>
        requires { q < self.old.states }
        ensures ok { OnOk result (self.new ≡ record self.old { sets = with_last bytes_eq self.old.sets (q ∷ []) }) }
        ensures number { IfOk result (λ no. StandsAt self.new.sets no (q ∷ [])) }
        ensures bound { IfOk result (λ no. no < 4294967295) }
        ensures err { OnErr result (self.new ≡ self.old) }
    {
        if let Some(no) = self.singletons.get(q, 0) {
            return Ok(no);
        }
        let no = self.number_members(&[q])?;
        self.singletons.put(q, 0, no);
        Ok(no)
    }

    // The number of the set by its members, which goes last if it is new.
    #[inline(never)]
    fn number_members(&mut self, set: &[u32]) -> Result<u32, AllocError>
        requires { IsSetWithin self.old.states set.now }
        ensures ok { OnOk result (self.new ≡ record self.old { sets = with_last bytes_eq self.old.sets set.now }) }
        ensures number { IfOk result (λ no. StandsAt self.new.sets no set.now) }
        ensures bound { IfOk result (λ no. no < 4294967295) }
        ensures err { OnErr result (self.new ≡ self.old) }
    {
        if let Some(no) = self.sets.get_index_of(set) {
            return Ok(no as u32);
        }
        if self.sets.len() >= MAX_SETS {
            return Err(AllocError);
        }
        let alloc = *self.sets.allocator();
        let (no, _) = self.sets.insert_full(Vec::from_slice(alloc, set)?)?;
        Ok(no as u32)
    }

    /// The number of the pair of the state and the set of the number. The pair goes last if it is new.
    #[inline(always)]
    pub(crate) fn reach(&mut self, state: u32, set: u32) -> Result<u32, ExploreError>
        requires state { state < self.old.states }
        requires set { set < length self.old.sets }
        ensures ok { OnOk result (self.new ≡ record self.old { pairs = with_last is_same_pair self.old.pairs (pair_at self.old.sets state set) }) }
        ensures number { IfOk result (λ k. StandsAt self.new.pairs k (pair_at self.old.sets state set)) }
        ensures limit { IfErr result (λ e. IsPastLimit e self.old.limit (size (with_last is_same_pair self.old.pairs (pair_at self.old.sets state set)))) }
        ensures err { OnErr result (self.new ≡ self.old) }
    {
        if let Some(k) = self.known.get(set, state) {
            return Ok(k);
        }
        let k = self.number(state, set)?;
        self.known.put(set, state, k);
        Ok(k)
    }

    // The number of the pair by its key, which goes last if it is new.
    #[inline(never)]
    fn number(&mut self, state: u32, set: u32) -> Result<u32, ExploreError>
        requires state { state < self.old.states }
        requires set { set < length self.old.sets }
        ensures ok { OnOk result (self.new ≡ record self.old { pairs = with_last is_same_pair self.old.pairs (pair_at self.old.sets state set) }) }
        ensures number { IfOk result (λ k. StandsAt self.new.pairs k (pair_at self.old.sets state set)) }
        ensures limit { IfErr result (λ e. IsPastLimit e self.old.limit (size (with_last is_same_pair self.old.pairs (pair_at self.old.sets state set)))) }
        ensures err { OnErr result (self.new ≡ self.old) }
    {
        let key = Key { state, set };
        if let Some(k) = self.keys.get_index_of(&key) {
            return Ok(k as u32);
        }
        let size = u64::from(self.size) + positions(self.sets[set as usize].len());
        if size > u64::from(self.limit) {
            return Err(ExploreError::TooLarge { at_least: size });
        }
        let (k, _) = self.keys.insert_full(key)?;
        self.size = size as u32;
        Ok(k as u32)
    }
}

// How many positions a pair with a set of `n` members stands for, or, where these are more than a million, a number above
// a million that is at most theirs.
fn positions(n: usize) -> u64
    ensures few { n < 20 → result ≡ 1 + 2 ^ n + (if n == 1 then 1 else 0) }
    ensures many { 20 ≤ n → result ≡ 1048577 }
{
    match n {
        1 => 4,
        0..20 => 1 + (1 << n),
        _ => 1_048_577,
    }
}
