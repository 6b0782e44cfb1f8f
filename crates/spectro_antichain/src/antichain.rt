ghost use Rattle.std.specs.Prelude.{◌≡◌, ◌↔◌, ◌<◌, ◌≤◌, List, [], ◌++◌, length, map, Contains, slice_index_or, IsTrue, false, IfOk, OnOk, OnErr};
ghost use Rattle.std.specs.List.{position_or_len, flat_map};
ghost use Rattle.std.specs.Vec.{vec_len, vec_capacity};
ghost use Rattle.spectro_spec.specs.Price.{Price};
ghost use Rattle.spectro_spec.specs.LeastPrices.{Covers, Rises, AreApart};
ghost use Rattle.spectro_game.specs.MinimalElements.{not_above, inserted, minimal_elements};
ghost use Rattle.spectro_game.specs.Sup.{sup};
ghost use Rattle.spectro_game.specs.Update.{inverse};
ghost use Rattle.spectro_energy.specs.Energy.{price_of, prices_of};
ghost use Rattle.spectro_energy.specs.Updates.{update_of, CanRaise};
ghost use Rattle.spectro_antichain.specs.Prices.{comes_first};

use spectro_energy::{Energy, Update};
use spectro_theory::minimal_elements_grow;
use std::alloc::{AllocError, Global};
use std::cmp::Ordering;
use std::marker::Model;

/// Energies of which none is at most another one, in the lexicographic order.
#[derive(Drop)]
pub struct Antichain {
    energies: Vec<Energy>,
}

impl Model for Antichain {
    ghost use Rattle.std.specs.Prelude.{List};
    ghost use Rattle.spectro_spec.specs.Price.{Price};
    ghost use Rattle.spectro_spec.specs.LeastPrices.{Rises, AreApart};
    ghost use Rattle.spectro_energy.specs.Energy.{prices_of};

    ghost Value = { List Price };

    ghost view = { λ a. prices_of a.energies.items };

    ghost invariant = { λ a. Rises (prices_of a.energies.items) × AreApart (prices_of a.energies.items) };
}

impl Antichain {
    /// An antichain without members. It takes no memory.
    pub fn new(alloc: Global) -> Antichain
        ensures { result ≡ [] }
    {
        Antichain {
            energies: Vec::new(alloc),
        }
    }

    /// How many members there are.
    pub fn len(&self) -> usize
        ensures value { result ≡ length self.now }
        ensures rises { Rises self.now }
        ensures apart { AreApart self.now }
    {
        self.energies.len()
    }

    /// Whether there is no member.
    pub fn is_empty(&self) -> bool
        ensures { IsTrue result ↔ self.now ≡ [] }
    {
        self.energies.is_empty()
    }

    /// The member at place `k`, in the lexicographic order.
    pub fn item(&self, k: usize) -> Energy
        requires { k < length self.now }
        ensures { price_of result.parts ≡ slice_index_or self.now k (price_of result.parts) }
    {
        self.energies[k]
    }

    /// Whether some member is at most `e`.
    pub fn covers(&self, e: Energy) -> bool
        ensures { IsTrue result ↔ Covers self.now (price_of e.parts) }
    {
        self.energies.iter().any(|f| f.leq(e))
    }

    /// Adds `e` unless a member is at most it, and drops the members that `e` is at most.
    /// Answers whether `e` was added. Memory is taken before anything changes, and only for one that is added.
    pub fn insert(&mut self, e: Energy) -> Result<bool, AllocError>
        ensures covered { IfOk result (λ added. added ≡ false ↔ Covers self.old (price_of e.parts)) }
        ensures list { OnOk result (self.new ≡ inserted (price_of e.parts) self.old) }
        ensures stays { IfOk result (λ added. added ≡ false → self.new ≡ self.old) }
        ensures err { OnErr result (self.new ≡ self.old) }
        ensures cause { OnErr result (¬ Covers self.old (price_of e.parts)) }
    {
        if self.covers(e) {
            return Ok(false);
        }
        self.energies.reserve(1)?;
        drop_above(&mut self.energies, e);
        let place = place_of(self.energies.as_slice(), e);
        // there is room for it
        let _ = self.energies.insert(place, e);
        Ok(true)
    }

    /// Drops all members. Its memory is kept for the next ones.
    pub fn clear(&mut self)
        ensures { self.new ≡ [] }
    {
        self.energies.clear();
    }

    /// Whether both have the same members.
    pub fn is_same(&self, other: &Antichain) -> bool
        ensures { IsTrue result ↔ self.now ≡ other.now }
    {
        are_same(self.energies.as_slice(), other.energies.as_slice())
    }

    /// An antichain of the same members, in memory of its own.
    pub fn copy(&self) -> Result<Antichain, AllocError>
        ensures { IfOk result (λ copy. copy ≡ self.now) }
    {
        let alloc = *self.energies.allocator();
        Ok(Antichain {
            energies: Vec::from_slice(alloc, self.energies.as_slice())?,
        })
    }

    /// The minimal ones of the least energies from which the update leaves a member.
    pub fn pull(&self, update: Update) -> Result<Antichain, AllocError>
        requires { (e : Price) → Contains self.now e → CanRaise update e }
        ensures { IfOk result (λ made. made ≡ minimal_elements (map (inverse (update_of update)) self.now)) }
    {
        minimal_elements_grow();
        let mut made = Antichain::new(*self.energies.allocator());
        for k in 0..self.len() {
            made.insert(self.item(k).inverse(update))?;
        }
        Ok(made)
    }

    /// The minimal ones of the least upper bounds of a member of each. There are none where either has no member.
    pub fn meet(&self, other: &Antichain) -> Result<Antichain, AllocError>
        ensures { IfOk result (λ made. made ≡ minimal_elements (flat_map (λ e. map (sup e) other.now) self.now)) }
    {
        let mut made = Antichain::new(*self.energies.allocator());
        for k in 0..self.len() {
            insert_sups(&mut made, self.item(k), other)?;
        }
        Ok(made)
    }
}

// Inserts the least upper bound of `e` and each of the others.
fn insert_sups(made: &mut Antichain, e: Energy, others: &Antichain) -> Result<(), AllocError>
    ensures { OnOk result ((es : List Price) → made.old ≡ minimal_elements es → made.new ≡ minimal_elements (es ++ map (sup (price_of e.parts)) others.now)) }
{
    minimal_elements_grow();
    for k in 0..others.len() {
        made.insert(e.sup(others.item(k)))?;
    }
    Ok(())
}

// Whether both have the same energies in the same order.
fn are_same(left: &[Energy], right: &[Energy]) -> bool
    ensures { IsTrue result ↔ prices_of left.now ≡ prices_of right.now }
{
    if left.len() != right.len() {
        return false;
    }
    for k in 0..left.len() {
        if left[k].lex(right[k]) != Ordering::Equal {
            return false;
        }
    }
    true
}

// Drops the members that `e` is at most.
fn drop_above(energies: &mut Vec<Energy>, e: Energy)
    ensures list { prices_of energies.new.items ≡ not_above (price_of e.parts) (prices_of energies.old.items) }
    ensures len { vec_len energies.new ≤ vec_len energies.old }
    ensures capacity { vec_capacity energies.new ≡ vec_capacity energies.old }
{
    energies.retain(|f| !e.leq(*f));
}

// The place of the first member that `e` comes before, or that of the end.
fn place_of(energies: &[Energy], e: Energy) -> usize
    ensures value { result ≡ position_or_len (comes_first e) energies.now }
    ensures bound { result ≤ length energies.now }
{
    energies
        .iter()
        .position(|f| e.lex(*f) == Ordering::Less)
        .unwrap_or(energies.len())
}
