ghost use Rattle.std.specs.Prelude.{◌≡◌, ◌↔◌, ◌<◌, List, [], ◌++◌, length, map, Contains, slice_index_or, IsTrue, false, IfOk, OnOk, OnErr};
ghost use Rattle.std.specs.List.{flat_map};
ghost use Rattle.spectro_spec.specs.Price.{Price};
ghost use Rattle.spectro_spec.specs.LeastPrices.{Covers, Rises, AreApart};
ghost use Rattle.spectro_game.specs.MinimalElements.{inserted, minimal_elements};
ghost use Rattle.spectro_game.specs.Sup.{sup};
ghost use Rattle.spectro_game.specs.Update.{inverse};
ghost use Rattle.spectro_energy.specs.Energy.{price_of};
ghost use Rattle.spectro_energy.specs.Updates.{update_of, CanRaise};

use crate::members::Members;
use spectro_energy::{Energy, Update};
use spectro_theory::minimal_elements_grow;
use std::alloc::{AllocError, Global};
use std::cmp::Ordering;
use std::marker::Model;

/// Energies of which none is at most another one, in the lexicographic order. None and one take no memory.
#[derive(Drop)]
pub struct Antichain {
    alloc: Global,
    members: Members,
}

impl Model for Antichain {
    ghost use Rattle.std.specs.Prelude.{List};
    ghost use Rattle.spectro_spec.specs.Price.{Price};
    ghost use Rattle.spectro_spec.specs.LeastPrices.{Rises, AreApart};
    ghost use Rattle.spectro_lanes.specs.Members.{prices_held};

    ghost Value = { List Price };

    ghost view = { λ a. prices_held a.members };

    ghost invariant = { λ a. Rises (prices_held a.members) × AreApart (prices_held a.members) };
}

impl Antichain {
    /// An antichain without members. It takes no memory.
    pub fn new(alloc: Global) -> Antichain
        ensures { result ≡ [] }
    {
        Antichain {
            alloc,
            members: Members::Empty,
        }
    }

    /// How many members there are.
    pub fn len(&self) -> usize
        ensures value { result ≡ length self.now }
        ensures rises { Rises self.now }
        ensures apart { AreApart self.now }
    {
        self.members.len()
    }

    /// Whether there is no member.
    pub fn is_empty(&self) -> bool
        ensures { IsTrue result ↔ self.now ≡ [] }
    {
        self.members.len() == 0
    }

    /// The member at place `k`, in the lexicographic order.
    pub fn item(&self, k: usize) -> Energy
        requires { k < length self.now }
        ensures { price_of result.parts ≡ slice_index_or self.now k (price_of result.parts) }
    {
        self.members.item(k)
    }

    /// Whether some member is at most `e`.
    #[inline]
    pub fn covers(&self, e: Energy) -> bool
        ensures { IsTrue result ↔ Covers self.now (price_of e.parts) }
    {
        self.members.covers(&e)
    }

    /// Adds `e` unless a member is at most it, and drops the members that `e` is at most.
    /// Answers whether `e` was added. Memory is taken before anything changes, and only for one that is added.
    pub fn insert(&mut self, e: Energy) -> Result<bool, AllocError>
        ensures covered { IfOk result (λ added. added ≡ false ↔ Covers self.old (price_of e.parts)) }
        ensures list { OnOk result (self.new ≡ inserted (price_of e.parts) self.old) }
        ensures stays { IfOk result (λ added. added ≡ false → self.new ≡ self.old) }
        ensures err { OnErr result (self.new ≡ self.old) }
        ensures cause { OnErr result (¬ Covers self.old (price_of e.parts)) }
    {
        if self.members.covers(&e) {
            return Ok(false);
        }
        self.members.place(self.alloc, &e)?;
        Ok(true)
    }

    /// Drops all members. Its memory is kept for the next ones.
    pub fn clear(&mut self)
        ensures { self.new ≡ [] }
    {
        self.members.clear();
    }

    /// Makes its members those of the other one. Its memory is kept for them. After an error there is no member.
    pub fn assign(&mut self, other: &Antichain) -> Result<(), AllocError>
        ensures ok { OnOk result (self.new ≡ other.now) }
        ensures err { OnErr result (self.new ≡ []) }
    {
        self.members.assign(&other.members)
    }

    /// Whether both have the same members.
    pub fn is_same(&self, other: &Antichain) -> bool
        ensures { IsTrue result ↔ self.now ≡ other.now }
    {
        if self.len() != other.len() {
            return false;
        }
        for k in 0..self.len() {
            if self.item(k).lex(other.item(k)) != Ordering::Equal {
                return false;
            }
        }
        true
    }

    /// An antichain of the same members, in memory of its own.
    pub fn copy(&self) -> Result<Antichain, AllocError>
        ensures { IfOk result (λ copy. copy ≡ self.now) }
    {
        Ok(Antichain {
            alloc: self.alloc,
            members: self.members.copy()?,
        })
    }

    /// The minimal ones of the least energies from which the update leaves a member.
    pub fn pull(&self, update: Update) -> Result<Antichain, AllocError>
        requires { (e : Price) → Contains self.now e → CanRaise update e }
        ensures { IfOk result (λ made. made ≡ minimal_elements (map (inverse (update_of update)) self.now)) }
    {
        minimal_elements_grow();
        let mut made = Antichain::new(self.alloc);
        for k in 0..self.len() {
            made.insert(self.item(k).inverse(update))?;
        }
        Ok(made)
    }

    /// The minimal ones of the least upper bounds of a member of each. There are none where either has no member.
    pub fn meet(&self, other: &Antichain) -> Result<Antichain, AllocError>
        ensures { IfOk result (λ made. made ≡ minimal_elements (flat_map (λ e. map (sup e) other.now) self.now)) }
    {
        let mut made = Antichain::new(self.alloc);
        for k in 0..self.len() {
            insert_sups(&mut made, self.item(k), other)?;
        }
        Ok(made)
    }
}

// Inserts the least upper bound of `e` and each of the others.
fn insert_sups(made: &mut Antichain, e: Energy, others: &Antichain) -> Result<(), AllocError>
    ensures { OnOk result ((es : List Price) → made.old ≡ minimal_elements es → made.new ≡ minimal_elements (es ++ map (sup (price_of e.parts)) others.now)) }
{
    minimal_elements_grow();
    for k in 0..others.len() {
        made.insert(e.sup(others.item(k)))?;
    }
    Ok(())
}
