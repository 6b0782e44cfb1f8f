// A set of n members has 2^n - 1 subsets that are not empty, and each of them has subsets of its own: 3^n look-ups for one
// state, if each is looked up by its members. So where a wide set is met first, the numbers of the pairs with its subsets
// are kept in a table by mask, and the pairs below it read theirs in it: the subsets of a subset are the submasks of its
// mask, in the same order.
ghost use Rattle.std.specs.Prelude.{ℕ, ◌≡◌, ◌<◌, ◌≤◌, ◌⊎◌, ◌++◌, Vec, length, slice_index, IfSome, OnOk};
ghost use Rattle.std.specs.declared.alloc.Global.{Global};
ghost use Rattle.spectro_game.specs.Reached.{StandsAt};
ghost use Rattle.spectro_pairs.specs.Lattices.{HasPlace, IsAtMask, IsNewPlace, numbers_to, submask};
ghost use Rattle.spectro_pairs.specs.declared.lattices.Place.{Place};

use spectro_rows::Rows;
use std::alloc::{AllocError, Global};

/// Where the subsets of the set of a pair are: at the submasks of the mask in the table.
#[derive(Clone, Copy)]
pub(crate) struct Place {
    pub(crate) table: u32,
    pub(crate) mask: u32,
}

// The place of a pair that is below no set whose subsets are kept.
const NOWHERE: Place = Place { table: 0, mask: 0 };

// The mask of as many members as a set may have within the limit.
const FULL_MASK: u32 = 524_287;

// How many tables there may be.
const MAX_TABLES: usize = 4_294_967_295;

/// The numbers of the pairs of a state and the subsets of a set, by mask, in a table for each such state and set; and for
/// the pairs of these numbers where their own subsets are.
#[derive(Drop)]
pub(crate) struct Lattices {
    tables: Vec<Vec<u32>>,
    places: Vec<Place>,
}

impl Lattices {
    /// No tables.
    pub(crate) fn new(alloc: Global) -> Lattices
        ensures { (k : ℕ) (place : Place) → HasPlace result k place → ⊥ }
    {
        Lattices {
            tables: Vec::new(alloc),
            places: Vec::new(alloc),
        }
    }

    /// Where the subsets of the set of pair `k` are, if they are kept.
    pub(crate) fn place(&self, k: u32) -> Option<Place>
        ensures { IfSome result (HasPlace self.now k) }
    {
        let place = *self.places.get(k as usize)?;
        if place.mask == 0 {
            return None;
        }
        Some(place)
    }

    /// The table of the place, by mask.
    pub(crate) fn table(&self, place: Place) -> &[u32]
        requires { place.table < length self.now.tables.items }
        ensures { (table : Vec ℕ Global) → StandsAt self.now.tables.items place.table table → result.now ≡ table.items }
    {
        self.tables[place.table as usize].as_slice()
    }

    /// Keeps the table, which has the numbers of pairs at the masks from 1 on. There are so many pairs.
    pub(crate) fn keep(&mut self, table: Vec<u32>, pairs: u32) -> Result<(), AllocError>
        requires pairs { (mask : ℕ) → 1 ≤ mask → mask < length table.items → slice_index table.items mask < pairs }
        requires few { length table.items ≤ 524288 }
        ensures places { OnOk result ((k : ℕ) (place : Place) → HasPlace self.new k place → HasPlace self.old k place ⊎ IsNewPlace self.new table k place) }
        ensures tables { OnOk result ((no : ℕ) (other : Vec ℕ Global) → StandsAt self.old.tables.items no other → StandsAt self.new.tables.items no other) }
    {
        let no = self.tables.len();
        if no >= MAX_TABLES {
            return Ok(());
        }
        self.make_room(pairs as usize)?;
        self.put(&table, no as u32);
        self.tables.push(table)?;
        Ok(())
    }

    // Makes room for the places of so many pairs.
    fn make_room(&mut self, pairs: usize) -> Result<(), AllocError>
        ensures places { OnOk result ((k : ℕ) (place : Place) → HasPlace self.new k place → HasPlace self.old k place) }
        ensures tables { self.new.tables ≡ self.old.tables }
        ensures room { OnOk result (pairs ≤ length self.new.places.items) }
    {
        if pairs <= self.places.len() {
            return Ok(());
        }
        self.places.resize(pairs, NOWHERE)
    }

    // Puts down for the pairs of the table where they are in it, as the table of the number.
    fn put(&mut self, table: &[u32], no: u32)
        requires pairs { (mask : ℕ) → 1 ≤ mask → mask < length table.now → slice_index table.now mask < length self.old.places.items }
        requires few { length table.now ≤ 524288 }
        ensures places { (k : ℕ) (place : Place) → HasPlace self.new k place → HasPlace self.old k place ⊎ IsAtMask table.now no k place }
        ensures tables { self.new.tables ≡ self.old.tables }
    {
        for mask in 1..table.len() {
            self.places[table[mask] as usize] = Place {
                table: no,
                mask: mask as u32,
            };
        }
    }
}

/// Puts down the numbers that the table has at the first submasks of the mask, so many from the least that is not 0 on.
pub(crate) fn push_submasks(
    followers: &mut Rows<u32>,
    table: &[u32],
    mask: u32,
    count: u32,
) -> Result<(), AllocError>
    requires mask { mask < 524288 }
    requires within { (i : ℕ) → 1 ≤ i → i ≤ count → submask mask i < length table.now }
    ensures { OnOk result (followers.new ≡ record followers.old { last = followers.old.last ++ numbers_to table.now mask count }) }
{
    let rest = FULL_MASK - mask;
    let mut submask = 0;
    for _ in 0..count {
        // What is not in the mask is filled with ones, so that one more is carried through it.
        submask = (submask + rest + 1) & mask;
        followers.push(table[submask as usize])?;
    }
    Ok(())
}
