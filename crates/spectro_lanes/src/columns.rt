ghost use Rattle.std.specs.Prelude.{◌≡◌, ◌↔◌, ◌<◌, List, [], ◌∷◌, ◌++◌, length, map, slice_index_or, position, IsTrue, IfOk, OnOk, OnErr};
ghost use Rattle.spectro_spec.specs.Price.{Price};
ghost use Rattle.spectro_spec.specs.LeastPrices.{Covers};
ghost use Rattle.spectro_game.specs.MinimalElements.{is_at_most, not_above, placed_price};
ghost use Rattle.spectro_game.specs.Sup.{sup};
ghost use Rattle.spectro_energy.specs.Energy.{price_of};

use crate::buffer::Buffer;
use crate::lanes;
use spectro_energy::Energy;
use std::alloc::{AllocError, Global};
use std::marker::Model;

/// A list of energies, with a column for each of their seven parts.
#[derive(Drop)]
pub struct Columns {
    buffer: Buffer,
}

impl Model for Columns {
    ghost use Rattle.std.specs.Prelude.{List};
    ghost use Rattle.spectro_spec.specs.Price.{Price};
    ghost use Rattle.spectro_lanes.specs.Buffer.{members_of};

    ghost Value = { List Price };

    ghost view = { λ a. members_of a.buffer };
}

impl Columns {
    /// A list without members. It takes no memory.
    pub fn new(alloc: Global) -> Columns
        ensures { result ≡ [] }
    {
        Columns {
            buffer: Buffer::new(alloc),
        }
    }

    /// How many members there are.
    pub fn len(&self) -> usize
        ensures { result ≡ length self.now }
    {
        self.buffer.len
    }

    /// Whether there is no member.
    pub fn is_empty(&self) -> bool
        ensures { IsTrue result ↔ self.now ≡ [] }
    {
        self.buffer.len == 0
    }

    /// The member at place `k`.
    pub fn item(&self, k: usize) -> Energy
        requires { k < length self.now }
        ensures { price_of result.parts ≡ slice_index_or self.now k (price_of result.parts) }
    {
        lanes::energy_at(self.buffer.numbers.as_slice(), self.buffer.stride, k)
    }

    /// Puts `e` last.
    pub fn push(&mut self, e: Energy) -> Result<(), AllocError>
        ensures list { OnOk result (self.new ≡ self.old ++ price_of e.parts ∷ []) }
        ensures err { OnErr result (self.new ≡ self.old) }
    {
        self.buffer.reserve(1)?;
        self.buffer.push(&e);
        Ok(())
    }

    /// The place of the first member that is at most `e`. `None` where there is none.
    pub fn first_below(&self, e: Energy) -> Option<usize>
        ensures { result ≡ position (λ f. is_at_most f (price_of e.parts)) self.now }
    {
        let buffer = &self.buffer;
        let first = lanes::first_below(buffer.numbers.as_slice(), buffer.stride, buffer.len, &e);
        if first == buffer.len {
            return None;
        }
        Some(first)
    }

    /// Makes place `k` whether `e` is at most member `k`.
    pub fn mark_above(&self, e: Energy, marks: &mut [bool])
        requires { length marks.old ≡ length self.now }
        ensures { marks.new ≡ map (is_at_most (price_of e.parts)) self.now }
    {
        lanes::mark_above(
            self.buffer.numbers.as_slice(),
            self.buffer.stride,
            &e,
            marks,
        );
    }

    /// Puts the least upper bound of each member and `e` last in `target`, in order.
    pub fn sup_into(&self, e: Energy, target: &mut Columns) -> Result<(), AllocError>
        ensures list { OnOk result (target.new ≡ target.old ++ map (λ f. sup f (price_of e.parts)) self.now) }
        ensures err { OnErr result (target.new ≡ target.old) }
    {
        target.buffer.reserve(self.buffer.len)?;
        target.buffer.push_sups(&self.buffer, &e);
        Ok(())
    }

    // Whether some member is at most `e`.
    #[inline(always)]
    pub(crate) fn covers(&self, e: &Energy) -> bool
        ensures { IsTrue result ↔ Covers self.now (price_of e.now.parts) }
    {
        let buffer = &self.buffer;
        let first = lanes::first_below(buffer.numbers.as_slice(), buffer.stride, buffer.len, e);
        first < buffer.len
    }

    // Drops the members that `e` is at most, and puts `e` before the first that it comes before.
    // Memory is taken before anything changes.
    pub(crate) fn place(&mut self, e: &Energy) -> Result<(), AllocError>
        ensures list { OnOk result (self.new ≡ placed_price (price_of e.now.parts) (not_above (price_of e.now.parts) self.old)) }
        ensures err { OnErr result (self.new ≡ self.old) }
    {
        self.buffer.reserve(1)?;
        self.buffer.drop_above(e);
        self.buffer.put_in_place(e);
        Ok(())
    }

    // Drops all members. Its memory is kept for the next ones.
    pub(crate) fn clear(&mut self)
        ensures { self.new ≡ [] }
    {
        self.buffer.len = 0;
    }

    // A list of the same members, in memory of its own.
    pub(crate) fn copy(&self) -> Result<Columns, AllocError>
        ensures { IfOk result (λ copy. copy ≡ self.now) }
    {
        Ok(Columns {
            buffer: self.buffer.with_stride(self.buffer.len)?,
        })
    }
}
