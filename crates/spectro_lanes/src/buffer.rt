ghost use Rattle.std.specs.Prelude.{◌≡◌, ◌+◌, ◌*◌, ◌<◌, ◌≤◌, [], ◌∷◌, ◌++◌, map, IfOk, OnOk};
ghost use Rattle.std.specs.Vec.{vec_len};

use crate::copies::{put_energy, put_sups};
use crate::edits;
use crate::lanes::PARTS;
use spectro_energy::Energy;
use std::alloc::{AllocError, Global};

// how many members the first memory is for
const FIRST_STRIDE: usize = 4;

pub(crate) const ZERO: Energy = Energy { parts: [0; PARTS] };

// Seven columns of numbers in one memory: part `j` of member `k` is at `j * stride + k`.
#[derive(Drop)]
pub(crate) struct Buffer {
    pub(crate) numbers: Vec<u32>,
    // how many members there is room for
    pub(crate) stride: usize,
    pub(crate) len: usize,
    ghost whole: { vec_len numbers ≡ 7 * stride },
    ghost fits: { len ≤ stride },
}

impl Buffer {
    ghost use Rattle.spectro_game.specs.MinimalElements.{not_above, placed_price};
    ghost use Rattle.spectro_game.specs.Sup.{sup};
    ghost use Rattle.spectro_energy.specs.Energy.{price_of};
    ghost use Rattle.spectro_lanes.specs.Buffer.{members_of};

    pub(crate) fn new(alloc: Global) -> Buffer
        ensures { members_of result ≡ [] }
    {
        Buffer {
            numbers: Vec::new(alloc),
            stride: 0,
            len: 0,
        }
    }

    // The same members in memory of their own, with room for `stride`.
    pub(crate) fn with_stride(&self, stride: usize) -> Result<Buffer, AllocError>
        requires { self.now.len ≤ stride }
        ensures members { IfOk result (λ made. members_of made ≡ members_of self.now) }
        ensures len { IfOk result (λ made. made.len ≡ self.now.len) }
        ensures room { IfOk result (λ made. made.stride ≡ stride) }
    {
        let alloc = *self.numbers.allocator();
        let size = stride.checked_mul(PARTS).ok_or(AllocError)?;
        let mut numbers = vec![in alloc; 0; size]?;
        // the sup with the zero energy is the member itself
        put_sups(
            self.numbers.as_slice(),
            self.stride,
            self.len,
            &ZERO,
            numbers.as_mut_slice(),
            stride,
            0,
        );
        Ok(Buffer {
            numbers,
            stride,
            len: self.len,
        })
    }

    // Makes room for `more` members, for at least twice as many as before where it grows.
    pub(crate) fn reserve(&mut self, more: usize) -> Result<(), AllocError>
        ensures members { members_of self.new ≡ members_of self.old }
        ensures len { self.new.len ≡ self.old.len }
        ensures room { OnOk result (self.new.len + more ≤ self.new.stride) }
    {
        if more <= self.stride - self.len {
            return Ok(());
        }
        let wanted = self.len.checked_add(more).ok_or(AllocError)?;
        let doubled = self.stride.saturating_mul(2).max(FIRST_STRIDE);
        *self = self.with_stride(wanted.max(doubled))?;
        Ok(())
    }

    pub(crate) fn push(&mut self, e: &Energy)
        requires { self.old.len < self.old.stride }
        ensures { members_of self.new ≡ members_of self.old ++ price_of e.now.parts ∷ [] }
    {
        put_energy(self.numbers.as_mut_slice(), self.stride, self.len, e);
        self.len += 1;
    }

    // Puts the sup of each of the other members and `e` last.
    pub(crate) fn push_sups(&mut self, from: &Buffer, e: &Energy)
        requires { self.old.len + from.now.len ≤ self.old.stride }
        ensures { members_of self.new ≡ members_of self.old ++ map (λ f. sup f (price_of e.now.parts)) (members_of from.now) }
    {
        put_sups(
            from.numbers.as_slice(),
            from.stride,
            from.len,
            e,
            self.numbers.as_mut_slice(),
            self.stride,
            self.len,
        );
        self.len += from.len;
    }

    // Drops the members that `e` is at most.
    pub(crate) fn drop_above(&mut self, e: &Energy)
        ensures members { members_of self.new ≡ not_above (price_of e.now.parts) (members_of self.old) }
        ensures len { self.new.len ≤ self.old.len }
        ensures room { self.new.stride ≡ self.old.stride }
    {
        self.len = edits::drop_above(self.numbers.as_mut_slice(), self.stride, self.len, e);
    }

    // Puts `e` before the first member that it comes before.
    pub(crate) fn put_in_place(&mut self, e: &Energy)
        requires { self.old.len < self.old.stride }
        ensures { members_of self.new ≡ placed_price (price_of e.now.parts) (members_of self.old) }
    {
        edits::put_in_place(self.numbers.as_mut_slice(), self.stride, self.len, e);
        self.len += 1;
    }
}
