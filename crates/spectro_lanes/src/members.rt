ghost use Rattle.std.specs.Prelude.{◌≡◌, ◌↔◌, ◌<◌, [], ◌∷◌, ◌++◌, length, slice_index_or, IsTrue, IfOk, OnOk, OnErr};
ghost use Rattle.spectro_spec.specs.Price.{IsAtMost};
ghost use Rattle.spectro_spec.specs.LeastPrices.{Covers};
ghost use Rattle.spectro_game.specs.MinimalElements.{not_above, placed_price};
ghost use Rattle.spectro_energy.specs.Energy.{price_of};
ghost use Rattle.spectro_lanes.specs.Members.{prices_held};

use crate::buffer::ZERO;
use crate::columns::Columns;
use crate::lanes::is_below;
use spectro_energy::Energy;
use std::alloc::{AllocError, Global};

// What the members are kept in: most lists have one or two, and those of none and of one take no memory.
#[derive(Drop)]
pub(crate) enum Members {
    Empty,
    One(Energy),
    Many(Columns),
}

impl Members {
    pub(crate) fn len(&self) -> usize
        ensures { result ≡ length (prices_held self.now) }
    {
        match self {
            Members::Empty => 0,
            Members::One(_) => 1,
            Members::Many(columns) => columns.len(),
        }
    }

    pub(crate) fn item(&self, k: usize) -> Energy
        requires { k < length (prices_held self.now) }
        ensures { price_of result.parts ≡ slice_index_or (prices_held self.now) k (price_of result.parts) }
    {
        match self {
            Members::Empty => unreachable!(),
            Members::One(e) => *e,
            Members::Many(columns) => columns.item(k),
        }
    }

    #[inline(always)]
    pub(crate) fn covers(&self, e: &Energy) -> bool
        ensures { IsTrue result ↔ Covers (prices_held self.now) (price_of e.now.parts) }
    {
        match self {
            Members::Empty => false,
            Members::One(f) => is_at_most(f, e),
            Members::Many(columns) => columns.covers(e),
        }
    }

    // Drops the members that `e` is at most, and puts `e` in its place. Memory is taken before anything changes.
    pub(crate) fn place(&mut self, alloc: Global, e: &Energy) -> Result<(), AllocError>
        ensures list { OnOk result (prices_held self.new ≡ placed_price (price_of e.now.parts) (not_above (price_of e.now.parts) (prices_held self.old))) }
        ensures err { OnErr result (prices_held self.new ≡ prices_held self.old) }
    {
        match self {
            Members::Empty => *self = Members::One(*e),
            Members::One(f) => {
                let f = *f;
                *self = beside(alloc, f, e)?;
            }
            Members::Many(columns) => columns.place(e)?,
        }
        Ok(())
    }

    // Drops all members, and keeps the memory.
    pub(crate) fn clear(&mut self)
        ensures { prices_held self.new ≡ [] }
    {
        match self {
            Members::Empty => {}
            Members::One(_) => *self = Members::Empty,
            Members::Many(columns) => columns.clear(),
        }
    }

    // Makes its members those of the other, in the memory that it has. After an error there is none.
    pub(crate) fn assign(&mut self, other: &Members) -> Result<(), AllocError>
        ensures ok { OnOk result (prices_held self.new ≡ prices_held other.now) }
        ensures err { OnErr result (prices_held self.new ≡ []) }
    {
        self.clear();
        match self {
            Members::Many(columns) => put_all(columns, other)?,
            _ => *self = other.copy()?,
        }
        Ok(())
    }

    pub(crate) fn copy(&self) -> Result<Members, AllocError>
        ensures { IfOk result (λ copy. prices_held copy ≡ prices_held self.now) }
    {
        match self {
            Members::Empty => Ok(Members::Empty),
            Members::One(e) => Ok(Members::One(*e)),
            Members::Many(columns) => copy_of(columns),
        }
    }
}

// Whether each part of `f` is at most that of `e`: one energy is a row in columns of one.
#[inline(always)]
fn is_at_most(f: &Energy, e: &Energy) -> bool
    ensures { IsTrue result ↔ IsAtMost (price_of f.now.parts) (price_of e.now.parts) }
{
    is_below(f.parts.as_slice(), 1, 0, e)
}

// The members where `e` comes to `f`, which may go.
fn beside(alloc: Global, f: Energy, e: &Energy) -> Result<Members, AllocError>
    ensures { IfOk result (λ made. prices_held made ≡ placed_price (price_of e.now.parts) (not_above (price_of e.now.parts) (price_of f.parts ∷ []))) }
{
    if is_at_most(e, &f) {
        return Ok(Members::One(*e));
    }
    let mut both = Columns::new(alloc);
    both.push(f)?;
    both.place(e)?;
    Ok(Members::Many(both))
}

// A copy with no more memory than its members take.
fn copy_of(columns: &Columns) -> Result<Members, AllocError>
    ensures { IfOk result (λ copy. prices_held copy ≡ columns.now) }
{
    if columns.is_empty() {
        return Ok(Members::Empty);
    }
    if columns.len() == 1 {
        return Ok(Members::One(columns.item(0)));
    }
    Ok(Members::Many(columns.copy()?))
}

// Puts the members last. The sup with the zero energy is the member itself.
fn put_all(columns: &mut Columns, members: &Members) -> Result<(), AllocError>
    ensures ok { OnOk result (columns.new ≡ columns.old ++ prices_held members.now) }
    ensures err { OnErr result (columns.new ≡ columns.old) }
{
    match members {
        Members::Empty => Ok(()),
        Members::One(e) => columns.push(*e),
        Members::Many(others) => others.sup_into(ZERO, columns),
    }
}
