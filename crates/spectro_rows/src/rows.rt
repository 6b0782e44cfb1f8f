ghost use Rattle.std.specs.Prelude.{◌≡◌, ◌+◌, ◌<◌, [], ◌∷◌, ◌++◌, length, take, slice_get, Some, IfOk, OnOk, OnErr};
ghost use Rattle.std.specs.List.{sum_by};
ghost use Rattle.spectro_rows.specs.Rows.{start_of, rows_of, AreEnds};

use std::alloc::{AllocError, Global};
use std::marker::Model;
use std::ops::Range;

/// Rows of items, one behind the other in one vector, and behind them a row that is still open.
#[derive(Drop)]
pub struct Rows<T> {
    items: Vec<T>,
    ends: Vec<usize>,
}

impl<T> Model for Rows<T> {
    ghost use Rattle.spectro_rows.specs.Rows.{RowList, rows_of, AreEnds};

    ghost Value = { RowList T };

    ghost view = { λ r. rows_of r.ends.items r.items.items };

    ghost invariant = { λ r. AreEnds 0 r.ends.items r.items.items };
}

impl<T: Copy> Rows<T> {
    /// No row but an open one without items.
    pub fn new(alloc: Global) -> Rows<T>
        ensures { result ≡ record { rows = []; last = [] } }
    {
        Rows {
            items: Vec::new(alloc),
            ends: Vec::new(alloc),
        }
    }

    /// The same, with room for so many rows and items.
    pub fn with_capacity(alloc: Global, rows: usize, items: usize) -> Result<Rows<T>, AllocError>
        ensures { IfOk result (λ empty. empty ≡ record { rows = []; last = [] }) }
    {
        Ok(Rows {
            items: Vec::with_capacity(alloc, items)?,
            ends: Vec::with_capacity(alloc, rows)?,
        })
    }

    /// The rows up to each of the ends.
    pub(crate) fn up_to(ends: Vec<usize>, items: Vec<T>) -> Rows<T>
        requires { AreEnds 0 ends.items items.items }
        ensures { result ≡ rows_of ends.items items.items }
    {
        Rows { items, ends }
    }

    /// How many rows are closed.
    pub fn len(&self) -> usize
        ensures { result ≡ length self.now.rows }
    {
        self.ends.len()
    }

    /// The row at place `k`.
    pub fn row(&self, k: usize) -> &[T]
        requires { k < length self.now.rows }
        ensures { slice_get self.now.rows k ≡ Some result.now }
    {
        let from = start(&self.ends, k);
        &self.items[from..self.ends[k]]
    }

    /// Where the row at place `k` lies among the items of all rows.
    pub fn range(&self, k: usize) -> Range<usize>
        requires { k < length self.now.rows }
        ensures start { result.start ≡ sum_by length (take k self.now.rows) }
        ensures end { result.end ≡ sum_by length (take (k + 1) self.now.rows) }
    {
        start(&self.ends, k)..self.ends[k]
    }

    /// Puts an item at the end of the open row.
    pub fn push(&mut self, item: T) -> Result<(), AllocError>
        ensures ok { OnOk result (self.new ≡ record self.old { last = self.old.last ++ item ∷ [] }) }
        ensures err { OnErr result (self.new ≡ self.old) }
    {
        self.items.push(item)?;
        Ok(())
    }

    /// Closes the open row, and opens one without items.
    pub fn close(&mut self) -> Result<(), AllocError>
        ensures ok { OnOk result (self.new ≡ record { rows = self.old.rows ++ self.old.last ∷ []; last = [] }) }
        ensures err { OnErr result (self.new ≡ self.old) }
    {
        self.ends.push(self.items.len())?;
        Ok(())
    }
}

// Where the row at place `k` begins: at the end of the one before.
fn start(ends: &[usize], k: usize) -> usize
    requires { k < length ends.now }
    ensures { result ≡ start_of 0 ends.now k }
{
    if k == 0 { 0 } else { ends[k - 1] }
}
