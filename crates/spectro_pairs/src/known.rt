ghost use Rattle.std.specs.Prelude.{ℕ, ◌⊎◌, IfSome, ◌≡◌, ◌<◌, ◌+◌, ◌*◌};
ghost use Rattle.spectro_pairs.specs.Known.{Knows};

use std::alloc::Global;

// How many places are taken first: a page of memory.
const FIRST: usize = 1_024;

// How many places there may be, beyond the first, for each number that was put down.
const SPREAD: usize = 4;

/// Numbers by row and column, as far as they were put down: what was looked up once is read the next time. It grows as
/// numbers are put down, by a few places for each and up to `most`, of which the first rows take theirs. What has no
/// place is not kept, and neither is what finds no memory for its place: then it is looked up again.
///
/// A place has 1 more than its number, and 0 where there is none.
#[derive(Drop)]
pub(crate) struct Known {
    width: u32,
    most: usize,
    puts: usize,
    places: Vec<u32>,
}

impl Known {
    /// No numbers, with rows of so many columns and at most so many places. It takes no memory.
    pub(crate) fn new(alloc: Global, width: u32, most: usize) -> Known
        ensures nothing { (row column n : ℕ) → Knows result row column n → ⊥ }
        ensures width { result.width ≡ width }
    {
        Known {
            width,
            most,
            puts: 0,
            places: Vec::new(alloc),
        }
    }

    /// The number of the row and the column, if it is kept.
    pub(crate) fn get(&self, row: u32, column: u32) -> Option<u32>
        requires { column < self.now.width }
        ensures { IfSome result (Knows self.now row column) }
    {
        self.places.get(self.place(row, column))?.checked_sub(1)
    }

    /// Keeps the number of the row and the column, where it has a place.
    pub(crate) fn put(&mut self, row: u32, column: u32, n: u32)
        requires column { column < self.old.width }
        requires bound { n < 4294967295 }
        ensures knows { (p q m : ℕ) → Knows self.new p q m → Knows self.old p q m ⊎ ((p ≡ row) × (q ≡ column) × (m ≡ n)) }
        ensures width { self.new.width ≡ self.old.width }
    {
        let place = self.place(row, column);
        self.make_room(place);
        if place < self.places.len() {
            self.places[place] = n + 1;
        }
    }

    // Counts a number, and takes room for its place, and for as many again, if it is one of those that there may be by
    // now and there is memory.
    fn make_room(&mut self, place: usize)
        ensures knows { (p q m : ℕ) → Knows self.new p q m → Knows self.old p q m }
        ensures width { self.new.width ≡ self.old.width }
    {
        self.puts = self.puts.saturating_add(1);
        let most = self
            .puts
            .saturating_mul(SPREAD)
            .saturating_add(FIRST)
            .min(self.most);
        if self.places.len() <= place && place < most {
            let count = place.saturating_mul(2).max(FIRST).min(most);
            let _ = self.places.resize(count, 0);
        }
    }

    // Where the number of the row and the column has its place, if it has one.
    fn place(&self, row: u32, column: u32) -> usize
        ensures { result ≡ row * self.now.width + column }
    {
        row as usize * self.width as usize + column as usize
    }
}
