ghost use Rattle.std.specs.Prelude.{◌≡◌, ◌<◌, ◌^◌, ◌-◌, min, length, sum_by};
ghost use Rattle.spectro_rows.specs.Rows.{row_at};

use spectro_lanes::Antichain;
use std::marker::Model;

/// The least prices of each pair of an arena.
#[derive(Drop)]
pub struct Table {
    pub(crate) lists: Vec<Antichain>,
    pub(crate) generations: u32,
    pub(crate) evaluations: u64,
}

impl Model for Table {
    ghost use Rattle.spectro_solve.specs.Tables.{Solved};

    ghost Value = { Solved };

    ghost view = { λ t. record { rows = t.lists.items; generations = t.generations; evaluations = t.evaluations } };
}

impl Table {
    /// The list of pair `k`.
    pub fn least(&self, k: u32) -> &Antichain
        requires { k < length self.now.rows }
        ensures { result.now ≡ row_at self.now.rows k }
    {
        &self.lists[k as usize]
    }

    /// How many generations changed some list.
    pub fn generations(&self) -> u32
        ensures { result ≡ self.now.generations }
    {
        self.generations
    }

    /// How many evaluations were counted.
    pub fn evaluations(&self) -> u64
        ensures { result ≡ self.now.evaluations }
    {
        self.evaluations
    }

    /// How many prices all lists have together, or 18,446,744,073,709,551,615 where there are more.
    pub fn energies(&self) -> u64
        ensures { result ≡ min (sum_by length self.now.rows) (2 ^ 64 - 1) }
    {
        let mut sum: u64 = 0;
        for list in &self.lists {
            sum = sum.saturating_add(list.len() as u64);
        }
        sum
    }
}
