ghost use Rattle.std.specs.Prelude.{◌≡◌, ◌<◌, length, map, slice_get, Some};
ghost use Rattle.spectro_report.specs.Verdicts.{verdict_of};

use crate::Verdict;
use spectro_hml::Sheet;
use std::marker::Model;

/// What a comparison of two systems has found.
#[derive(Drop)]
pub struct Report {
    pub(crate) left: Extent,
    pub(crate) right: Extent,
    pub(crate) pairs: u32,
    pub(crate) size: u32,
    pub(crate) energies: u64,
    pub(crate) forth: Vec<Verdict>,
    pub(crate) back: Vec<Verdict>,
    pub(crate) sheet: Sheet,
}

/// How large a system is.
#[derive(Clone, Copy)]
pub(crate) struct Extent {
    pub(crate) states: u32,
    /// Repeats are counted.
    pub(crate) transitions: u32,
}

impl Model for Report {
    ghost use Rattle.std.specs.Prelude.{map};
    ghost use Rattle.spectro_report.specs.Verdicts.{verdict_of};
    ghost use Rattle.spectro_report.specs.Kept.{extent_in};
    ghost use Rattle.spectro_report.specs.Reports as reports;

    ghost Value = { reports.Report };

    ghost view = { λ r. record {
      left = extent_in r.left;
      right = extent_in r.right;
      pairs = r.pairs;
      size = r.size;
      energies = r.energies;
      forth = map verdict_of r.forth.items;
      back = map verdict_of r.back.items;
      nodes = r.sheet;
    } };
}

impl Report {
    /// How many pairs the comparison reaches.
    pub fn pairs(&self) -> u32
        ensures { result ≡ self.now.pairs }
    {
        self.pairs
    }

    /// How many positions the game on these pairs has.
    pub fn size(&self) -> u32
        ensures { result ≡ self.now.size }
    {
        self.size
    }

    /// How many least prices all pairs have together, or 18,446,744,073,709,551,615 where there are more.
    pub fn energies(&self) -> u64
        ensures { result ≡ self.now.energies }
    {
        self.energies
    }

    /// What is said of notion `k` from left to right.
    pub fn forth(&self, k: u32) -> &Verdict
        requires { k < length self.now.forth }
        ensures { slice_get self.now.forth k ≡ Some (verdict_of result.now) }
    {
        &self.forth[k as usize]
    }

    /// What is said of notion `k` from right to left.
    pub fn back(&self, k: u32) -> &Verdict
        requires { k < length self.now.back }
        ensures { slice_get self.now.back k ≡ Some (verdict_of result.now) }
    {
        &self.back[k as usize]
    }

    /// All that is said from left to right.
    pub(crate) fn all_forth(&self) -> &[Verdict]
        ensures { map verdict_of result.now ≡ self.now.forth }
    {
        self.forth.as_slice()
    }

    /// All that is said from right to left.
    pub(crate) fn all_back(&self) -> &[Verdict]
        ensures { map verdict_of result.now ≡ self.now.back }
    {
        self.back.as_slice()
    }

    /// How large the left system is.
    pub(crate) fn left(&self) -> Extent
        ensures states { result.states ≡ self.now.left.states }
        ensures transitions { result.transitions ≡ self.now.left.transitions }
    {
        self.left
    }

    /// How large the right system is.
    pub(crate) fn right(&self) -> Extent
        ensures states { result.states ≡ self.now.right.states }
        ensures transitions { result.transitions ≡ self.now.right.transitions }
    {
        self.right
    }

    /// The formulas that the verdicts name, and their parts.
    pub fn sheet(&self) -> &Sheet
        ensures { result.now ≡ self.now.nodes }
    {
        &self.sheet
    }
}
