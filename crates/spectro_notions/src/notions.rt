ghost use Rattle.std.specs.Prelude.{◌≡◌, ◌↔◌, ◌<◌, Some, IsTrue, length, map};
ghost use Rattle.spectro_spec.specs.Spectrum.{notions};
ghost use Rattle.spectro_notions.specs.Bounds.{bound_of};
ghost use Rattle.spectro_notions.specs.Entries.{notion_in};
ghost use Rattle.spectro_notions.specs.Tables.{IsBelowIn, IsTable, bound_at, name_at};

use crate::entry::Entry;
use crate::{Bound, NOTION_COUNT, bound, name};
use std::alloc::Global;
use std::marker::Model;

/// How many notions a table may have.
pub const MAX_NOTIONS: usize = 64;

/// A table of notions, which are numbered from 0.
#[derive(Drop)]
pub struct Notions {
    table: Table,
}

/// Where the notions are kept.
#[derive(Drop)]
enum Table {
    /// They are the thirteen of the spectrum.
    Spectrum,
    /// They came from a text.
    Read(Vec<Entry>),
}

impl Model for Notions {
    ghost use Rattle.std.specs.Prelude.{List};
    ghost use Rattle.spectro_spec.specs.Notion.{Notion};
    ghost use Rattle.spectro_notions.specs.Tables.{IsTable};
    ghost use Rattle.spectro_notions.specs.Entries.{notions_in};

    ghost Value = { List Notion };

    ghost view = { λ kept. notions_in kept.table };

    ghost invariant = { λ kept. IsTable (notions_in kept.table) };
}

impl Notions {
    /// The thirteen of the spectrum. It takes no memory.
    pub fn builtin(_alloc: Global) -> Notions
        ensures { result ≡ notions }
    {
        Notions {
            table: Table::Spectrum,
        }
    }

    /// The notions of lines.
    pub(crate) fn of_lines(entries: Vec<Entry>) -> Notions
        requires { IsTable (map notion_in entries.items) }
        ensures { result ≡ map notion_in entries.items }
    {
        Notions {
            table: Table::Read(entries),
        }
    }

    /// How many notions there are.
    pub fn count(&self) -> u32
        ensures value { result ≡ length self.now }
        ensures table { IsTable self.now }
    {
        match &self.table {
            Table::Spectrum => NOTION_COUNT,
            Table::Read(entries) => entries.len() as u32,
        }
    }

    /// The name of the notion with this number.
    pub fn name(&self, k: u32) -> &str
        requires { k < length self.now }
        ensures { name_at self.now k ≡ Some result.now }
    {
        match &self.table {
            Table::Spectrum => name(k),
            Table::Read(entries) => entries[k as usize].name.as_str(),
        }
    }

    /// The bound of the notion with this number.
    pub fn bound(&self, k: u32) -> Bound
        requires { k < length self.now }
        ensures { bound_at self.now k ≡ Some (bound_of result.parts) }
    {
        match &self.table {
            Table::Spectrum => bound(k),
            Table::Read(entries) => entries[k as usize].bound,
        }
    }

    /// Whether each part of the bound of notion `i` is at most that of notion `j`, no bound being the greatest.
    pub fn below(&self, i: u32, j: u32) -> bool
        requires first { i < length self.now }
        requires second { j < length self.now }
        ensures { IsTrue result ↔ IsBelowIn self.now i j }
    {
        self.bound(i).is_below(self.bound(j))
    }
}
