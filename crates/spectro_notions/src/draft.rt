ghost use Rattle.std.specs.Prelude.{◌≡◌, ◌<◌, ◌≤◌, [], ◌∷◌, ◌++◌, false, length, map, OnErr, OnOk};
ghost use Rattle.std.specs.List.{list_any};
ghost use Rattle.std.specs.Str.{bytes_eq};
ghost use Rattle.spectro_notions.specs.Entries.{notion_in};
ghost use Rattle.spectro_notions.specs.Tables.{AreNotions, has_name};

use crate::MAX_NOTIONS;
use crate::entry::Entry;
use std::alloc::{AllocError, Global};
use std::marker::Model;

/// The notions of the lines so far.
#[derive(Drop)]
pub(crate) struct Draft {
    entries: Vec<Entry>,
}

impl Model for Draft {
    ghost use Rattle.std.specs.Prelude.{List, map};
    ghost use Rattle.spectro_spec.specs.Notion.{Notion};
    ghost use Rattle.spectro_notions.specs.Entries.{notion_in};
    ghost use Rattle.spectro_notions.specs.Tables.{AreNotions};

    ghost Value = { List Notion };

    ghost view = { λ draft. map notion_in draft.entries.items };

    ghost invariant = { λ draft. AreNotions (map notion_in draft.entries.items) };
}

impl Draft {
    /// No notion.
    pub(crate) fn new(alloc: Global) -> Draft
        ensures { result ≡ [] }
    {
        Draft {
            entries: Vec::new(alloc),
        }
    }

    /// How many notions there are.
    pub(crate) fn len(&self) -> usize
        ensures value { result ≡ length self.now }
        ensures bound { result ≤ MAX_NOTIONS }
    {
        self.entries.len()
    }

    /// Whether a notion has the name.
    pub(crate) fn has_name(&self, name: &str) -> bool
        ensures { result ≡ has_name self.now name.now }
    {
        has_name(&self.entries, name)
    }

    /// Puts the notion after the others.
    pub(crate) fn push(&mut self, entry: Entry) -> Result<(), AllocError>
        requires new { has_name self.old (notion_in entry).name ≡ false }
        requires room { length self.old < MAX_NOTIONS }
        ensures ok { OnOk result (self.new ≡ self.old ++ notion_in entry ∷ []) }
        ensures err { OnErr result (self.new ≡ self.old) }
    {
        self.entries.push(entry)?;
        Ok(())
    }

    /// The notions, as lines had them.
    pub(crate) fn into_entries(self) -> Vec<Entry>
        ensures value { map notion_in result.items ≡ self }
        ensures notions { AreNotions self }
    {
        self.entries
    }
}

fn has_name(entries: &[Entry], name: &str) -> bool
    ensures { result ≡ list_any (λ entry. bytes_eq (notion_in entry).name name.now) entries.now }
{
    entries.iter().any(|entry| entry.name.as_str() == name)
}
