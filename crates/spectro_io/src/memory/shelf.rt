ghost use Rattle.std.specs.Prelude.{◌≡◌, ◌≤◌, ◌<◌, [], length, min, IfOk, OnOk, OnErr, is_err, is_some, Some, None};
ghost use Rattle.std.specs.Io.{ReadsAtMost};
ghost use Rattle.std.specs.Io.KnownBytes.{ReadConsumes};
ghost use Rattle.spectro_io.specs.Faults.{HasCause};
ghost use Rattle.spectro_io.specs.Plans.{fails_next, after_call};
ghost use Rattle.spectro_io.specs.Memory.{text_of, PutsText};
ghost use Rattle.spectro_io.specs.Entries.{left_of, IsOpenAt};
ghost use Rattle.spectro_io.specs.Shelves.{AnswersOpen};

use crate::bytes::{bytes_from, copy_front};
use crate::memory::plan::Plan;
use crate::{Failed, Shelf, Source};
use indexmap::IndexMap;
use std::alloc::{AllocError, Global};
use std::marker::Model;

/// Texts in memory under names.
#[derive(Drop)]
pub struct MemShelf {
    alloc: Global,
    texts: IndexMap<String, Vec<u8>>,
    current: Option<usize>,
    at: usize,
    most: u32,
    plan: Plan,
}

impl Model for MemShelf {
    ghost use Rattle.std.specs.Prelude.{◌<◌};
    ghost use Rattle.spectro_io.specs.Memory.{ShelfState};
    ghost use Rattle.spectro_io.specs.Entries.{named, left_of, IsOpenAt};

    ghost Value = { ShelfState };

    ghost view = { λ s. record { texts = named s.texts.entries; left = left_of s.texts.entries s.current s.at; most = s.most; plan = s.plan } };

    ghost invariant = { λ s. IsOpenAt s.texts.entries s.current s.at × (0 < s.most) };
}

// What is left of the open text.
fn left_bytes(texts: &IndexMap<String, Vec<u8>>, current: Option<usize>, at: usize) -> &[u8]
    requires { IsOpenAt texts.now.entries current at }
    ensures { result.now ≡ left_of texts.now.entries current at }
{
    match current.and_then(|place| texts.get_index(place)) {
        Some((_, text)) => bytes_from(text, at),
        None => &[],
    }
}

impl MemShelf {
    /// A read gives at most `piece` bytes. Calls of `open` and `read` are counted together, and those fail
    /// whose numbers stand in `fails`.
    pub fn new(alloc: Global, piece: u32, fails: &[u64]) -> Result<MemShelf, AllocError>
        requires { 1 ≤ piece }
        ensures { IfOk result (λ shelf. shelf ≡ record { texts = []; left = []; most = piece; plan = record { fails = fails.now; made = 0; faults = 0 } }) }
    {
        Ok(MemShelf {
            alloc,
            texts: IndexMap::new(alloc),
            current: None,
            at: 0,
            most: piece,
            plan: Plan::new(alloc, fails)?,
        })
    }

    /// From now on the name holds these bytes, and nothing is open.
    pub fn put(&mut self, name: &str, bytes: &[u8]) -> Result<(), AllocError>
        ensures ok { OnOk result (PutsText self.old self.new name.now bytes.now) }
        ensures err { OnErr result (self.new ≡ self.old) }
    {
        let name = String::from_str(self.alloc, name)?;
        let text = Vec::from_slice(self.alloc, bytes)?;
        self.texts.insert(name, text)?;
        self.current = None;
        Ok(())
    }

    /// How many calls have failed.
    pub fn faults(&self) -> u64
        ensures { result ≡ self.now.plan.faults }
    {
        self.plan.faults()
    }
}

impl Source for MemShelf {
    ghost left = { λ s. Some s.left };

    ghost faults = { λ s. s.plan.faults };

    ghost texts = { λ s. Some (text_of s.texts) };

    fn read(&mut self, buf: &mut [u8]) -> Result<usize, Failed>
        requires { 0 < length buf.old }
        ensures bound { ReadsAtMost result buf.new }
        ensures bytes { ReadConsumes (Some self.old.left) (Some self.new.left) result buf.new }
        ensures texts { Some (text_of self.new.texts) ≡ Some (text_of self.old.texts) }
        ensures cause { HasCause self.old.plan.faults self.new.plan.faults result }

        // Exactly the planned calls fail, and a call takes as much as it can.
        ensures fails { is_err result ≡ fails_next self.old.plan }
        ensures count { IfOk result (λ count. count ≡ min (min self.old.most (length buf.old)) (length self.old.left)) }
        ensures after { self.new ≡ record self.old { left = self.new.left; plan = after_call self.old.plan (is_err result) } }
    {
        self.plan.call(false)?;
        let left = left_bytes(&self.texts, self.current, self.at);
        let count = copy_front(left, self.most as usize, buf);
        self.at += count;
        Ok(count)
    }
}

impl Shelf for MemShelf {
    fn open(&mut self, name: &str) -> Result<bool, Failed>
        ensures opened { AnswersOpen (Some (text_of self.old.texts)) name.now result (Some self.new.left) }
        ensures texts { Some (text_of self.new.texts) ≡ Some (text_of self.old.texts) }
        ensures cause { HasCause self.old.plan.faults self.new.plan.faults result }

        // Exactly the planned calls fail.
        ensures fails { is_err result ≡ fails_next self.old.plan }
        ensures found { IfOk result (λ found. found ≡ is_some (text_of self.old.texts name.now)) }
        ensures after { self.new ≡ record self.old { left = self.new.left; plan = after_call self.old.plan (is_err result) } }
    {
        self.current = None;
        self.plan.call(false)?;
        self.current = self.texts.get_index_of(name);
        self.at = 0;
        Ok(self.current.is_some())
    }
}
