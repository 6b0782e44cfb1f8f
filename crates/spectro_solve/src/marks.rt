ghost use Rattle.std.specs.Prelude.{◌≡◌, ◌<◌, ◌↔◌, ◌⊎◌, ℕ, true, false, length, replicate, set, Contains, IsTrue, IfOk, OnOk, OnErr};
ghost use Rattle.spectro_solve.specs.Marks.{count_marked, IsMarked};

use std::alloc::{AllocError, Global};
use std::marker::Model;

/// Which pairs the next generation evaluates. To go over them takes no longer than there are marked ones.
#[derive(Drop)]
pub(crate) struct Marks {
    flags: Vec<bool>,
    numbers: Vec<u32>,
}

impl Model for Marks {
    ghost use Rattle.std.specs.Prelude.{List, Bool};
    ghost use Rattle.spectro_solve.specs.Marks.{AreMarks};

    ghost Value = { List Bool };

    ghost view = { λ m. m.flags.items };

    ghost invariant = { λ m. AreMarks m.flags.items m.numbers.items };
}

impl Marks {
    /// All of so many pairs are marked.
    pub(crate) fn all(alloc: Global, pairs: u32) -> Result<Marks, AllocError>
        ensures { IfOk result (λ marks. marks ≡ replicate pairs true) }
    {
        let flags = vec![in alloc; true; pairs as usize]?;
        let mut numbers = Vec::with_capacity(alloc, pairs as usize)?;
        for k in 0..pairs {
            numbers.push(k)?;
        }
        Ok(Marks { flags, numbers })
    }

    /// None of so many pairs is marked.
    pub(crate) fn none(alloc: Global, pairs: u32) -> Result<Marks, AllocError>
        ensures { IfOk result (λ marks. marks ≡ replicate pairs false) }
    {
        let flags = vec![in alloc; false; pairs as usize]?;
        Ok(Marks {
            flags,
            numbers: Vec::new(alloc),
        })
    }

    /// The numbers of the marked pairs, each once.
    pub(crate) fn numbers(&self) -> &[u32]
        ensures members { (k : ℕ) → Contains result.now k ↔ IsMarked self.now k }
        ensures count { length result.now ≡ count_marked self.now }
    {
        self.numbers.as_slice()
    }

    /// Whether pair `k` is marked.
    pub(crate) fn is_marked(&self, k: u32) -> bool
        requires { k < length self.now }
        ensures { IsTrue result ↔ IsMarked self.now k }
    {
        self.flags[k as usize]
    }

    /// Puts the numbers in rising order, so that a generation goes over the table in one direction.
    pub(crate) fn sort(&mut self)
        ensures { self.new ≡ self.old }
    {
        self.numbers.sort_unstable();
    }

    /// Takes every mark away.
    pub(crate) fn clear(&mut self)
        ensures { self.new ≡ replicate (length self.old) false }
    {
        unset(&mut self.flags, self.numbers.as_slice());
        self.numbers.clear();
    }

    /// Marks pair `k`.
    pub(crate) fn mark(&mut self, k: u32) -> Result<(), AllocError>
        requires { k < length self.old }
        ensures ok { OnOk result (self.new ≡ set self.old k true) }
        ensures err { OnErr result (self.new ≡ self.old) }
    {
        if self.flags[k as usize] {
            return Ok(());
        }
        self.numbers.push(k)?;
        self.flags[k as usize] = true;
        Ok(())
    }

    /// Marks each of the pairs.
    pub(crate) fn mark_all(&mut self, pairs: &[u32]) -> Result<(), AllocError>
        requires { (k : ℕ) → Contains pairs.now k → k < length self.old }
        ensures len { length self.new ≡ length self.old }
        ensures marked { OnOk result ((k : ℕ) → IsMarked self.new k ↔ IsMarked self.old k ⊎ Contains pairs.now k) }
    {
        for k in pairs {
            self.mark(*k)?;
        }
        Ok(())
    }
}

// Takes the flags of these numbers away.
fn unset(flags: &mut [bool], numbers: &[u32])
    requires { (k : ℕ) → Contains numbers.now k → k < length flags.old }
    ensures len { length flags.new ≡ length flags.old }
    ensures rest { (k : ℕ) → IsMarked flags.new k → IsMarked flags.old k }
    ensures gone { (k : ℕ) → Contains numbers.now k → IsMarked flags.new k → ⊥ }
{
    for k in numbers {
        flags[*k as usize] = false;
    }
}
