ghost use Rattle.std.specs.Prelude.{◌≡◌, ◌≤◌, ◌<◌, length, drop, min, IfOk, OnOk, is_err, Some};
ghost use Rattle.std.specs.Io.{ReadsAtMost};
ghost use Rattle.std.specs.Io.KnownBytes.{ReadConsumes};
ghost use Rattle.spectro_io.specs.Faults.{HasCause};
ghost use Rattle.spectro_io.specs.Plans.{fails_next, after_call};

use crate::bytes::{bytes_from, copy_front};
use crate::memory::plan::Plan;
use crate::{Failed, Source};
use std::alloc::{AllocError, Global};
use std::marker::Model;

/// A source in memory.
#[derive(Drop)]
pub struct MemSource {
    bytes: Vec<u8>,
    at: usize,
    most: u32,
    plan: Plan,
}

impl Model for MemSource {
    ghost use Rattle.std.specs.Prelude.{◌≤◌, ◌<◌, length, drop};
    ghost use Rattle.spectro_io.specs.Memory.{SourceState};

    ghost Value = { SourceState };

    ghost view = { λ s. record { left = drop s.at s.bytes.items; most = s.most; plan = s.plan } };

    ghost invariant = { λ s. (s.at ≤ length s.bytes.items) × (0 < s.most) };
}

impl MemSource {
    /// A read gives at most `piece` bytes, and those calls fail whose numbers stand in `fails`.
    pub fn new(
        alloc: Global,
        bytes: &[u8],
        piece: u32,
        fails: &[u64],
    ) -> Result<MemSource, AllocError>
        requires { 1 ≤ piece }
        ensures { IfOk result (λ source. source ≡ record { left = bytes.now; most = piece; plan = record { fails = fails.now; made = 0; faults = 0 } }) }
    {
        Ok(MemSource {
            bytes: bytes.to_vec(alloc)?,
            at: 0,
            most: piece,
            plan: Plan::new(alloc, fails)?,
        })
    }

    pub fn faults(&self) -> u64
        ensures { result ≡ self.now.plan.faults }
    {
        self.plan.faults()
    }
}

impl Source for MemSource {
    ghost left = { λ s. Some s.left };

    ghost faults = { λ s. s.plan.faults };

    fn read(&mut self, buf: &mut [u8]) -> Result<usize, Failed>
        requires { 0 < length buf.old }
        ensures bound { ReadsAtMost result buf.new }
        ensures bytes { ReadConsumes (Some self.old.left) (Some self.new.left) result buf.new }
        ensures cause { HasCause self.old.plan.faults self.new.plan.faults result }

        ensures fails { is_err result ≡ fails_next self.old.plan }
        ensures count { IfOk result (λ count. count ≡ min (min self.old.most (length buf.old)) (length self.old.left)) }
        ensures after { self.new ≡ record self.old { left = self.new.left; plan = after_call self.old.plan (is_err result) } }
    {
        self.plan.call(false)?;
        let left = bytes_from(&self.bytes, self.at);
        let count = copy_front(left, self.most as usize, buf);
        self.at += count;
        Ok(count)
    }
}
