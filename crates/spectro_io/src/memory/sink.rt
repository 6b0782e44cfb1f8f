ghost use Rattle.std.specs.Prelude.{◌≡◌, ◌≤◌, ◌<◌, ◌-◌, ◌==◌, ◌||◌, [], length, min, IfOk, is_err, Some};
ghost use Rattle.std.specs.Io.KnownBytes.{WriteAppends};
ghost use Rattle.spectro_io.specs.Faults.{HasCause};
ghost use Rattle.spectro_io.specs.Plans.{fails_next, after_call};

use crate::memory::plan::Plan;
use crate::{Failed, Sink};
use std::alloc::{AllocError, Global};
use std::marker::Model;

/// A sink in memory, with room for so many bytes.
#[derive(Drop)]
pub struct MemSink {
    bytes: Vec<u8>,
    room: u32,
    most: u32,
    plan: Plan,
}

impl Model for MemSink {
    ghost use Rattle.std.specs.Prelude.{◌≤◌, ◌<◌, vec_len, vec_capacity};
    ghost use Rattle.spectro_io.specs.Memory.{SinkState};

    ghost Value = { SinkState };

    ghost view = { λ s. record { written = s.bytes.items; room = s.room; most = s.most; plan = s.plan } };

    ghost invariant = { λ s. (vec_len s.bytes ≤ s.room) × (s.room ≤ vec_capacity s.bytes) × (0 < s.most) };
}

impl MemSink {
    /// A write takes at most `piece` bytes, and those calls fail whose numbers stand in `fails`.
    pub fn new(alloc: Global, room: u32, piece: u32, fails: &[u64]) -> Result<MemSink, AllocError>
        requires { 1 ≤ piece }
        ensures { IfOk result (λ sink. sink ≡ record { written = []; room = room; most = piece; plan = record { fails = fails.now; made = 0; faults = 0 } }) }
    {
        Ok(MemSink {
            bytes: Vec::with_capacity(alloc, room as usize)?,
            room,
            most: piece,
            plan: Plan::new(alloc, fails)?,
        })
    }

    pub fn written(&self) -> &[u8]
        ensures { result.now ≡ self.now.written }
    {
        &self.bytes
    }

    pub fn faults(&self) -> u64
        ensures { result ≡ self.now.plan.faults }
    {
        self.plan.faults()
    }
}

impl Sink for MemSink {
    ghost written = { λ s. Some s.written };

    ghost faults = { λ s. s.plan.faults };

    fn write(&mut self, piece: &[u8]) -> Result<usize, Failed>
        requires { 0 < length piece.now }
        ensures some { IfOk result (λ count. (0 < count) × (count ≤ length piece.now)) }
        ensures bytes { WriteAppends (Some self.old.written) (Some self.new.written) result piece.now }
        ensures cause { HasCause self.old.plan.faults self.new.plan.faults result }

        ensures fails { is_err result ≡ ((self.old.room - length self.old.written == 0) || fails_next self.old.plan) }
        ensures count { IfOk result (λ count. count ≡ min (min self.old.most (self.old.room - length self.old.written)) (length piece.now)) }
        ensures after { self.new ≡ record self.old { written = self.new.written; plan = after_call self.old.plan (is_err result) } }
    {
        let room = self.room as usize - self.bytes.len();
        self.plan.call(room == 0)?;
        let count = (self.most as usize).min(room).min(piece.len());
        self.bytes.extend_from_slice(&piece[..count]).unwrap();
        Ok(count)
    }
}
