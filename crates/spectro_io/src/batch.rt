ghost use Rattle.std.specs.Prelude.{◌≡◌, ◌+◌, ◌≤◌, [], ◌++◌, length, OnErr};
ghost use Rattle.spectro_io.specs.Batches.{Puts, all_of};
ghost use Rattle.spectro_io.specs.Bytes.{WritesWhole};
ghost use Rattle.spectro_io.specs.Faults.{HasCause};

use crate::{Failed, Sink, write_whole};
use std::marker::Model;

// In bytes.
const MOST: usize = 8_192;

/// Bytes that are held until there are enough of them for a call of a sink.
#[derive(Drop)]
pub struct Batch {
    bytes: [u8; MOST],
    len: usize,
}

impl Model for Batch {
    ghost use Rattle.std.specs.Prelude.{◌≤◌, ℕ, List, take};
    ghost use Rattle.spectro_io.specs.declared.batch.TheConstants.{MOST};

    ghost Value = { List ℕ };

    ghost view = { λ b. take b.len b.bytes };

    ghost invariant = { λ b. b.len ≤ MOST };
}

impl Batch {
    pub fn new() -> Batch
        ensures { result ≡ [] }
    {
        Batch {
            bytes: [0; MOST],
            len: 0,
        }
    }

    // How many more bytes can be held.
    fn room(&self) -> usize
        ensures { length self.now + result ≡ MOST }
    {
        MOST - self.len
    }

    // Holds the bytes behind the others.
    fn hold(&mut self, bytes: &[u8])
        requires { length self.old + length bytes.now ≤ MOST }
        ensures { self.new ≡ self.old ++ bytes.now }
    {
        let end = self.len + bytes.len();
        self.bytes[self.len..end].copy_from_slice(bytes);
        self.len = end;
    }

    /// Writes what is held. Nothing is held after it, also where it failed.
    pub fn flush<O: Sink>(&mut self, out: &mut O) -> Result<(), Failed>
        ensures bytes { WritesWhole (O.written out.old) (O.written out.new) result self.old }
        ensures held { self.new ≡ [] }
        ensures cause { HasCause (O.faults out.old) (O.faults out.new) result }
    {
        let end = self.len;
        self.len = 0;
        write_whole(out, &self.bytes[..end])
    }

    /// Puts the bytes behind those that are held, and writes these first where there is no room.
    /// Nothing is held after it failed.
    pub fn put<O: Sink>(&mut self, bytes: &[u8], out: &mut O) -> Result<(), Failed>
        ensures bytes { Puts (O.written out.old) (O.written out.new) result self.new (self.old ++ bytes.now) }
        ensures held { OnErr result (self.new ≡ []) }
        ensures cause { HasCause (O.faults out.old) (O.faults out.new) result }
    {
        if bytes.len() <= self.room() {
            self.hold(bytes);
            return Ok(());
        }
        self.flush(out)?;
        if bytes.len() > MOST {
            return write_whole(out, bytes);
        }
        self.hold(bytes);
        Ok(())
    }

    /// Puts the texts behind the bytes that are held, one after the other, and writes what is held where there is
    /// no room. Nothing is held after it failed.
    pub fn put_all<O: Sink>(&mut self, texts: &[&[u8]], out: &mut O) -> Result<(), Failed>
        ensures bytes { Puts (O.written out.old) (O.written out.new) result self.new (self.old ++ all_of texts.now) }
        ensures held { OnErr result (self.new ≡ []) }
        ensures cause { HasCause (O.faults out.old) (O.faults out.new) result }
    {
        for text in texts {
            self.put(text, out)?;
        }
        Ok(())
    }
}

/// Writes the texts, one after the other, in as few calls as a batch takes.
pub fn write_all<O: Sink>(texts: &[&[u8]], out: &mut O) -> Result<(), Failed>
    ensures bytes { WritesWhole (O.written out.old) (O.written out.new) result (all_of texts.now) }
    ensures cause { HasCause (O.faults out.old) (O.faults out.new) result }
{
    let mut batch = Batch::new();
    batch.put_all(texts, out)?;
    batch.flush(out)
}
