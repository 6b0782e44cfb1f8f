ghost use Rattle.std.specs.Prelude.{◌≡◌, ◌≤◌, [], ◌∷◌, ◌++◌, length, string_bytes, encode_utf8, OnOk};
ghost use Rattle.spectro_io.specs.Batches.{Puts};
ghost use Rattle.spectro_io.specs.Bytes.{WritesWhole};
ghost use Rattle.spectro_io.specs.Faults.{HasCause};
ghost use Rattle.spectro_io.specs.QuotedLabels.{is_escaped, escaped};
ghost use Rattle.spectro_spec.specs.System.{IsLabel};
ghost use Rattle.spectro_hmltext.specs.Printed.{label_text};

use spectro_io::{Batch, Failed, Sink};
use std::alloc::AllocError;

/// Writes the label in quotes, with a backslash before each quote and each backslash of it.
pub fn write_label<O: Sink>(label: &str, out: &mut O) -> Result<(), Failed>
    ensures bytes { WritesWhole (O.written out.old) (O.written out.new) result (label_text label.now) }
    ensures cause { HasCause (O.faults out.old) (O.faults out.new) result }
{
    let mut batch = Batch::new();
    put_label(label, &mut batch, out)?;
    batch.flush(out)
}

/// Puts the label in quotes behind the bytes that are held, with its escapes.
pub(crate) fn put_label<O: Sink>(label: &str, batch: &mut Batch, out: &mut O) -> Result<(), Failed>
    ensures bytes { Puts (O.written out.old) (O.written out.new) result batch.new (batch.old ++ label_text label.now) }
    ensures cause { HasCause (O.faults out.old) (O.faults out.new) result }
{
    batch.put(b"\"", out)?;
    for byte in label.as_bytes() {
        put_escaped(*byte, batch, out)?;
    }
    batch.put(b"\"", out)
}

// Puts the byte, and a backslash before it where it has one.
fn put_escaped<O: Sink>(byte: u8, batch: &mut Batch, out: &mut O) -> Result<(), Failed>
    ensures bytes { Puts (O.written out.old) (O.written out.new) result batch.new (batch.old ++ escaped (byte ∷ [])) }
    ensures cause { HasCause (O.faults out.old) (O.faults out.new) result }
{
    if is_escaped(byte) {
        batch.put(&[b'\\', byte], out)
    } else {
        batch.put(&[byte], out)
    }
}

/// Puts the label in quotes behind the text, with its escapes.
pub(crate) fn push_label(label: &str, text: &mut String) -> Result<(), AllocError>
    ensures { OnOk result (string_bytes text.new ≡ string_bytes text.old ++ label_text label.now) }
{
    text.push('"')?;
    for letter in label.chars() {
        push_escaped(letter, text)?;
    }
    text.push('"')
}

// Puts the letter, and a backslash before it where it has one.
fn push_escaped(letter: char, text: &mut String) -> Result<(), AllocError>
    ensures { OnOk result (string_bytes text.new ≡ string_bytes text.old ++ escaped (encode_utf8 letter)) }
{
    match letter {
        '"' => text.push_str("\\\""),
        '\\' => text.push_str("\\\\"),
        _ => text.push(letter),
    }
}

/// How many bytes the label takes in its quotes.
pub(crate) fn label_bytes(label: &str) -> u64
    requires { IsLabel label.now }
    ensures value { result ≡ length (label_text label.now) }
    ensures few { result ≤ 16386 }
{
    let mut bytes: u64 = 2;
    for byte in label.as_bytes() {
        bytes += escaped_bytes(*byte);
    }
    bytes
}

// How many bytes a byte of a label takes.
fn escaped_bytes(byte: u8) -> u64
    ensures value { result ≡ length (escaped (byte ∷ [])) }
    ensures few { result ≤ 2 }
{
    if is_escaped(byte) { 2 } else { 1 }
}

/// Whether the byte is a quote or a backslash.
pub(crate) fn is_escaped(byte: u8) -> bool
    ensures { result ≡ is_escaped byte }
{
    byte == b'"' || byte == b'\\'
}
