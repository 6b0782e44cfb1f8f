ghost use Rattle.std.specs.Prelude.{◌≡◌, ◌==◌, ◌&&◌, ◌<◌, not, ℕ, List, false, length, string_bytes, IfOk, IfSome, MatchOption};
ghost use Rattle.std.specs.Option.{option_map};
ghost use Rattle.spectro_io.specs.ClosingQuotes.{closing_from};
ghost use Rattle.spectro_io.specs.QuotedLabels.{BeginsInQuotes, IsInQuotes, IsQuoted};
ghost use Rattle.spectro_io.specs.Unescaping.{is_stray, unescaped_behind};

use std::alloc::{AllocError, Global};

/// How many bytes a label has at most.
pub const MAX_LABEL_BYTES: usize = 8192;

/// What stands between the quotes at both ends of the text, where no quote between them ends it.
pub fn in_quotes(text: &[u8]) -> Option<&[u8]>
    ensures { MatchOption result ((inside : List ℕ) → ¬ IsInQuotes text.now inside) (λ inside. IsInQuotes text.now inside.now) }
{
    let (inside, rest) = quoted_at(text)?;
    if !rest.is_empty() {
        return None;
    }
    Some(inside)
}

/// What stands between a quote at the front of the text and the next one that no backslash takes with it,
/// and what stands behind that one.
pub fn quoted_at(text: &[u8]) -> Option<(&[u8], &[u8])>
    ensures { MatchOption result ((inside rest : List ℕ) → ¬ BeginsInQuotes text.now inside rest) (λ parts. BeginsInQuotes text.now parts.0.now parts.1.now) }
{
    let opened = text.strip_prefix(b"\"")?;
    let end = closing(opened)?;
    Some((&opened[..end], &opened[end + 1..]))
}

// The place of the first quote that no backslash takes with it.
fn closing(bytes: &[u8]) -> Option<usize>
    ensures place { result ≡ closing_from 0 false bytes.now }
    ensures within { IfSome result (λ place. place < length bytes.now) }
{
    let mut backslash = false;
    for (i, byte) in bytes.iter().enumerate() {
        if is_end(backslash, *byte) {
            return Some(i);
        }
        backslash = !backslash && *byte == b'\\';
    }
    None
}

// Whether the byte is a quote that no backslash takes with it.
fn is_end(backslash: bool, byte: u8) -> bool
    ensures { result ≡ (not backslash && (byte == 34)) }
{
    !backslash && byte == b'"'
}

/// The label that stands so between its quotes, with `\"` for a quote and `\\` for a backslash.
/// `None` where the bytes are of no label: another byte behind a backslash, a quote with none before it,
/// an LF, or a label of more than 8,192 bytes.
pub fn unquoted(alloc: Global, inside: &str) -> Result<Option<String>, AllocError>
    ensures { IfOk result (λ read. MatchOption read ((label : List ℕ) → ¬ IsQuoted inside.now label) (λ label. IsQuoted inside.now (string_bytes label))) }
{
    let Some(label) = unescaped(alloc, inside.as_bytes())? else {
        return Ok(None);
    };
    if label.len() > MAX_LABEL_BYTES {
        return Ok(None);
    }
    Ok(String::from_utf8(label).ok())
}

// Whether the byte can't stand there, where a backslash may stand before it.
fn is_stray(backslash: bool, byte: u8) -> bool
    ensures { result ≡ is_stray backslash byte }
{
    if backslash {
        return byte != b'"' && byte != b'\\';
    }
    byte == b'"' || byte == b'\n'
}

// The label of the bytes, however long it is.
fn unescaped(alloc: Global, inside: &[u8]) -> Result<Option<Vec<u8>>, AllocError>
    ensures { IfOk result (λ label. option_map (λ label. label.items) label ≡ unescaped_behind false inside.now) }
{
    let mut label = Vec::new(alloc);
    let mut backslash = false;
    for byte in inside {
        if is_stray(backslash, *byte) {
            return Ok(None);
        }
        backslash = !backslash && *byte == b'\\';
        if !backslash {
            label.push(*byte)?;
        }
    }
    if backslash {
        return Ok(None);
    }
    Ok(Some(label))
}
