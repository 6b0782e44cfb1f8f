ghost use Rattle.std.specs.Prelude.{◌≡◌, ◌<◌, ◌≤◌, ◌+◌, ◌∷◌, ℕ, List, length, string_bytes, IfOk, IfErr, MatchOption};
ghost use Rattle.std.specs.Str.{IsUtf8};
ghost use Rattle.spectro_hmltext.specs.Characters.{BeginsPlain, BeginsWithQuote, IsCharacterFault, IsClosedAt, IsCutBehind, IsTaken, IsTooLong};
ghost use Rattle.spectro_hmltext.specs.Faults.{IsLabelFault, continuation_of};
ghost use Rattle.spectro_hmltext.specs.FormulaTexts.{StandsLabel};
ghost use Rattle.spectro_hmltext.specs.Stops.{StopsAt};
ghost use Rattle.spectro_hmltext.specs.declared.error.TextKind.TheVariants.{BadLabel};
ghost use Rattle.spectro_hmltext.specs.declared.stop.Stop.TheVariants.{Fault};

use crate::error::TextKind;
use crate::label::is_escaped;
use crate::stop::{Stop, behind};
use crate::token::Token;
use spectro_io::{MAX_LABEL_BYTES, unquoted};
use std::alloc::Global;

/// The label in quotes at the front of the text, with its escapes undone, and what stands behind it.
pub(crate) fn label_at(alloc: Global, text: &[u8]) -> Result<(String, &[u8]), Stop>
    requires { IsUtf8 text.now }
    ensures ok { IfOk result (λ read. StandsLabel text.now (string_bytes read.0) read.1.now) }
    ensures stopped { IfErr result (StopsAt (IsLabelFault text.now)) }
{
    let inside = behind(Token::Quote, text)?;
    let end = label_end(inside)?;
    let quoted = str::from_utf8(&inside[..end]).unwrap();
    let label = unquoted(alloc, quoted)?.unwrap();
    Ok((label, &inside[end + 1..]))
}

// Where the quote stands that ends the label.
fn label_end(inside: &[u8]) -> Result<usize, Stop>
    requires { IsUtf8 inside.now }
    ensures ok { IfOk result (IsClosedAt inside.now) }
    ensures stopped { IfErr result (StopsAt (IsCutBehind inside.now)) }
{
    let mut rest = inside;
    let mut bytes = 0;
    loop {
        match take_character(rest, bytes)? {
            Some(taken) => {
                rest = taken.rest;
                bytes = taken.bytes;
            }
            None => return Ok(inside.len() - rest.len()),
        }
    }
}

// How many bytes of the label were taken, and what stands behind them.
#[derive(Clone, Copy)]
struct Taken<'a> {
    bytes: usize,
    rest: &'a [u8],
}

// Takes the next character of a label with so many bytes before it. `None` at the quote that ends the label.
fn take_character(text: &[u8], bytes: usize) -> Result<Option<Taken<'_>>, Stop>
    requires utf8 { IsUtf8 text.now }
    requires short { bytes ≤ MAX_LABEL_BYTES }
    ensures ok { IfOk result (λ next. MatchOption next (BeginsWithQuote text.now) (λ taken. IsTaken text.now bytes taken.bytes taken.rest.now)) }
    ensures stopped { IfErr result (StopsAt (IsCharacterFault text.now bytes)) }
{
    match text {
        [] => Err(Stop::Fault {
            left: 0,
            kind: TextKind::UnexpectedEnd,
        }),
        [b'"', ..] => Ok(None),
        [b'\n', ..] => Err(bad_label(text)),
        [b'\\', ..] => take_escape(text, bytes),
        [_, ..] => take_plain(text, bytes),
    }
}

// Takes a quote or a backslash, behind the backslash at the front.
fn take_escape(text: &[u8], bytes: usize) -> Result<Option<Taken<'_>>, Stop>
    requires utf8 { IsUtf8 text.now }
    requires short { bytes ≤ MAX_LABEL_BYTES }
    requires escape { (more : List ℕ) × (text.now ≡ 92 ∷ more) }
    ensures ok { IfOk result (λ next. MatchOption next (BeginsWithQuote text.now) (λ taken. IsTaken text.now bytes taken.bytes taken.rest.now)) }
    ensures stopped { IfErr result (StopsAt (IsCharacterFault text.now bytes)) }
{
    let [_, byte, rest @ ..] = text else {
        return Err(Stop::Fault {
            left: 0,
            kind: TextKind::UnexpectedEnd,
        });
    };
    if !is_escaped(*byte) {
        return Err(bad_label(text));
    }
    within(text, bytes + 1, rest)
}

// Takes a character that stands as it is.
fn take_plain(text: &[u8], bytes: usize) -> Result<Option<Taken<'_>>, Stop>
    requires utf8 { IsUtf8 text.now }
    requires short { bytes ≤ MAX_LABEL_BYTES }
    requires plain { BeginsPlain text.now }
    ensures ok { IfOk result (λ next. MatchOption next (BeginsWithQuote text.now) (λ taken. IsTaken text.now bytes taken.bytes taken.rest.now)) }
    ensures stopped { IfErr result (StopsAt (IsCharacterFault text.now bytes)) }
{
    let length = 1 + continuation_length(&text[1..]);
    within(text, bytes + length, &text[length..])
}

// How many bytes at the front of the text are none with which a character begins.
fn continuation_length(text: &[u8]) -> usize
    ensures { result ≡ length (continuation_of text.now) }
{
    text.iter()
        .take_while(|byte| **byte > 127 && **byte < 192)
        .count()
}

// What stands behind a character, if the label has no byte too many with it.
fn within<'a>(text: &'a [u8], bytes: usize, rest: &'a [u8]) -> Result<Option<Taken<'a>>, Stop>
    ensures ok { IfOk result (λ next. MatchOption next ⊥ (λ taken. (taken.bytes ≡ bytes) × (taken.rest.now ≡ rest.now) × (bytes ≤ MAX_LABEL_BYTES))) }
    ensures stopped { IfErr result (StopsAt (IsTooLong text.now bytes)) }
{
    if bytes > MAX_LABEL_BYTES {
        return Err(bad_label(text));
    }
    Ok(Some(Taken { bytes, rest }))
}

// The stop at the front of the text, where no character of a label may stand.
fn bad_label(text: &[u8]) -> Stop
    ensures { result ≡ Fault (length text.now) BadLabel }
{
    Stop::Fault {
        left: text.len(),
        kind: TextKind::BadLabel,
    }
}
