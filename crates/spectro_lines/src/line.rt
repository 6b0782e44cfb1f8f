ghost use Rattle.std.specs.Prelude.{◌↔◌, ◌≡◌, ◌∷◌, ◌++◌, ◌==◌, position, IsTrue, Contains, IfOk, MatchOption};
ghost use Rattle.spectro_io.specs.Blanks.{AreBlanks};
ghost use Rattle.spectro_lines.specs.LineReading.{IsTaken, IsRefused, IsSplit};

use crate::Grammar;
use spectro_io::{LINE_LIMIT, trim_start};
use std::alloc::{AllocError, Global};

// Whether the line is of blanks alone.
fn is_blank(line: &str) -> bool
    ensures { IsTrue result ↔ AreBlanks line.now }
{
    trim_start(line.as_bytes()).is_empty()
}

fn line_feed(bytes: &[u8]) -> Option<usize>
    ensures { result ≡ position (λ byte. byte == 10) bytes.now }
{
    bytes.iter().position(|byte| *byte == b'\n')
}

/// What stands before and after the first LF.
pub(crate) fn split_at_feed(bytes: &[u8]) -> Option<(&[u8], &[u8])>
    ensures { MatchOption result (¬ Contains bytes.now 10) (λ parts. IsSplit bytes.now parts.0.now parts.1.now) }
{
    let place = line_feed(bytes)?;
    Some((&bytes[..place], &bytes[place + 1..]))
}

/// Takes a line without its line end. Answers its fault, if it has one.
pub(crate) fn take_line<G: Grammar>(
    grammar: &mut G,
    alloc: Global,
    line: &[u8],
    number: u64,
) -> Result<Option<G::Kind>, AllocError>
    requires { ¬ Contains line.now 10 }
    ensures { IfOk result (λ fault. MatchOption fault (IsTaken G.form grammar.old number line.now grammar.new) (IsRefused G.form grammar.old line.now)) }
{
    if line.len() > LINE_LIMIT {
        return Ok(Some(G::too_long()));
    }
    let Ok(line) = str::from_utf8(line) else {
        return Ok(Some(G::not_text()));
    };
    if is_blank(line) {
        return Ok(None);
    }
    grammar.take_line(alloc, line, number)
}
