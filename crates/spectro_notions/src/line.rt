ghost use Rattle.std.specs.Prelude.{IfOk, MatchOption, MatchResult};
ghost use Rattle.spectro_notions.specs.Entries.{notion_in};
ghost use Rattle.spectro_notions.specs.Faults.{IsEntryFault};
ghost use Rattle.spectro_notions.specs.LineReading.{AreFieldsOf, LacksForm};
ghost use Rattle.spectro_notions.specs.NotionLines.{IsNotionLine};

use crate::NotionKind;
use crate::entry::Entry;
use crate::words::{bound_in, name_of, parts_at};
use spectro_io::{token_at, trim_start};
use std::alloc::{AllocError, Global};

/// The name of a line, and the parts of its bound, each the greatest `u64` where it is greater.
#[derive(Clone, Copy)]
struct Fields<'a> {
    name: &'a str,
    parts: [Option<u64>; 6],
}

// The fields of a line that has the form.
fn fields_of(line: &str) -> Option<Fields<'_>>
    ensures { MatchOption result (LacksForm line.now) (AreFieldsOf line.now) }
{
    let (word, rest) = token_at(line.as_bytes());
    let name = name_of(word)?;
    let (parts, rest) = parts_at(rest)?;
    if !trim_start(rest).is_empty() {
        return None;
    }
    Some(Fields { name, parts })
}

/// The notion of the line, or why it has none.
pub(crate) fn entry_in(alloc: Global, line: &str) -> Result<Result<Entry, NotionKind>, AllocError>
    ensures { IfOk result (λ found. MatchResult found (λ entry. IsNotionLine line.now (notion_in entry)) (IsEntryFault line.now)) }
{
    let Some(fields) = fields_of(line) else {
        return Ok(Err(NotionKind::BadLine));
    };
    let Some(bound) = bound_in(fields.parts) else {
        return Ok(Err(NotionKind::BadNumber));
    };
    let name = String::from_str(alloc, fields.name)?;
    Ok(Ok(Entry { name, bound }))
}
