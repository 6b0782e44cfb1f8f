ghost use Rattle.std.specs.Prelude.{IfErr, IfOk, MatchOption};
ghost use Rattle.spectro_notions.specs.Entries.{notion_in};
ghost use Rattle.spectro_notions.specs.Faults.{IsPlaceFault};
ghost use Rattle.spectro_notions.specs.LineReading.{IsPlaced};
ghost use Rattle.spectro_notions.specs.NotionTexts.{IsNotionText, IsRefused, notion_form};

use crate::draft::Draft;
use crate::entry::Entry;
use crate::line::entry_in;
use crate::{MAX_NOTIONS, NotionError, NotionFault, NotionKind, Notions};
use spectro_io::TEXT_LIMIT;
use spectro_lines::{Grammar, LineError, LineFault, read};
use std::alloc::{AllocError, Global};

/// The table of notions of which the bytes are a text.
pub fn read_notions(alloc: Global, bytes: &[u8]) -> Result<Notions, NotionError>
    ensures ok { IfOk result (IsNotionText bytes.now) }
    ensures refused { IfErr result (IsRefused bytes.now) }
{
    match read::<Draft>(alloc, bytes) {
        Ok(notions) => Ok(notions),
        Err(LineError::Text(fault)) => Err(NotionError::Text(NotionFault {
            line: fault.line,
            kind: fault.kind,
        })),
        Err(LineError::OutOfMemory) => Err(NotionError::OutOfMemory),
    }
}

impl Grammar for Draft {
    type Value = Notions;

    type Kind = NotionKind;

    ghost form = { notion_form };

    fn start(alloc: Global) -> Draft {
        Draft::new(alloc)
    }

    fn take_line(
        &mut self,
        alloc: Global,
        line: &str,
        _number: u64,
    ) -> Result<Option<NotionKind>, AllocError> {
        match entry_in(alloc, line)? {
            Ok(entry) => place(self, entry),
            Err(kind) => Ok(Some(kind)),
        }
    }

    fn finish(self, lines: u64) -> Result<Result<Notions, LineFault<NotionKind>>, AllocError> {
        if self.len() == 0 {
            return Ok(Err(LineFault {
                line: lines + 1,
                kind: NotionKind::NoNotion,
            }));
        }
        Ok(Ok(Notions::of_lines(self.into_entries())))
    }

    fn limit() -> usize {
        TEXT_LIMIT
    }

    fn too_long() -> NotionKind {
        NotionKind::TooLong
    }

    fn not_text() -> NotionKind {
        NotionKind::NotText
    }
}

// Puts the notion after the others. Answers why there is no place for it, if so.
fn place(draft: &mut Draft, entry: Entry) -> Result<Option<NotionKind>, AllocError>
    ensures { IfOk result (λ fault. MatchOption fault (IsPlaced draft.old (notion_in entry) draft.new) (IsPlaceFault draft.old (notion_in entry))) }
{
    if draft.has_name(&entry.name) {
        return Ok(Some(NotionKind::Repeated));
    }
    if draft.len() == MAX_NOTIONS {
        return Ok(Some(NotionKind::TooMany));
    }
    draft.push(entry)?;
    Ok(None)
}
