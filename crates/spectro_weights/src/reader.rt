ghost use Rattle.std.specs.Prelude.{IfOk, IfErr, MatchOption};
ghost use Rattle.spectro_weights.specs.Faults.{IsPlaceFault};
ghost use Rattle.spectro_weights.specs.LineReading.{IsPlaced, weight_in};
ghost use Rattle.spectro_weights.specs.WeightTexts.{IsRefused, IsWeightText, weight_form};

use crate::line::{Entry, entry_in};
use crate::{MAX_LABELS, WeightError, WeightFault, WeightKind, Weights};
use spectro_io::TEXT_LIMIT;
use spectro_lines::{Grammar, LineError, LineFault, read};
use std::alloc::{AllocError, Global};

/// The weights of which the bytes are a text.
pub fn read_weights(alloc: Global, bytes: &[u8]) -> Result<Weights, WeightError>
    ensures ok { IfOk result (IsWeightText bytes.now) }
    ensures refused { IfErr result (IsRefused bytes.now) }
{
    match read::<Weights>(alloc, bytes) {
        Ok(weights) => Ok(weights),
        Err(LineError::Text(fault)) => Err(WeightError::Text(WeightFault {
            line: fault.line,
            kind: fault.kind,
        })),
        Err(LineError::OutOfMemory) => Err(WeightError::OutOfMemory),
    }
}

impl Grammar for Weights {
    type Value = Weights;

    type Kind = WeightKind;

    ghost form = { weight_form };

    fn start(alloc: Global) -> Weights {
        Weights::new(alloc)
    }

    fn take_line(
        &mut self,
        alloc: Global,
        line: &str,
        _number: u64,
    ) -> Result<Option<WeightKind>, AllocError> {
        match entry_in(alloc, line)? {
            Ok(entry) => place(self, entry),
            Err(kind) => Ok(Some(kind)),
        }
    }

    fn finish(self, _lines: u64) -> Result<Result<Weights, LineFault<WeightKind>>, AllocError> {
        Ok(Ok(self))
    }

    fn limit() -> usize {
        TEXT_LIMIT
    }

    fn too_long() -> WeightKind {
        WeightKind::TooLong
    }

    fn not_text() -> WeightKind {
        WeightKind::NotText
    }
}

// Puts the entry behind the others. Answers why there is no place for it, if so.
fn place(weights: &mut Weights, entry: Entry) -> Result<Option<WeightKind>, AllocError>
    ensures { IfOk result (λ fault. MatchOption fault (IsPlaced weights.old (weight_in entry) weights.new) (IsPlaceFault weights.old (weight_in entry))) }
{
    if weights.has_label(&entry.label) {
        return Ok(Some(WeightKind::Repeated));
    }
    if weights.label_count() as usize == MAX_LABELS {
        return Ok(Some(WeightKind::TooManyLabels));
    }
    weights.insert(entry.label, entry.weight)?;
    Ok(None)
}
