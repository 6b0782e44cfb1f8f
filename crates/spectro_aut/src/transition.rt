ghost use Rattle.std.specs.Prelude.{◌≡◌};
ghost use Rattle.std.specs.Option.{option_map};
ghost use Rattle.spectro_aut.specs.Reading.{label_of, transition_of, utf8_of};

use crate::fields::{before_last, field_number, split_at_first, split_at_last};
use spectro_io::trim;

/// A transition as its line has it.
#[derive(Clone, Copy)]
pub(crate) struct Transition<'a> {
    pub(crate) source: u64,
    /// What is to be the label, without blanks at its ends.
    pub(crate) field: &'a [u8],
    pub(crate) target: u64,
}

/// The numbers and the label field of a transition.
#[tactic(auto, unfolding(crate::specs::Reading::transition_of))]
pub(crate) fn transition_of(line: &[u8]) -> Option<Transition<'_>>
    ensures { option_map (λ transition. record { source = transition.source; field = transition.field.now; target = transition.target }) result
        ≡ transition_of line.now }
{
    let opened = line.strip_prefix(b"(")?;
    let fields = before_last(b')', opened)?;
    let (source, others) = split_at_first(fields, b',')?;
    let (field, target) = split_at_last(others, b',')?;
    let source = field_number(source)?;
    let target = field_number(target)?;
    Some(Transition {
        source,
        field: trim(field),
        target,
    })
}

// The bytes as a text, where they are UTF-8.
fn utf8_of(bytes: &[u8]) -> Option<&str>
    ensures { option_map (λ text. text.now) result ≡ utf8_of bytes.now }
{
    str::from_utf8(bytes).ok()
}

/// The label of a field: what stands between its quotes, or the field itself, where it is not empty and has no quote.
#[tactic(auto, unfolding(crate::specs::Reading::label_of))]
pub(crate) fn label_of(field: &[u8]) -> Option<&str>
    ensures { option_map (λ label. label.now) result ≡ label_of field.now }
{
    if !field.is_empty() && !field.contains(&b'"') {
        return utf8_of(field);
    }
    let rest = field.strip_prefix(b"\"")?;
    utf8_of(before_last(b'"', rest)?)
}
