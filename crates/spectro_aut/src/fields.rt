ghost use Rattle.std.specs.Prelude.{◌≡◌, ◌==◌, ◌<◌, length, position, reverse, IfSome};
ghost use Rattle.std.specs.Option.{option_map};
ghost use Rattle.spectro_aut.specs.Reading.{before_last, field_number, first_split, last_split};

use spectro_io::{number, trim};

/// The value of the digits between blanks, or the greatest `u64` where it is greater.
pub(crate) fn field_number(text: &[u8]) -> Option<u64>
    ensures { result ≡ field_number text.now }
{
    number(trim(text))
}

/// What stands before the byte at the end.
pub(crate) fn before_last(byte: u8, text: &[u8]) -> Option<&[u8]>
    ensures { option_map (λ front. front.now) result ≡ before_last byte text.now }
{
    match text {
        [front @ .., last] if *last == byte => Some(front),
        _ => None,
    }
}

fn first_place(text: &[u8], sought: u8) -> Option<usize>
    ensures { result ≡ position (λ byte. byte == sought) text.now }
{
    text.iter().position(|byte| *byte == sought)
}

/// What stands before and after the first such byte.
#[tactic(auto, unfolding(crate::specs::Reading::first_split))]
pub(crate) fn split_at_first(text: &[u8], sought: u8) -> Option<(&[u8], &[u8])>
    ensures { option_map (λ parts. (parts.0.now, parts.1.now)) result ≡ first_split sought text.now }
{
    let place = first_place(text, sought)?;
    Some((&text[..place], &text[place + 1..]))
}

fn last_place(text: &[u8], sought: u8) -> Option<usize>
    ensures place { result ≡ position (λ byte. byte == sought) (reverse text.now) }
    ensures within { IfSome result (λ place. place < length text.now) }
{
    text.iter().rev().position(|byte| *byte == sought)
}

/// What stands before and after the last such byte.
#[tactic(auto, unfolding(crate::specs::Reading::last_split))]
pub(crate) fn split_at_last(text: &[u8], sought: u8) -> Option<(&[u8], &[u8])>
    ensures { option_map (λ parts. (parts.0.now, parts.1.now)) result ≡ last_split sought text.now }
{
    let behind = last_place(text, sought)?;
    let place = text.len() - 1 - behind;
    Some((&text[..place], &text[place + 1..]))
}
