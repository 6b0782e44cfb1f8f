ghost use Rattle.std.specs.Prelude.{◌≡◌, IfOk};
ghost use Rattle.spectro_aut.specs.Grammar.{IsWithinLimits};
ghost use Rattle.spectro_aut.specs.Reading.{header_in, header_of, header_within};

use crate::AutKind;
use crate::fields::{before_last, field_number, split_at_first};
use spectro_io::trim_start;

const MAX_STATES: u64 = 65_536;

const MAX_TRANSITIONS: u64 = 1_000_000;

/// The numbers of a header. One that is greater than a `u64` is the greatest.
#[derive(Clone, Copy)]
pub(crate) struct Header {
    pub(crate) initial: u64,
    pub(crate) transitions: u64,
    pub(crate) states: u64,
}

impl Header {
    // The header, if it keeps the limits.
    fn within_limits(self) -> Result<Header, AutKind>
        ensures header { result ≡ header_within self }
        ensures limits { IfOk result (λ header. IsWithinLimits header.initial header.transitions header.states) }
    {
        if self.states > MAX_STATES {
            return Err(AutKind::TooManyStates);
        }
        if self.transitions > MAX_TRANSITIONS {
            return Err(AutKind::TooManyTransitions);
        }
        if self.states == 0 {
            return Err(AutKind::NoState);
        }
        if self.initial >= self.states {
            return Err(AutKind::BadInitial);
        }
        Ok(self)
    }
}

// The numbers behind `des`.
#[tactic(auto, unfolding(crate::specs::Reading::header_of))]
fn header_of(rest: &[u8]) -> Option<Header>
    ensures { result ≡ header_of rest.now }
{
    let opened = trim_start(rest).strip_prefix(b"(")?;
    let fields = before_last(b')', opened)?;
    let (initial, others) = split_at_first(fields, b',')?;
    let (transitions, states) = split_at_first(others, b',')?;
    let initial = field_number(initial)?;
    let transitions = field_number(transitions)?;
    let states = field_number(states)?;
    Some(Header {
        initial,
        transitions,
        states,
    })
}

/// The header that the trimmed line is, or its fault.
#[tactic(auto, unfolding(crate::specs::Reading::header_in))]
pub(crate) fn header_in(line: &[u8]) -> Result<Header, AutKind>
    ensures header { result ≡ header_in line.now }
    ensures limits { IfOk result (λ header. IsWithinLimits header.initial header.transitions header.states) }
{
    let Some(rest) = line.strip_prefix(b"des") else {
        return Err(AutKind::NoHeader);
    };
    let Some(header) = header_of(rest) else {
        return Err(AutKind::BadHeader);
    };
    header.within_limits()
}
