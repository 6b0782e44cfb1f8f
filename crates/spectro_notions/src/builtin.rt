ghost use Rattle.std.specs.Prelude.{◌≡◌, ◌<◌, Some, Contains, MatchOption};
ghost use Rattle.spectro_spec.specs.Spectrum.{notions};
ghost use Rattle.spectro_notions.specs.Bounds.{bound_of};
ghost use Rattle.spectro_notions.specs.Tables.{bound_at, name_at, names_of};

use crate::Bound;

/// How many notions the spectrum has.
pub const NOTION_COUNT: u32 = 13;

// The name and the parts of the bound of each notion. The names are after van Glabbeek's linear-time branching-time
// spectrum; that the notions of these names have these bounds there is not claimed.
static NOTIONS: [(&str, [Option<u32>; 6]); 13] = [
    (
        "enabledness",
        [Some(1), Some(1), Some(0), Some(0), Some(0), Some(0)],
    ),
    (
        "traces",
        [None, Some(1), Some(0), Some(0), Some(0), Some(0)],
    ),
    (
        "failures",
        [None, Some(2), Some(0), Some(0), Some(1), Some(1)],
    ),
    (
        "revivals",
        [None, Some(2), Some(1), Some(0), Some(1), Some(1)],
    ),
    (
        "readiness",
        [None, Some(2), Some(1), Some(1), Some(1), Some(1)],
    ),
    (
        "failure-traces",
        [None, None, None, Some(0), Some(1), Some(1)],
    ),
    (
        "ready-traces",
        [None, None, None, Some(1), Some(1), Some(1)],
    ),
    (
        "impossible-futures",
        [None, Some(2), Some(0), Some(0), None, Some(1)],
    ),
    (
        "possible-futures",
        [None, Some(2), None, None, None, Some(1)],
    ),
    ("simulation", [None, None, None, None, Some(0), Some(0)]),
    (
        "ready-simulation",
        [None, None, None, None, Some(1), Some(1)],
    ),
    (
        "two-nested-simulation",
        [None, None, None, None, None, Some(1)],
    ),
    ("bisimulation", [None, None, None, None, None, None]),
];

/// The name of the spectrum's notion with this number.
pub fn name(k: u32) -> &'static str
    requires { k < NOTION_COUNT }
    ensures { name_at notions k ≡ Some result.now }
{
    NOTIONS[k as usize].0
}

/// The bound of the spectrum's notion with this number.
pub fn bound(k: u32) -> Bound
    requires { k < NOTION_COUNT }
    ensures { bound_at notions k ≡ Some (bound_of result.parts) }
{
    Bound {
        parts: NOTIONS[k as usize].1,
    }
}

/// The number of the spectrum's notion with this name. `None` exactly where no notion of it has the name.
pub fn by_name(text: &str) -> Option<u32>
    ensures { MatchOption result (¬ Contains (names_of notions) text.now) (λ k. name_at notions k ≡ Some text.now) }
{
    for k in 0..NOTION_COUNT {
        if name(k) == text {
            return Some(k);
        }
    }
    None
}
