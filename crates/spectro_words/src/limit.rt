ghost use Rattle.std.specs.Prelude.{◌≡◌};
ghost use Rattle.spectro_words.specs.Limits.{limit_of};
ghost use Rattle.spectro_words.specs.Words.{named};

use crate::numbers::number_up_to;

/// The limit of positions where none is asked for.
pub const DEFAULT_LIMIT: u32 = 200_000;

// The greatest limit of positions that may be asked for.
const MAX_LIMIT: u32 = 1_000_000;

// The limit of positions that the word asks for, or the default one where none is given.
pub fn limit_of(word: Option<&str>) -> Option<u32>
    ensures { result ≡ limit_of (named word.entry) }
{
    match word {
        None => Some(DEFAULT_LIMIT),
        Some(word) => number_up_to(MAX_LIMIT, word),
    }
}
