ghost use Rattle.std.specs.Prelude.{◌≡◌};
ghost use Rattle.spectro_words.specs.Demos.{demo_number_of};

use crate::numbers::number_up_to;

// The greatest number of a demo. Its comparison has 189,018 positions, which is within the limit where none is asked for.
const MAX_DEMO: u32 = 9_000;

// The number of the demo that the word asks for.
pub fn demo_number_of(word: &str) -> Option<u32>
    ensures { result ≡ demo_number_of word.now }
{
    number_up_to(MAX_DEMO, word)
}
