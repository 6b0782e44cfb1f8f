ghost use Rattle.std.specs.Prelude.{◌≡◌};
ghost use Rattle.spectro_words.specs.Numbers.{number_up_to};

use spectro_io::number;

// How many digits a number may have.
const MAX_DIGITS: usize = 10;

// The number that the word asks for, from 1 to the greatest one.
pub fn number_up_to(greatest: u32, word: &str) -> Option<u32>
    ensures { result ≡ number_up_to greatest word.now }
{
    let asked = number(word.as_bytes())?;
    if word.len() > MAX_DIGITS || asked < 1 || asked > u64::from(greatest) {
        return None;
    }
    Some(asked as u32)
}
