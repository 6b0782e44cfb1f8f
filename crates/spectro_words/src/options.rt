ghost use Rattle.std.specs.Prelude.{◌≡◌};
ghost use Rattle.spectro_words.specs.Reading.{after_option, option_word};
ghost use Rattle.spectro_words.specs.Words.{named, words_of};

// The word of the option, if the words begin with its name, and the words after it.
pub fn take_option<'a>(words: &'a [String], name: &str) -> (Option<&'a str>, &'a [String])
    ensures word { named result.0 ≡ option_word name.now (words_of words.now) }
    ensures rest { words_of result.1.now ≡ after_option name.now (words_of words.now) }
{
    match words {
        [option, word, rest @ ..] if option.as_str() == name => (Some(word.as_str()), rest),
        _ => (None, words),
    }
}
