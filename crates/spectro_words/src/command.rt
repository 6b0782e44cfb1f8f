ghost use Rattle.std.specs.Prelude.{◌≡◌, IfSome};
ghost use Rattle.std.specs.Option.{option_map};
ghost use Rattle.spectro_words.specs.Asked.{asked};
ghost use Rattle.spectro_words.specs.Commands.{IsInRange};
ghost use Rattle.spectro_words.specs.Reading.{command};
ghost use Rattle.spectro_words.specs.Words.{words_of};

use crate::forms::{compare, demo, eval, price, rewrite, size};

/// A command with its words.
#[derive(Clone, Copy)]
pub enum Command<'a> {
    /// Whether the formula is true at the initial state of the file's system, and what it costs, under the weights of
    /// another file if one is named.
    Eval {
        formula: &'a str,
        file: &'a str,
        weights: Option<&'a str>,
    },
    /// The text that is written of the file's system.
    Rewrite {
        file: &'a str,
    },
    /// The text that is printed of the formula, and what it costs, under the weights of a file if one is named.
    Price {
        formula: &'a str,
        weights: Option<&'a str>,
    },
    /// How many pairs and positions the comparison of the files' systems has, if it has at most so many positions.
    Size {
        left: &'a str,
        right: &'a str,
        limit: u32,
    },
    /// The report on the files' systems, under the weights of a third file and the notions of a fourth if they are named, if
    /// the comparison has at most so many positions.
    Compare {
        left: &'a str,
        right: &'a str,
        weights: Option<&'a str>,
        notions: Option<&'a str>,
        limit: u32,
    },
    /// The report on the two systems of the demo of this number, summed up.
    Demo {
        number: u32,
    },
}

/// The command that the words are, if they are one.
pub fn command_of(words: &[String]) -> Option<Command<'_>>
    ensures command { option_map asked result ≡ command (words_of words.now) }
    ensures range { IfSome result (λ command. IsInRange (asked command)) }
{
    let [verb, words @ ..] = words else {
        return None;
    };
    match verb.as_str() {
        "eval" => eval(words),
        "rewrite" => rewrite(words),
        "price" => price(words),
        "size" => size(words),
        "compare" => compare(words),
        "demo" => demo(words),
        _ => None,
    }
}
