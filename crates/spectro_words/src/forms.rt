ghost use Rattle.std.specs.Prelude.{◌≡◌, ◌∷◌, IfSome, codes};
ghost use Rattle.std.specs.Option.{option_map};
ghost use Rattle.spectro_words.specs.Asked.{asked};
ghost use Rattle.spectro_words.specs.Commands.{IsInRange};
ghost use Rattle.spectro_words.specs.Reading.{command};
ghost use Rattle.spectro_words.specs.Words.{words_of};

use crate::command::Command;
use crate::demo::demo_number_of;
use crate::limit::limit_of;
use crate::options::take_option;

// The command of the words after the verb: FORMULA FILE [--weights W].
pub fn eval(words: &[String]) -> Option<Command<'_>>
    ensures command { option_map asked result ≡ command (codes "eval" ∷ words_of words.now) }
    ensures range { IfSome result (λ command. IsInRange (asked command)) }
{
    let [formula, file, options @ ..] = words else {
        return None;
    };
    let (weights, []) = take_option(options, "--weights") else {
        return None;
    };
    Some(Command::Eval {
        formula: formula.as_str(),
        file: file.as_str(),
        weights,
    })
}

// The command of the words after the verb: FILE.
pub fn rewrite(words: &[String]) -> Option<Command<'_>>
    ensures command { option_map asked result ≡ command (codes "rewrite" ∷ words_of words.now) }
    ensures range { IfSome result (λ command. IsInRange (asked command)) }
{
    let [file] = words else {
        return None;
    };
    Some(Command::Rewrite {
        file: file.as_str(),
    })
}

// The command of the words after the verb: FORMULA [--weights W].
pub fn price(words: &[String]) -> Option<Command<'_>>
    ensures command { option_map asked result ≡ command (codes "price" ∷ words_of words.now) }
    ensures range { IfSome result (λ command. IsInRange (asked command)) }
{
    let [formula, options @ ..] = words else {
        return None;
    };
    let (weights, []) = take_option(options, "--weights") else {
        return None;
    };
    Some(Command::Price {
        formula: formula.as_str(),
        weights,
    })
}

// The command of the words after the verb: LEFT RIGHT [--limit N].
pub fn size(words: &[String]) -> Option<Command<'_>>
    ensures command { option_map asked result ≡ command (codes "size" ∷ words_of words.now) }
    ensures range { IfSome result (λ command. IsInRange (asked command)) }
{
    let [left, right, options @ ..] = words else {
        return None;
    };
    let (limit, []) = take_option(options, "--limit") else {
        return None;
    };
    Some(Command::Size {
        left: left.as_str(),
        right: right.as_str(),
        limit: limit_of(limit)?,
    })
}

// The command of the words after the verb: LEFT RIGHT [--weights W] [--notions FILE] [--limit N].
pub fn compare(words: &[String]) -> Option<Command<'_>>
    ensures command { option_map asked result ≡ command (codes "compare" ∷ words_of words.now) }
    ensures range { IfSome result (λ command. IsInRange (asked command)) }
{
    let [left, right, options @ ..] = words else {
        return None;
    };
    let (weights, options) = take_option(options, "--weights");
    let (notions, options) = take_option(options, "--notions");
    let (limit, []) = take_option(options, "--limit") else {
        return None;
    };
    Some(Command::Compare {
        left: left.as_str(),
        right: right.as_str(),
        weights,
        notions,
        limit: limit_of(limit)?,
    })
}

// The command of the words after the verb: N.
pub fn demo(words: &[String]) -> Option<Command<'_>>
    ensures command { option_map asked result ≡ command (codes "demo" ∷ words_of words.now) }
    ensures range { IfSome result (λ command. IsInRange (asked command)) }
{
    let [number] = words else {
        return None;
    };
    Some(Command::Demo {
        number: demo_number_of(number.as_str())?,
    })
}
