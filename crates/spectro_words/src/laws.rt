ghost use Rattle.spectro_words.specs.Laws.{CommandsAreFilledForms, WordsAreAtMostOneCommand};

/// A command is read of words exactly where they fill a form, and it is the command of what fills the form.
pub fn commands_are_filled_forms()
    ensures { CommandsAreFilledForms }
{}

/// Words are at most one command.
pub fn words_are_at_most_one_command()
    ensures { WordsAreAtMostOneCommand }
{}
