ghost use Rattle.std.specs.Prelude.{Option};
ghost use Rattle.spectro_run.specs.Held.{Held};
ghost use Rattle.spectro_run.specs.Outcome.{HasUtf8Formula, outcome_of};
ghost use Rattle.spectro_run.specs.Stages.{IsAtMostOne, IsSome};
ghost use Rattle.spectro_words.specs.Commands.{Command};

use spectro_aut::{
    a_text_has_a_system_or_a_fault, a_text_has_at_most_one_first_fault,
    a_text_has_at_most_one_system, texts_of_systems_have_no_fault,
};
use spectro_hmltext as formulas;
use spectro_notions as notions;
use spectro_report::{reports_are_one, reports_exist};
use spectro_theory::reached_pairs_are_one;
use spectro_weights as weights;

/// A command and what its files hold have at most one outcome: one status, and one row of bytes.
pub fn a_command_has_at_most_one_outcome()
    ensures { (asked : Option Command) (held : Held) → IsAtMostOne (outcome_of asked held) }
{
    a_text_has_at_most_one_system();
    a_text_has_at_most_one_first_fault();
    texts_of_systems_have_no_fault();
    formulas::a_text_has_at_most_one_formula();
    formulas::a_text_has_at_most_one_first_fault();
    formulas::texts_of_formulas_have_no_fault();
    weights::a_text_has_at_most_one_weighing();
    weights::a_text_has_at_most_one_first_fault();
    weights::texts_of_weighings_have_no_fault();
    notions::a_text_has_at_most_one_table();
    notions::a_text_has_at_most_one_first_fault();
    notions::texts_of_tables_have_no_fault();
    reached_pairs_are_one();
    reports_are_one();
}

/// A command and what its files hold have an outcome.
pub fn a_command_has_an_outcome()
    ensures { (asked : Option Command) (held : Held) → HasUtf8Formula asked → IsSome (outcome_of asked held) }
{
    a_text_has_a_system_or_a_fault();
    formulas::a_text_has_a_formula_or_a_fault();
    weights::a_text_has_a_weighing_or_a_fault();
    notions::a_text_has_a_table_or_a_fault();
    reports_exist();
}
