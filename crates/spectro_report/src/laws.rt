ghost use Rattle.spectro_report.specs.LawsOfReports.{ReportsAreOne, ReportsExist, ReportsHaveOneText};

use spectro_build::{
    built_nodes_are_exact, listed_prices_have_a_sheet, solved_tables_build_one_sheet,
};
use spectro_theory::reached_pairs_are_one;

/// Two systems have at most one report, by the same weights and for the same notions.
pub fn reports_are_one()
    ensures { ReportsAreOne }
{
    reached_pairs_are_one();
    solved_tables_build_one_sheet();
}

/// All reports on two systems, by the same weights and for the same notions, have the same text.
pub fn reports_have_one_text()
    ensures { ReportsHaveOneText }
{
    reports_are_one();
}

/// Any two systems have a report.
pub fn reports_exist()
    ensures { ReportsExist }
{
    listed_prices_have_a_sheet();
    built_nodes_are_exact();
}
