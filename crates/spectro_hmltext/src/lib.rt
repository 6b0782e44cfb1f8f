//! Texts of formulas, and of the sheets that they share their parts in: read, and written.
#![tactic(auto)]

mod error;
mod label;
mod laws;
mod lengths;
mod node_line;
mod node_line_laws;
mod parser;
mod printer;
mod quoted_label;
mod sheet_writer;
mod stop;
mod token;

pub use error::{ParseError, TextFault, TextKind};
pub use label::write_label;
pub use laws::{
    a_text_has_a_formula_or_a_fault, a_text_has_at_most_one_first_fault,
    a_text_has_at_most_one_formula, printed_texts_are_read, printed_texts_are_short,
    texts_of_formulas_have_no_fault,
};
pub use lengths::text_lengths;
pub use node_line::{NodeError, parse_node_line};
pub use node_line_laws::{
    a_line_has_a_node_or_a_fault, a_line_has_at_most_one_fault, a_line_has_at_most_one_node,
    lines_of_nodes_have_no_fault, written_nodes_are_read,
};
pub use parser::{MAX_TEXT_BYTES, Parsed, parse};
pub use printer::{FormulaText, Printed, print, print_with_lengths};
pub use sheet_writer::{print_sheet, put_sheet};
