//! Notions: bounds on prices under names, the thirteen of the spectrum and tables that are read from texts.
#![tactic(auto)]

mod bounds;
mod builtin;
mod draft;
mod entry;
mod error;
mod laws;
mod line;
mod notions;
mod reader;
mod words;

pub use bounds::{Bound, within};
pub use builtin::{NOTION_COUNT, bound, by_name, name};
pub use error::{NotionError, NotionFault, NotionKind};
pub use laws::{
    a_text_has_a_table_or_a_fault, a_text_has_at_most_one_first_fault,
    a_text_has_at_most_one_table, faults_of_fronts_stay, long_fronts_are_no_texts,
    notions_below_hold_more, texts_keep_the_limits, texts_of_tables_have_no_fault,
};
pub use notions::{MAX_NOTIONS, Notions};
pub use reader::read_notions;
pub use words::MAX_NAME_BYTES;
