//! Aldebaran texts that are read as systems, whole or in pieces, and systems that are written as such texts.
#![tactic(auto)]

mod error;
mod feed;
mod fields;
mod header;
mod laws;
mod reader;
mod reading;
mod transition;
mod writer;

pub use error::{AutError, AutFault, AutKind};
pub use feed::Feed;
pub use laws::{
    a_text_has_a_system_or_a_fault, a_text_has_at_most_one_first_fault,
    a_text_has_at_most_one_system, faults_of_fronts_stay, long_fronts_are_no_texts,
    texts_are_short, texts_keep_the_limits, texts_of_systems_have_no_fault, written_texts_are_read,
};
pub use reader::read;
pub use writer::write;
