//! Weights: how much it costs to observe each label, and texts that are read as weights.
#![tactic(auto)]

mod error;
mod laws;
mod line;
mod reader;
mod weights;

pub use error::{WeightError, WeightFault, WeightKind};
pub use laws::{
    a_text_has_a_weighing_or_a_fault, a_text_has_at_most_one_first_fault,
    a_text_has_at_most_one_weighing, faults_of_fronts_stay, long_fronts_are_no_texts,
    texts_of_weighings_have_no_fault,
};
pub use reader::read_weights;
pub use weights::{MAX_LABELS, Weights};
