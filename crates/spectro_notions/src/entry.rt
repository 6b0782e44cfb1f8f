use crate::Bound;

/// A notion as a line has it.
#[derive(Drop)]
pub(crate) struct Entry {
    pub(crate) name: String,
    pub(crate) bound: Bound,
}
