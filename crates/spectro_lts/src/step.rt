/// A step: the number of its source, of its label and of its target.
#[derive(Clone, Copy, Debug, PartialEq, Eq)]
pub struct Step {
    pub from: u32,
    pub label: u32,
    pub to: u32,
}
