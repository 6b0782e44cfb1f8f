/// How many parts of a price are shown.
#[derive(Clone, Copy, Debug, PartialEq, Eq)]
pub enum Parts {
    /// All but the weighted depth.
    Six,
    /// All of them.
    Seven,
}
