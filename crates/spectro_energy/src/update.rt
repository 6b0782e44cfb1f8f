/// What a move of the game does to an energy.
#[derive(Clone, Copy, Debug, PartialEq, Eq)]
pub enum Update {
    /// A step under a label of this weight.
    Observe { weight: u8 },
    /// A split of the set.
    Conjoin,
    /// To the subset that the deepest positive clause refutes.
    Deepest,
    /// To a state that another clause refutes.
    Other,
    /// That clause is positive.
    Positive,
    /// That clause is negative.
    Negative,
}
