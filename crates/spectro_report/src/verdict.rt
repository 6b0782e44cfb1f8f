use spectro_energy::Energy;
use spectro_hmltext::FormulaText;

/// How many bytes the text of a formula may have to be shown in its line.
pub const MAX_INLINE_BYTES: u32 = 1_000;

/// What is said of a notion from one state to another.
#[derive(Drop)]
pub enum Verdict {
    /// No formula within the bound of the notion distinguishes the states.
    Holds,
    /// One does: the formula of the node, at the first of the least prices within the bound.
    Fails {
        price: Energy,
        node: usize,
        shown: Shown,
    },
}

/// How a formula is shown.
#[derive(Drop)]
pub enum Shown {
    /// By its text.
    Inline(FormulaText),
    /// By the number of its node, since its text has more than 1,000 bytes.
    ByNode,
}
