ghost use Rattle.std.specs.Prelude.{◌≡◌};

use spectro_hml::Sheet;
use std::marker::Model;

/// A sheet, and the number of the node of each wanted price.
#[derive(Drop)]
pub struct Built {
    pub sheet: Sheet,
    pub nodes: NodeList,
}

/// The numbers of nodes.
#[derive(Drop)]
pub struct NodeList {
    pub(crate) numbers: Vec<usize>,
}

impl Model for NodeList {
    ghost use Rattle.std.specs.Prelude.{ℕ, List};

    ghost Value = { List ℕ };

    ghost view = { λ nodes. nodes.numbers.items };
}

impl NodeList {
    /// The numbers in order.
    pub fn as_slice(&self) -> &[usize]
        ensures { result.now ≡ self.now }
    {
        self.numbers.as_slice()
    }
}
