ghost use Rattle.std.specs.Prelude.{◌≡◌};
ghost use Rattle.spectro_energy.specs.Energy.{price_of};
ghost use Rattle.spectro_solve.specs.Tables.{HasRoom};
ghost use Rattle.spectro_build.specs.Roles.{cost_in};

use spectro_energy::{Energy, Update};

/// What a formula is for in the one that is built.
#[derive(Clone, Copy)]
pub(crate) enum Role {
    /// It is true after a step under a label of this weight.
    AfterStep { weight: u8 },
    /// It is that of the clause that refutes the left part.
    Deepest,
    /// It is that of another positive clause.
    Positive,
    /// It is that of a negative clause.
    Negative,
}

impl Role {
    /// What it costs to use a formula of price `f` in this role.
    pub(crate) fn cost(self, f: Energy) -> Energy
        requires { HasRoom (price_of f.parts) }
        ensures { price_of result.parts ≡ cost_in self (price_of f.parts) }
    {
        match self {
            Role::AfterStep { weight } => f.inverse(Update::Observe { weight }),
            Role::Deepest => f.inverse(Update::Deepest).inverse(Update::Conjoin),
            Role::Positive => f
                .inverse(Update::Positive)
                .inverse(Update::Other)
                .inverse(Update::Conjoin),
            Role::Negative => f
                .inverse(Update::Negative)
                .inverse(Update::Other)
                .inverse(Update::Conjoin),
        }
    }
}
