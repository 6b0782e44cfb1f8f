//! Energies: prices in seven numbers of 32 bits, their orders, the updates of the game on them, and how many of their
//! parts are shown.
#![tactic(auto)]

mod energy;
mod parts;
mod update;

pub use energy::Energy;
pub use parts::Parts;
pub use update::Update;
