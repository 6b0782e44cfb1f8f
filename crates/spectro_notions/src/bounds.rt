ghost use Rattle.std.specs.Prelude.{◌↔◌, IsTrue};
ghost use Rattle.spectro_spec.specs.Notion.{IsBelow, IsNoGreater, IsUpTo, IsWithin};
ghost use Rattle.spectro_energy.specs.Energy.{price_of};
ghost use Rattle.spectro_notions.specs.Bounds.{bound_of};

use spectro_energy::Energy;

/// How great each part of a price may be, in the order of an energy's first six parts. `None` is no bound. The weighted
/// depth never has one.
#[derive(Clone, Copy, Debug, PartialEq, Eq)]
pub struct Bound {
    pub parts: [Option<u32>; 6],
}

impl Bound {
    /// Whether each part is at most the other's, no bound being the greatest.
    pub(crate) fn is_below(self, other: Bound) -> bool
        ensures { IsTrue result ↔ IsBelow (bound_of self.parts) (bound_of other.parts) }
    {
        let lows = self.parts;
        let mosts = other.parts;
        is_no_greater(lows[0], mosts[0])
            && is_no_greater(lows[1], mosts[1])
            && is_no_greater(lows[2], mosts[2])
            && is_no_greater(lows[3], mosts[3])
            && is_no_greater(lows[4], mosts[4])
            && is_no_greater(lows[5], mosts[5])
    }
}

/// Whether each of the first six parts is at most its bound, where there is one.
pub fn within(e: Energy, bound: Bound) -> bool
    ensures { IsTrue result ↔ IsWithin (price_of e.parts) (bound_of bound.parts) }
{
    let prices = e.parts;
    let bounds = bound.parts;
    is_up_to(prices[0], bounds[0])
        && is_up_to(prices[1], bounds[1])
        && is_up_to(prices[2], bounds[2])
        && is_up_to(prices[3], bounds[3])
        && is_up_to(prices[4], bounds[4])
        && is_up_to(prices[5], bounds[5])
}

fn is_up_to(part: u32, most: Option<u32>) -> bool
    ensures { IsTrue result ↔ IsUpTo part most }
{
    match most {
        None => true,
        Some(most) => part <= most,
    }
}

fn is_no_greater(low: Option<u32>, most: Option<u32>) -> bool
    ensures { IsTrue result ↔ IsNoGreater low most }
{
    match (low, most) {
        (_, None) => true,
        (None, Some(_)) => false,
        (Some(low), Some(most)) => low <= most,
    }
}
