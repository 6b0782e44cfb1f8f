ghost use Rattle.spectro_theory.specs.LawsOfNotions.{
  FirstWithinIsShown,
  LeastPricesAreOne,
  LeastPricesAreReached,
  LeastPricesExist,
  NotionsHoldByLeastPrices,
  SmallerBoundsHoldMore,
};

/// A state and a set have at most one list of least prices.
pub fn least_prices_are_one()
    ensures { LeastPricesAreOne }
{}

/// A state and a set have a list of least prices.
pub fn least_prices_exist()
    ensures { LeastPricesExist }
{}

/// A distinguishing formula that costs at most a least price costs just that.
pub fn least_prices_are_reached()
    ensures { LeastPricesAreReached }
{}

/// A notion holds exactly where no least price is within its bound.
pub fn notions_hold_by_least_prices()
    ensures { NotionsHoldByLeastPrices }
{}

/// The first least price within a bound is that of a distinguishing formula, which no other undercuts.
pub fn first_within_is_shown()
    ensures { FirstWithinIsShown }
{}

/// Where a greater bound holds, so does each smaller one.
pub fn smaller_bounds_hold_more()
    ensures { SmallerBoundsHoldMore }
{}
