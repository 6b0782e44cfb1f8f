ghost use Rattle.spectro_theory.specs.LawsOfPrices.{
  InversesAreLeast,
  MinimalElementsAreByCover,
  MinimalElementsAreMinimal,
  MinimalElementsAreOne,
  MinimalElementsGrow,
  OthersAreNoDeeper,
  UnitWeightsChangeNothing,
};

/// The inverse of an update at `f` is at most `e` exactly where the update can be paid from `e` and leaves at least `f`.
pub fn inverses_are_least()
    ensures { InversesAreLeast }
{}

/// Where each label weighs 1, the weighted depth of a formula is its depth of observations.
pub fn unit_weights_change_nothing()
    ensures { UnitWeightsChangeNothing }
{}

/// No other positive clause is deeper than the deepest.
pub fn others_are_no_deeper()
    ensures { OthersAreNoDeeper }
{}

/// The minimal elements of a list rise and are apart, each is a member, and each member is covered.
pub fn minimal_elements_are_minimal()
    ensures { MinimalElementsAreMinimal }
{}

/// No other list is that of the minimal elements.
pub fn minimal_elements_are_one()
    ensures { MinimalElementsAreOne }
{}

/// Lists that cover alike have the same minimal elements.
pub fn minimal_elements_are_by_cover()
    ensures { MinimalElementsAreByCover }
{}

/// One more at the end of a list is inserted into its minimal elements.
pub fn minimal_elements_grow()
    ensures { MinimalElementsGrow }
{}
