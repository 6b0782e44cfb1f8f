ghost use Rattle.spectro_theory.specs.LawsOfGenerations.{
  LateGenerationsAreExact,
  LateGenerationsStay,
  MarksAreByChange,
  NextRowsAreGenerations,
  PartsAreLow,
  PricesStandOnAFloor,
  RoundsAreGenerations,
  RowsAreByPlace,
  RowsListTheGeneration,
  SettledGenerationsAreExact,
  SolvedRowsAffordTheirPrices,
  UnmarkedPairsKeepTheirLists,
};

/// What is won in at most `k` rounds is just what generation `k` covers.
pub fn rounds_are_generations()
    ensures { RoundsAreGenerations }
{}

/// The rows of a generation make those of the next one.
pub fn next_rows_are_generations()
    ensures { NextRowsAreGenerations }
{}

/// A pair has the row that stands at its first place.
pub fn rows_are_by_place()
    ensures { RowsAreByPlace }
{}

/// The rows of a generation list it at each of the pairs.
pub fn rows_list_the_generation()
    ensures { RowsListTheGeneration }
{}

/// From as many generations on as there are pairs, the next one changes nothing.
pub fn late_generations_stay()
    ensures { LateGenerationsStay }
{}

/// A generation that the next one leaves as it is has just the least prices.
pub fn settled_generations_are_exact()
    ensures { SettledGenerationsAreExact }
{}

/// So has each generation from as many on as there are pairs.
pub fn late_generations_are_exact()
    ensures { LateGenerationsAreExact }
{}

/// After generation `k` each of the parts 1 to 6 of a price is at most `k`, and the weighted depth at most `255 * k`.
pub fn parts_are_low()
    ensures { PartsAreLow }
{}

/// Where no step weighs less than `least`, all that a generation affords has a conjunction, and to tell a state from some
/// others takes an observation of that weight too.
pub fn prices_stand_on_a_floor()
    ensures { PricesStandOnAFloor }
{}

/// A generation after the first evaluates just the pairs of which some follower changed its list in the one before.
pub fn marks_are_by_change()
    ensures { MarksAreByChange }
{}

/// A pair that a generation does not evaluate keeps its list.
pub fn unmarked_pairs_keep_their_lists()
    ensures { UnmarkedPairsKeepTheirLists }
{}

/// Solved rows afford each price that they list, so an observation or a split fits it.
pub fn solved_rows_afford_their_prices()
    ensures { SolvedRowsAffordTheirPrices }
{}
