ghost use Rattle.spectro_build.specs.LawsOfBuilding.{
  BuiltNodesAreASheet,
  BuiltNodesAreExact,
  ATableBuildsOneSheet,
  ChoicesDescend,
  ListedPricesHaveAChoice,
  ChoicesTakeWhatIsListed,
  NeedsAreLeast,
  PlacesTellTheOrder,
  ListedPricesHaveASheet,
  SolvedTablesBuildOneSheet,
  SplitsTakeEachPairOnce,
};

/// The formula of a node that is built for a wanted price distinguishes the wanted pair, at just that price.
pub fn built_nodes_are_exact()
    ensures { BuiltNodesAreExact }
{}

/// A listed price of a solved table has a choice.
pub fn listed_prices_have_a_choice()
    ensures { ListedPricesHaveAChoice }
{}

/// What a choice takes is listed where the price is for which it is made.
pub fn choices_take_what_is_listed()
    ensures { ChoicesTakeWhatIsListed }
{}

/// What a choice takes has fewer observations and conjunctions together.
pub fn choices_descend()
    ensures { ChoicesDescend }
{}

/// The nodes that are built are a sheet.
pub fn built_nodes_are_a_sheet()
    ensures { BuiltNodesAreASheet }
{}

/// The clauses of a split are for different pairs.
pub fn splits_take_each_pair_once()
    ensures { SplitsTakeEachPairOnce }
{}

/// A sheet is built for listed prices.
pub fn listed_prices_have_a_sheet()
    ensures { ListedPricesHaveASheet }
{}

/// One sheet is built of a table for the wanted prices, and one number for each of them.
pub fn a_table_builds_one_sheet()
    ensures { ATableBuildsOneSheet }
{}

/// Two solved tables build the same sheet.
pub fn solved_tables_build_one_sheet()
    ensures { SolvedTablesBuildOneSheet }
{}

/// What is needed is the least that has the wanted and what each choice takes.
pub fn needs_are_least()
    ensures { NeedsAreLeast }
{}

/// Height, place of the pair and place of the price in its list tell the order of the nodes.
pub fn places_tell_the_order()
    ensures { PlacesTellTheOrder }
{}
