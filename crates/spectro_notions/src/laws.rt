ghost use Rattle.spectro_notions.specs.Laws.{
  EachTextHasATableOrAFault,
  EachTextHasAtMostOneFirstFault,
  EachTextHasAtMostOneTable,
  FaultsOfFrontsStay,
  LongFrontsAreNoTexts,
  NotionsBelowHoldMore,
  TextsKeepTheLimits,
  TextsOfTablesHaveNoFault,
};

/// Where a notion of a table holds, so does each notion below it.
pub fn notions_below_hold_more()
    ensures { NotionsBelowHoldMore }
{}

/// A text is of at most one table.
pub fn a_text_has_at_most_one_table()
    ensures { EachTextHasAtMostOneTable }
{}

/// A text has at most one first fault.
pub fn a_text_has_at_most_one_first_fault()
    ensures { EachTextHasAtMostOneFirstFault }
{}

/// The table of a text has 1 to 64 notions, with distinct names.
pub fn texts_keep_the_limits()
    ensures { TextsKeepTheLimits }
{}

/// The text of a table has no fault.
pub fn texts_of_tables_have_no_fault()
    ensures { TextsOfTablesHaveNoFault }
{}

/// Each text is of a table or has a first fault.
pub fn a_text_has_a_table_or_a_fault()
    ensures { EachTextHasATableOrAFault }
{}

/// The fault of as many bytes as are read is that of the whole text.
pub fn faults_of_fronts_stay()
    ensures { FaultsOfFrontsStay }
{}

/// As many bytes as are read are no text of a table, where there are so many.
pub fn long_fronts_are_no_texts()
    ensures { LongFrontsAreNoTexts }
{}
