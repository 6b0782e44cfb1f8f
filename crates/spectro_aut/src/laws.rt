ghost use Rattle.spectro_aut.specs.Laws.{
  EachTextHasASystemOrAFault,
  EachTextHasAtMostOneFirstFault,
  EachTextHasAtMostOneSystem,
  FaultsOfFrontsStay,
  LongFrontsAreNoTexts,
  TextsAreShort,
  TextsOfSystemsHaveNoFault,
};
ghost use Rattle.spectro_aut.specs.RoundTrip.{TextsKeepTheLimits, WrittenTextsAreRead};

/// A text is of at most one system.
pub fn a_text_has_at_most_one_system()
    ensures { EachTextHasAtMostOneSystem }
{}

/// A text has at most one first fault.
pub fn a_text_has_at_most_one_first_fault()
    ensures { EachTextHasAtMostOneFirstFault }
{}

/// The text of a system has no fault.
pub fn texts_of_systems_have_no_fault()
    ensures { TextsOfSystemsHaveNoFault }
{}

/// Each text is of a system or has a first fault.
pub fn a_text_has_a_system_or_a_fault()
    ensures { EachTextHasASystemOrAFault }
{}

/// The text of a system is no longer than a text may be.
pub fn texts_are_short()
    ensures { TextsAreShort }
{}

/// The fault of as many bytes as are read is that of the whole text.
pub fn faults_of_fronts_stay()
    ensures { FaultsOfFrontsStay }
{}

/// As many bytes as are read are no text of a system, where there are so many.
pub fn long_fronts_are_no_texts()
    ensures { LongFrontsAreNoTexts }
{}

/// What is written of a system is a text of it, where the limits of a text hold.
pub fn written_texts_are_read()
    ensures { WrittenTextsAreRead }
{}

/// The system of a text keeps the limits of a text.
pub fn texts_keep_the_limits()
    ensures { TextsKeepTheLimits }
{}
