ghost use Rattle.spectro_weights.specs.Laws.{
  EachTextHasAWeighingOrAFault,
  EachTextHasAtMostOneFirstFault,
  EachTextHasAtMostOneWeighing,
  FaultsOfFrontsStay,
  LongFrontsAreNoTexts,
  TextsOfWeighingsHaveNoFault,
};

/// A text is of at most one weighing.
pub fn a_text_has_at_most_one_weighing()
    ensures { EachTextHasAtMostOneWeighing }
{}

/// A text has at most one first fault.
pub fn a_text_has_at_most_one_first_fault()
    ensures { EachTextHasAtMostOneFirstFault }
{}

/// The text of a weighing has no fault.
pub fn texts_of_weighings_have_no_fault()
    ensures { TextsOfWeighingsHaveNoFault }
{}

/// Each text is of a weighing or has a first fault.
pub fn a_text_has_a_weighing_or_a_fault()
    ensures { EachTextHasAWeighingOrAFault }
{}

/// The fault of as many bytes as are read is that of the whole text.
pub fn faults_of_fronts_stay()
    ensures { FaultsOfFrontsStay }
{}

/// As many bytes as are read are no text of a weighing, where there are so many.
pub fn long_fronts_are_no_texts()
    ensures { LongFrontsAreNoTexts }
{}
