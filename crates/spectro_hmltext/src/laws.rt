ghost use Rattle.spectro_hmltext.specs.Laws.{
  EachTextHasAFormulaOrAFault,
  EachTextHasAtMostOneFirstFault,
  EachTextHasAtMostOneFormula,
  PrintedTextsAreRead,
  PrintedTextsAreShort,
  TextsOfFormulasHaveNoFault,
};

/// A text is of at most one formula.
pub fn a_text_has_at_most_one_formula()
    ensures { EachTextHasAtMostOneFormula }
{}

/// A text has at most one first fault.
pub fn a_text_has_at_most_one_first_fault()
    ensures { EachTextHasAtMostOneFirstFault }
{}

/// The text of a formula has no fault.
pub fn texts_of_formulas_have_no_fault()
    ensures { TextsOfFormulasHaveNoFault }
{}

/// Each text of UTF-8 is of a formula or has a first fault.
pub fn a_text_has_a_formula_or_a_fault()
    ensures { EachTextHasAFormulaOrAFault }
{}

/// What is printed of a formula is a text of it, where the limits of a text hold.
pub fn printed_texts_are_read()
    ensures { PrintedTextsAreRead }
{}

/// What is printed of the formula of a text has at most 131,072 bytes.
pub fn printed_texts_are_short()
    ensures { PrintedTextsAreShort }
{}
