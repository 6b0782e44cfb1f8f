ghost use Rattle.spectro_hml.specs.Clauses.{ClausesComeInOrder};

/// Comparing two clauses answers `Less` exactly where the first comes before the second in a conjunction.
pub fn clauses_come_in_order()
    ensures { ClausesComeInOrder }
{}
