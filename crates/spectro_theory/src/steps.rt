ghost use Rattle.spectro_theory.specs.LawsOfSteps.{
  BackwardStepsAreSound,
  BackwardStepsCoverWhatIsAfforded,
  BackwardStepsReadTheFollowers,
  ObservationsAreExact,
  SelfCoveringTablesAreComplete,
  SelfCoveringTablesAreExact,
  SplitsAreExact,
  WinsAreAfforded,
};

/// The list of the backward step covers just what the table affords.
pub fn backward_steps_cover_what_is_afforded()
    ensures { BackwardStepsCoverWhatIsAfforded }
{}

/// The backward step at a pair reads its table at the followers of the pair alone.
pub fn backward_steps_read_the_followers()
    ensures { BackwardStepsReadTheFollowers }
{}

/// Where each price of a table is at least that of a distinguishing formula, so is each price of its backward step.
pub fn backward_steps_are_sound()
    ensures { BackwardStepsAreSound }
{}

/// What is won is just what is afforded over what is won.
pub fn wins_are_afforded()
    ensures { WinsAreAfforded }
{}

/// A table that covers its own backward step, at pairs that have their followers, covers the price of each
/// formula that distinguishes one of them.
pub fn self_covering_tables_are_complete()
    ensures { SelfCoveringTablesAreComplete }
{}

/// Where the list of such a table rises, is apart and has the prices of distinguishing formulas alone, it is the
/// list of least prices.
pub fn self_covering_tables_are_exact()
    ensures { SelfCoveringTablesAreExact }
{}

/// An observation that fits a least price distinguishes, at just that price.
pub fn observations_are_exact()
    ensures { ObservationsAreExact }
{}

/// A conjunction whose clauses fit a least price distinguishes, at just that price.
pub fn splits_are_exact()
    ensures { SplitsAreExact }
{}
