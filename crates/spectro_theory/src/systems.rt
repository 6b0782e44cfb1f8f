ghost use Rattle.spectro_theory.specs.LawsOfSystems.{LabelsFromAreThoseOfTheSteps, PostHasTheSuccessors};

/// The successors of a set rise, and are exactly the targets of the steps from its members.
pub fn post_has_the_successors()
    ensures { PostHasTheSuccessors }
{}

/// The labels of a state rise by bytes, and are exactly those of the steps from it.
pub fn labels_from_are_those_of_the_steps()
    ensures { LabelsFromAreThoseOfTheSteps }
{}
