ghost use Rattle.spectro_theory.specs.LawsOfPairs.{DivisionsAreByMask, FollowersAreByCase, ReachedPairsAreClosed, ReachedPairsAreOne};
ghost use Rattle.spectro_theory.specs.LawsOfReaching.{
  PairsArePutLast,
  PairsWithoutRepeatsStay,
  PuttingLastGoesOn,
  ReachedFrontsAreFronts,
  ReachedPairsExist,
  ReachingBegins,
  ReachingEnds,
  ReachingGoesOn,
  SamePairsAreEqual,
};
ghost use Rattle.spectro_theory.specs.LawsOfSizes.{
  FrontsAreNoLarger,
  PairsAreAtMostHalfTheSize,
  PairsHaveAtMostAllPositions,
  PairsHavePositionsByTheirMembers,
  PartsAreFewerThanTheSize,
  SetsHaveAtMostNineteenMembers,
  SizesAddUp,
};

/// A pair follows another after a step, with a subset that is not empty, or as another member against the state.
pub fn followers_are_by_case()
    ensures { FollowersAreByCase }
{}

/// A set has a division for each mask, in the order of the masks: bit `i` says whether the member at place `i` is on the left.
pub fn divisions_are_by_mask()
    ensures { DivisionsAreByMask }
{}

/// From its starts one list of pairs is reached.
pub fn reached_pairs_are_one()
    ensures { ReachedPairsAreOne }
{}

/// What is reached has with each pair its followers.
pub fn reached_pairs_are_closed()
    ensures { ReachedPairsAreClosed }
{}

/// Starts without repeats reach a list of pairs.
pub fn reached_pairs_exist()
    ensures { ReachedPairsExist }
{}

/// Starts without repeats are what they reach by the followers of none.
pub fn reaching_begins()
    ensures { ReachingBegins }
{}

/// What is reached by the first `k` pairs, with each follower of the pair at place `k` put last unless it stands there, is
/// what is reached by the first `k + 1`.
pub fn reaching_goes_on()
    ensures { ReachingGoesOn }
{}

/// What is reached by the followers of all its pairs is what the starts reach.
pub fn reaching_ends()
    ensures { ReachingEnds }
{}

/// What is reached by the first `k` pairs begins each list of what is reached, and is no larger.
pub fn reached_fronts_are_fronts()
    ensures { ReachedFrontsAreFronts }
{}

/// Pairs that are put last leave the old ones in their places, and none stands twice.
pub fn pairs_are_put_last()
    ensures { PairsArePutLast }
{}

/// To put more pairs last after others is to put all of them last.
pub fn putting_last_goes_on()
    ensures { PuttingLastGoesOn }
{}

/// Pairs without repeats are put last as they are.
pub fn pairs_without_repeats_stay()
    ensures { PairsWithoutRepeatsStay }
{}

/// The test of pairs finds just the equal ones.
pub fn same_pairs_are_equal()
    ensures { SamePairsAreEqual }
{}

/// The sizes of a front and of the rest make that of the whole.
pub fn sizes_add_up()
    ensures { SizesAddUp }
{}

/// A front is no larger than the whole.
pub fn fronts_are_no_larger()
    ensures { FrontsAreNoLarger }
{}

/// There are at most half as many pairs as positions.
pub fn pairs_are_at_most_half_the_size()
    ensures { PairsAreAtMostHalfTheSize }
{}

/// A pair with a set of `n` members stands for `2 ^ n + 1` positions, and for one more where `n` is 1.
pub fn pairs_have_positions_by_their_members()
    ensures { PairsHavePositionsByTheirMembers }
{}

/// Each of the pairs stands for no more positions than all.
pub fn pairs_have_at_most_all_positions()
    ensures { PairsHaveAtMostAllPositions }
{}

/// The parts of a set of one of the pairs are fewer than the positions.
pub fn parts_are_fewer_than_the_size()
    ensures { PartsAreFewerThanTheSize }
{}

/// Within a million positions a set has at most nineteen members.
pub fn sets_have_at_most_nineteen_members()
    ensures { SetsHaveAtMostNineteenMembers }
{}
