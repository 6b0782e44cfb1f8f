ghost use Rattle.std.specs.Prelude.{◌≡◌, ◌<◌, ◌≤◌, ◌+◌, ◌*◌, length, IfOk};

use crate::samples::{BOTH_AND_EITHER, ONE_STEP, add, system};
use spectro_lts::{Draft, Lts};
use spectro_pairs::{Arena, ExploreError, Observation, explore};
use spectro_weights::Weights;
use std::alloc::{AllocError, Global};
use std::process::Abort;
use std::test::Fail;

// What comes of exploring the pair of the two states.
fn explore_pair(
    alloc: Global,
    lts: &Lts,
    weights: &Weights,
    p: u32,
    q: u32,
    limit: u32,
) -> Result<Arena, ExploreError>
    requires p { p < lts.now.states }
    requires q { q < lts.now.states }
    requires bound { limit ≤ 1000000 }
{
    explore(alloc, lts, weights, &[(p, q)], limit)
}

// The arena, where there is one.
fn explored(answer: Result<Arena, ExploreError>) -> Result<Arena, Fail> {
    match answer {
        Ok(arena) => Ok(arena),
        Err(_) => Err(Fail::new("not explored")),
    }
}

fn one_step(alloc: Global) -> Result<Arena, Fail> {
    let lts = system(alloc, 3, 0, &ONE_STEP)?;
    let mut weights = Weights::new(alloc);
    weights.set("a", 7)?;
    explored(explore_pair(alloc, &lts, &weights, 0, 2, 10))
}

fn both_and_either(alloc: Global) -> Result<Arena, Fail> {
    let lts = system(alloc, 7, 0, &BOTH_AND_EITHER)?;
    explored(explore_pair(alloc, &lts, &Weights::new(alloc), 4, 0, 39))
}

// The numbers of the followers of pair `k`.
fn followers(alloc: Global, arena: &Arena, k: u32) -> Result<Vec<u32>, AllocError>
    requires { k < length arena.now.pairs }
{
    let mut numbers = Vec::new(alloc);
    for i in 0..arena.observation_count(k) {
        numbers.push(arena.observation(k, i).pair)?;
    }
    let members = arena.set(k).len() as u32;
    for mask in 1..1 << members {
        numbers.push(arena.subset(k, mask))?;
    }
    for i in 0..members {
        if let Some(other) = arena.swap(k, i) {
            numbers.push(other)?;
        }
    }
    Ok(numbers)
}

// There are so many pairs and positions.
fn assert_size(rt: &impl Abort, arena: &Arena, pairs: u32, positions: u32) {
    assert_eq!(rt; arena.pair_count(), pairs);
    assert_eq!(rt; arena.size(), positions);
}

// Pair `k` is of the state and the set.
fn assert_pair(rt: &impl Abort, arena: &Arena, k: u32, state: u32, set: &[u32]) {
    assert!(rt; k < arena.pair_count());
    assert_eq!(rt; (arena.state(k), arena.set(k)), (state, set), "pair {k}");
    assert_eq!(rt; arena.find(state, set), Some(k), "pair {k}");
}

// Pair `k` has these followers, in this order.
fn assert_followers(
    rt: &impl Abort,
    alloc: Global,
    arena: &Arena,
    k: u32,
    want: &[u32],
) -> Result<(), Fail> {
    assert!(rt; k < arena.pair_count());
    let numbers = followers(alloc, arena, k)?;
    assert_eq!(rt; numbers.as_slice(), want, "pair {k}");
    Ok(())
}

// Pair `k` follows these.
fn assert_preds(rt: &impl Abort, arena: &Arena, k: u32, want: &[u32]) {
    assert!(rt; k < arena.pair_count());
    assert_eq!(rt; arena.preds(k), want, "pair {k}");
}

// What pair `k` observes at place `i`.
fn assert_observation(
    rt: &impl Abort,
    arena: &Arena,
    k: u32,
    i: u32,
    label: u32,
    pair: u32,
    weight: u8,
) {
    assert!(rt; k < arena.pair_count());
    assert!(rt; i < arena.observation_count(k));
    let want = Observation {
        label,
        pair,
        weight,
    };
    assert_eq!(rt; arena.observation(k, i), want, "pair {k}, place {i}");
}

// The pairs of one step.
fn assert_one_step(rt: &impl Abort, alloc: Global, arena: &Arena) -> Result<(), Fail> {
    assert_size(rt, arena, 3, 10);
    assert_pair(rt, arena, 0, 0, &[2]);
    assert_pair(rt, arena, 1, 1, &[]);
    assert_pair(rt, arena, 2, 2, &[0]);
    assert_followers(rt, alloc, arena, 0, &[1, 0, 2])?;
    assert_followers(rt, alloc, arena, 1, &[])?;
    assert_followers(rt, alloc, arena, 2, &[2, 0])?;
    assert_preds(rt, arena, 0, &[0, 2]);
    assert_preds(rt, arena, 1, &[0]);
    assert_preds(rt, arena, 2, &[0, 2]);
    assert_observation(rt, arena, 0, 0, 0, 1, 7);
    Ok(())
}

#[test]
fn tells_each_pair_with_its_followers(rt: HostRuntime) -> Result<(), Fail> {
    let arena = one_step(rt.alloc())?;
    assert_one_step(&rt, rt.alloc(), &arena)
}

// The pairs of both and either.
fn assert_both_and_either(rt: &impl Abort, alloc: Global, arena: &Arena) -> Result<(), Fail> {
    assert_size(rt, arena, 10, 39);
    assert_pair(rt, arena, 0, 4, &[0]);
    assert_pair(rt, arena, 1, 5, &[1, 2]);
    assert_pair(rt, arena, 2, 0, &[4]);
    assert_pair(rt, arena, 3, 6, &[3]);
    assert_pair(rt, arena, 4, 5, &[1]);
    assert_pair(rt, arena, 5, 5, &[2]);
    assert_pair(rt, arena, 6, 1, &[5]);
    assert_pair(rt, arena, 7, 2, &[5]);
    assert_pair(rt, arena, 8, 3, &[6]);
    assert_pair(rt, arena, 9, 6, &[]);
    assert_observation(rt, arena, 1, 0, 2, 3, 1);
    assert_observation(rt, arena, 1, 1, 0, 3, 1);
    assert_followers(rt, alloc, arena, 1, &[3, 3, 4, 5, 1, 6, 7])
}

#[test]
fn finds_followers_by_label_target_mask_and_member(rt: HostRuntime) -> Result<(), Fail> {
    let arena = both_and_either(rt.alloc())?;
    assert_both_and_either(&rt, rt.alloc(), &arena)
}

// The first and the last states of the lines of steps under a. A state is so many times n, and so many more.
const LINES: [((u8, u8), (u8, u8)); 3] = [((0, 0), (1, 0)), ((1, 3), (2, 2)), ((2, 3), (3, 2))];

// The steps in which a state chooses, or has chosen.
const CHOICES: [((u8, u8), char, (u8, u8)); 6] = [
    ((1, 0), 'b', (1, 1)),
    ((1, 0), 'c', (1, 1)),
    ((1, 2), 'a', (1, 3)),
    ((1, 2), 'a', (2, 3)),
    ((2, 2), 'b', (3, 3)),
    ((3, 2), 'c', (3, 3)),
];

// n steps under a and then b or c, which are chosen last on the left, and on the right with the first step. By hand there
// are 5n + 5 pairs and 21n + 18 positions.
fn late_and_early_choice(alloc: Global, n: u32) -> Result<Lts, Fail>
    requires some { 1 ≤ n }
    requires few { n ≤ 200 }
    ensures { IfOk result (λ lts. lts.states ≡ 3 * n + 4) }
{
    let states = 3 * n + 4;
    let mut draft = Draft::new(alloc, states, 0)?;
    for (first, last) in LINES {
        add_line(&mut draft, states, state(first, n), state(last, n))?;
    }
    for (from, letter, to) in CHOICES {
        add(&mut draft, states, state(from, n), letter, state(to, n))?;
    }
    Ok(draft.finish()?)
}

// So many times n, and so many more.
fn state(parts: (u8, u8), n: u32) -> u32
    requires few { n ≤ 200 }
{
    let (times, more) = parts;
    u32::from(times) * n + u32::from(more)
}

// Adds a step under a from each state of these to the next.
fn add_line(draft: &mut Draft, states: u32, from: u32, to: u32) -> Result<(), Fail>
    requires { draft.old.states ≡ states }
    ensures { draft.new.states ≡ states }
{
    for s in from..to {
        add(draft, states, s, 'a', s + 1)?;
    }
    Ok(())
}

// How many pairs and positions the arena has, where these are not too many.
fn counts_of(answer: Result<Arena, ExploreError>) -> Result<Option<(u32, u32)>, Fail> {
    match answer {
        Ok(arena) => Ok(Some((arena.pair_count(), arena.size()))),
        Err(ExploreError::TooLarge { .. }) => Ok(None),
        Err(ExploreError::OutOfMemory) => Err(Fail::new("out of memory")),
    }
}

// How many the choices with n steps have.
fn counts(alloc: Global, n: u32, limit: u32) -> Result<Option<(u32, u32)>, Fail>
    requires some { 1 ≤ n }
    requires few { n ≤ 200 }
    requires bound { limit ≤ 1000000 }
{
    let lts = late_and_early_choice(alloc, n)?;
    counts_of(explore_pair(alloc, &lts, &Weights::new(alloc), 0, n + 2, limit))
}

// They are those counted by hand, and explored up to just this limit.
fn assert_counts(rt: &impl Abort, alloc: Global, n: u32) -> Result<(), Fail>
    requires some { 1 ≤ n }
    requires few { n ≤ 200 }
{
    let limit = 21 * n + 18;
    let Some((pairs, positions)) = counts(alloc, n, limit)? else {
        return Err(Fail::new("not explored"));
    };
    assert_eq!(rt; pairs, 5 * n + 5, "n is {n}");
    assert_eq!(rt; positions, limit, "n is {n}");
    assert!(rt; counts(alloc, n, limit - 1)?.is_none(), "n is {n}");
    Ok(())
}

#[test]
fn counts_what_is_counted_by_hand(rt: HostRuntime) -> Result<(), Fail> {
    assert_counts(&rt, rt.alloc(), 1)?;
    assert_counts(&rt, rt.alloc(), 2)?;
    assert_counts(&rt, rt.alloc(), 7)?;
    assert_counts(&rt, rt.alloc(), 200)
}
