// Eight members at a time, in vectors of eight numbers.
ghost use Rattle.std.specs.Prelude.{◌≡◌, ◌↔◌, ℕ, ◌+◌, ◌*◌, ◌<◌, ◌≤◌, length, slice_index, slice_index_or, IsTrue, false};
ghost use Rattle.spectro_spec.specs.Price.{IsAtMost};
ghost use Rattle.spectro_energy.specs.Energy.{price_of};
ghost use Rattle.spectro_lanes.specs.Columns.{price_at, IsFirst};

use spectro_energy::Energy;
use std::simd::prelude::*;

// the parts of an energy
pub(crate) const PARTS: usize = 7;

// how many members one vector has a part of
pub(crate) const LANES: usize = 8;

// The energy whose parts are row `k`.
#[inline(always)]
pub(crate) fn energy_at(numbers: &[u32], stride: usize, k: usize) -> Energy
    requires whole { length numbers.now ≡ 7 * stride }
    requires room { k < stride }
    ensures { price_of result.parts ≡ price_at stride numbers.now k }
{
    Energy {
        parts: [
            numbers[k],
            numbers[stride + k],
            numbers[2 * stride + k],
            numbers[3 * stride + k],
            numbers[4 * stride + k],
            numbers[5 * stride + k],
            numbers[6 * stride + k],
        ],
    }
}

// Whether member `k` is at most `e`.
#[inline(always)]
pub(crate) fn is_below(numbers: &[u32], stride: usize, k: usize, e: &Energy) -> bool
    requires whole { length numbers.now ≡ 7 * stride }
    requires room { k < stride }
    ensures { IsTrue result ↔ IsAtMost (price_at stride numbers.now k) (price_of e.now.parts) }
{
    let [
        observations,
        conjunctions,
        deepest_positive,
        other_positive,
        deepest_negative,
        negations,
        weighted_depth,
    ] = e.parts;
    numbers[k] <= observations
        && numbers[stride + k] <= conjunctions
        && numbers[2 * stride + k] <= deepest_positive
        && numbers[3 * stride + k] <= other_positive
        && numbers[4 * stride + k] <= deepest_negative
        && numbers[5 * stride + k] <= negations
        && numbers[6 * stride + k] <= weighted_depth
}

// Whether `e` is at most member `k`.
#[inline(always)]
fn is_above(numbers: &[u32], stride: usize, k: usize, e: &Energy) -> bool
    requires whole { length numbers.now ≡ 7 * stride }
    requires room { k < stride }
    ensures { IsTrue result ↔ IsAtMost (price_of e.now.parts) (price_at stride numbers.now k) }
{
    let [
        observations,
        conjunctions,
        deepest_positive,
        other_positive,
        deepest_negative,
        negations,
        weighted_depth,
    ] = e.parts;
    observations <= numbers[k]
        && conjunctions <= numbers[stride + k]
        && deepest_positive <= numbers[2 * stride + k]
        && other_positive <= numbers[3 * stride + k]
        && deepest_negative <= numbers[4 * stride + k]
        && negations <= numbers[5 * stride + k]
        && weighted_depth <= numbers[6 * stride + k]
}

// The first lane that is 1, or 8 where there is none.
#[inline(always)]
fn first_one(kept: u32x8) -> usize
    ensures { IsFirst (λ i. slice_index kept i ≡ 1) 8 result }
{
    let ones = kept.simd_eq(u32x8::splat(1)).to_bitmask();
    if ones == 0 {
        return LANES;
    }
    ones.trailing_zeros() as usize
}

// A lane of the result is 1 exactly where it was and its number is at most the bound.
#[inline(always)]
fn kept_below(kept: u32x8, numbers: &[u32], at: usize, bound: u32) -> u32x8
    requires { at + 8 ≤ length numbers.now }
    ensures { (i : ℕ) → i < 8 → slice_index result i ≡ 1 ↔ (slice_index kept i ≡ 1) × (slice_index numbers.now (at + i) ≤ bound) }
{
    u32x8::from_slice(&numbers[at..])
        .simd_le(u32x8::splat(bound))
        .select(kept, u32x8::splat(0))
}

// Lane `i` is 1 exactly where member `k + i` is at most `e`.
#[inline(always)]
fn lanes_below(numbers: &[u32], stride: usize, k: usize, e: &Energy) -> u32x8
    requires whole { length numbers.now ≡ 7 * stride }
    requires room { k + 8 ≤ stride }
    ensures { (i : ℕ) → i < 8 → slice_index result i ≡ 1 ↔ IsAtMost (price_at stride numbers.now (k + i)) (price_of e.now.parts) }
{
    let first = kept_below(u32x8::splat(1), numbers, k, e.parts[0]);
    // in a list in order the first part settles most
    if first_one(first) == LANES {
        return first;
    }
    let mut kept = first;
    for part in 1..PARTS {
        kept = kept_below(kept, numbers, part * stride + k, e.parts[part]);
    }
    kept
}

// A lane of the result is 1 exactly where it was and its number is at least the bound.
#[inline(always)]
fn kept_above(kept: u32x8, numbers: &[u32], at: usize, bound: u32) -> u32x8
    requires { at + 8 ≤ length numbers.now }
    ensures { (i : ℕ) → i < 8 → slice_index result i ≡ 1 ↔ (slice_index kept i ≡ 1) × (bound ≤ slice_index numbers.now (at + i)) }
{
    u32x8::from_slice(&numbers[at..])
        .simd_ge(u32x8::splat(bound))
        .select(kept, u32x8::splat(0))
}

// Lane `i` is 1 exactly where `e` is at most member `k + i`.
#[inline(always)]
fn lanes_above(numbers: &[u32], stride: usize, k: usize, e: &Energy) -> u32x8
    requires whole { length numbers.now ≡ 7 * stride }
    requires room { k + 8 ≤ stride }
    ensures { (i : ℕ) → i < 8 → slice_index result i ≡ 1 ↔ IsAtMost (price_of e.now.parts) (price_at stride numbers.now (k + i)) }
{
    let first = kept_above(u32x8::splat(1), numbers, k, e.parts[0]);
    // in a list in order the first part settles most
    if first_one(first) == LANES {
        return first;
    }
    let mut kept = first;
    for part in 1..PARTS {
        kept = kept_above(kept, numbers, part * stride + k, e.parts[part]);
    }
    kept
}

// The first of the members from `k` on that is at most `e`, or 8 where none of the eight is.
#[inline(always)]
fn first_below_of_eight(numbers: &[u32], stride: usize, k: usize, e: &Energy) -> usize
    requires whole { length numbers.now ≡ 7 * stride }
    requires room { k + 8 ≤ stride }
    ensures { IsFirst (λ i. IsAtMost (price_at stride numbers.now (k + i)) (price_of e.now.parts)) 8 result }
{
    first_one(lanes_below(numbers, stride, k, e))
}

// The first of the members from `k` on that `e` is at most, or 8 where it is at most none of the eight.
#[inline(always)]
fn first_above_of_eight(numbers: &[u32], stride: usize, k: usize, e: &Energy) -> usize
    requires whole { length numbers.now ≡ 7 * stride }
    requires room { k + 8 ≤ stride }
    ensures { IsFirst (λ i. IsAtMost (price_of e.now.parts) (price_at stride numbers.now (k + i))) 8 result }
{
    first_one(lanes_above(numbers, stride, k, e))
}

// The first of the `n` members that is at most `e`, or `n` where there is none. None of the first `k` is one.
#[inline(always)]
fn rest_below(numbers: &[u32], stride: usize, k: usize, n: usize, e: &Energy) -> usize
    requires whole { length numbers.now ≡ 7 * stride }
    requires room { n ≤ stride }
    requires start { k ≤ n }
    requires passed { (i : ℕ) → i < k → ¬ IsAtMost (price_at stride numbers.now i) (price_of e.now.parts) }
    ensures { IsFirst (λ i. IsAtMost (price_at stride numbers.now i) (price_of e.now.parts)) n result }
{
    let mut at = k;
    while at < n {
        if is_below(numbers, stride, at, e) {
            return at;
        }
        at += 1;
    }
    n
}

// The same in blocks of eight, with the rest row by row.
#[inline(never)]
fn blocks_below(numbers: &[u32], stride: usize, n: usize, e: &Energy) -> usize
    requires whole { length numbers.now ≡ 7 * stride }
    requires room { n ≤ stride }
    ensures { IsFirst (λ i. IsAtMost (price_at stride numbers.now i) (price_of e.now.parts)) n result }
{
    let mut k = 0;
    while n - k >= LANES {
        let first = first_below_of_eight(numbers, stride, k, e);
        if first < LANES {
            return k + first;
        }
        k += LANES;
    }
    rest_below(numbers, stride, k, n, e)
}

// The first of the `n` members that is at most `e`, or `n` where there is none.
#[inline(always)]
pub(crate) fn first_below(numbers: &[u32], stride: usize, n: usize, e: &Energy) -> usize
    requires whole { length numbers.now ≡ 7 * stride }
    requires room { n ≤ stride }
    ensures { IsFirst (λ i. IsAtMost (price_at stride numbers.now i) (price_of e.now.parts)) n result }
{
    if n < LANES {
        return rest_below(numbers, stride, 0, n, e);
    }
    blocks_below(numbers, stride, n, e)
}

// The first of the `n` members that `e` is at most, or `n` where there is none. None of the first `k` is one.
#[inline(always)]
fn rest_above(numbers: &[u32], stride: usize, k: usize, n: usize, e: &Energy) -> usize
    requires whole { length numbers.now ≡ 7 * stride }
    requires room { n ≤ stride }
    requires start { k ≤ n }
    requires passed { (i : ℕ) → i < k → ¬ IsAtMost (price_of e.now.parts) (price_at stride numbers.now i) }
    ensures { IsFirst (λ i. IsAtMost (price_of e.now.parts) (price_at stride numbers.now i)) n result }
{
    let mut at = k;
    while at < n {
        if is_above(numbers, stride, at, e) {
            return at;
        }
        at += 1;
    }
    n
}

// The same in blocks of eight, with the rest row by row.
#[inline(never)]
fn blocks_above(numbers: &[u32], stride: usize, n: usize, e: &Energy) -> usize
    requires whole { length numbers.now ≡ 7 * stride }
    requires room { n ≤ stride }
    ensures { IsFirst (λ i. IsAtMost (price_of e.now.parts) (price_at stride numbers.now i)) n result }
{
    let mut k = 0;
    while n - k >= LANES {
        let first = first_above_of_eight(numbers, stride, k, e);
        if first < LANES {
            return k + first;
        }
        k += LANES;
    }
    rest_above(numbers, stride, k, n, e)
}

// The first of the `n` members that `e` is at most, or `n` where there is none.
#[inline(always)]
pub(crate) fn first_above(numbers: &[u32], stride: usize, n: usize, e: &Energy) -> usize
    requires whole { length numbers.now ≡ 7 * stride }
    requires room { n ≤ stride }
    ensures { IsFirst (λ i. IsAtMost (price_of e.now.parts) (price_at stride numbers.now i)) n result }
{
    if n < LANES {
        return rest_above(numbers, stride, 0, n, e);
    }
    blocks_above(numbers, stride, n, e)
}

// Marks the eight places from `k` on at which the lane is 1.
#[inline(always)]
fn mark_eight(kept: u32x8, k: usize, marks: &mut [bool])
    requires { k + 8 ≤ length marks.old }
    ensures here { (i : ℕ) → i < 8 → IsTrue (slice_index_or marks.new (k + i) false) ↔ slice_index kept i ≡ 1 }
    ensures before { (i : ℕ) → i < k → slice_index_or marks.new i false ≡ slice_index_or marks.old i false }
{
    let lanes = kept.to_array();
    for i in 0..LANES {
        marks[k + i] = lanes[i] == 1;
    }
}

// Place `k` becomes whether `e` is at most member `k`.
pub(crate) fn mark_above(numbers: &[u32], stride: usize, e: &Energy, marks: &mut [bool])
    requires whole { length numbers.now ≡ 7 * stride }
    requires room { length marks.old ≤ stride }
    ensures { (i : ℕ) → i < length marks.new → IsTrue (slice_index_or marks.new i false) ↔ IsAtMost (price_of e.now.parts) (price_at stride numbers.now i) }
{
    let n = marks.len();
    let mut k = 0;
    while n - k >= LANES {
        mark_eight(lanes_above(numbers, stride, k, e), k, marks);
        k += LANES;
    }
    while k < n {
        marks[k] = is_above(numbers, stride, k, e);
        k += 1;
    }
}
