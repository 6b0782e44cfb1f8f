// Members written into columns.
ghost use Rattle.std.specs.Prelude.{◌≡◌, ◌⊎◌, ℕ, ◌+◌, ◌*◌, ◌<◌, ◌≤◌, ◌≢◌, length, slice_index, max};
ghost use Rattle.spectro_game.specs.Sup.{sup};
ghost use Rattle.spectro_energy.specs.Energy.{price_of};
ghost use Rattle.spectro_lanes.specs.Columns.{price_at};

use crate::lanes::{LANES, PARTS};
use spectro_energy::Energy;
use std::simd::prelude::*;

// Puts the greater of each of eight numbers and the bound from `place` on.
#[inline(always)]
fn put_eight_greater(from: &[u32], at: usize, bound: u32, to: &mut [u32], place: usize)
    requires source { at + 8 ≤ length from.now }
    requires target { place + 8 ≤ length to.old }
    ensures here { (i : ℕ) → i < 8 → slice_index to.new (place + i) ≡ max (slice_index from.now (at + i)) bound }
    ensures others { (p : ℕ) → (p < place) ⊎ (place + 8 ≤ p) → slice_index to.new p ≡ slice_index to.old p }
{
    u32x8::from_slice(&from[at..])
        .simd_max(u32x8::splat(bound))
        .copy_to_slice(&mut to[place..]);
}

// Puts the greater of each of `n` numbers and the bound from `place` on.
fn put_greater(from: &[u32], at: usize, n: usize, bound: u32, to: &mut [u32], place: usize)
    requires source { at + n ≤ length from.now }
    requires target { place + n ≤ length to.old }
    ensures here { (i : ℕ) → i < n → slice_index to.new (place + i) ≡ max (slice_index from.now (at + i)) bound }
    ensures others { (p : ℕ) → (p < place) ⊎ (place + n ≤ p) → slice_index to.new p ≡ slice_index to.old p }
{
    let mut k = 0;
    while n - k >= LANES {
        put_eight_greater(from, at + k, bound, to, place + k);
        k += LANES;
    }
    while k < n {
        to[place + k] = from[at + k].max(bound);
        k += 1;
    }
}

// Puts the sup of each of the first `n` members and `e` into the rows from `at` on.
pub(crate) fn put_sups(
    from: &[u32],
    from_stride: usize,
    n: usize,
    e: &Energy,
    to: &mut [u32],
    stride: usize,
    at: usize,
)
    requires source { length from.now ≡ 7 * from_stride }
    requires members { n ≤ from_stride }
    requires target { length to.old ≡ 7 * stride }
    requires room { at + n ≤ stride }
    ensures here { (i : ℕ) → i < n → price_at stride to.new (at + i) ≡ sup (price_at from_stride from.now i) (price_of e.now.parts) }
    ensures others { (i : ℕ) → i < stride → (i < at) ⊎ (at + n ≤ i) → price_at stride to.new i ≡ price_at stride to.old i }
{
    for part in 0..PARTS {
        put_greater(
            from,
            part * from_stride,
            n,
            e.parts[part],
            to,
            part * stride + at,
        );
    }
}

// Puts `e` into row `k`.
pub(crate) fn put_energy(numbers: &mut [u32], stride: usize, k: usize, e: &Energy)
    requires whole { length numbers.old ≡ 7 * stride }
    requires room { k < stride }
    ensures here { price_at stride numbers.new k ≡ price_of e.now.parts }
    ensures others { (i : ℕ) → i < stride → i ≢ k → price_at stride numbers.new i ≡ price_at stride numbers.old i }
{
    for part in 0..PARTS {
        numbers[part * stride + k] = e.parts[part];
    }
}
