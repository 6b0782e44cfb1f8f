// Members dropped, and put in their place.
ghost use Rattle.std.specs.Prelude.{◌≡◌, ◌↔◌, ℕ, ◌+◌, ◌*◌, ◌<◌, ◌≤◌, [], ◌∷◌, ◌++◌, length, IsTrue};
ghost use Rattle.std.specs.List.{insert};
ghost use Rattle.spectro_spec.specs.Price.{ComesBefore};
ghost use Rattle.spectro_game.specs.MinimalElements.{not_above, placed_price};
ghost use Rattle.spectro_energy.specs.Energy.{price_of};
ghost use Rattle.spectro_lanes.specs.Columns.{price_at, prices_in, IsFirst};

use crate::copies::put_energy;
use crate::lanes::{energy_at, first_above};
use spectro_energy::Energy;
use std::cmp::Ordering;

// Keeps member `k` as the next one unless `e` is at most it. Answers how many are kept then.
fn keep(numbers: &mut [u32], stride: usize, kept: usize, k: usize, e: &Energy) -> usize
    requires whole { length numbers.old ≡ 7 * stride }
    requires order { kept ≤ k }
    requires room { k < stride }
    ensures bound { result ≤ kept + 1 }
    ensures list { prices_in stride numbers.new result
        ≡ prices_in stride numbers.old kept ++ not_above (price_of e.now.parts) (price_at stride numbers.old k ∷ []) }
    ensures later { (i : ℕ) → k < i → i < stride → price_at stride numbers.new i ≡ price_at stride numbers.old i }
{
    let member = energy_at(numbers, stride, k);
    if e.leq(member) {
        return kept;
    }
    put_energy(numbers, stride, kept, &member);
    kept + 1
}

// Drops the members that `e` is at most. Answers how many are left.
pub(crate) fn drop_above(numbers: &mut [u32], stride: usize, n: usize, e: &Energy) -> usize
    requires whole { length numbers.old ≡ 7 * stride }
    requires room { n ≤ stride }
    ensures bound { result ≤ n }
    ensures list { prices_in stride numbers.new result ≡ not_above (price_of e.now.parts) (prices_in stride numbers.old n) }
{
    let first = first_above(numbers, stride, n, e);
    let mut kept = first;
    for k in first..n {
        kept = keep(numbers, stride, kept, k, e);
    }
    kept
}

// Whether `e` comes before member `k`.
#[inline(always)]
fn comes_before(numbers: &[u32], stride: usize, k: usize, e: &Energy) -> bool
    requires whole { length numbers.now ≡ 7 * stride }
    requires room { k < stride }
    ensures { IsTrue result ↔ ComesBefore (price_of e.now.parts) (price_at stride numbers.now k) }
{
    // the first part settles most
    let [first, ..] = e.parts;
    if first != numbers[k] {
        return first < numbers[k];
    }
    e.lex(energy_at(numbers, stride, k)) == Ordering::Less
}

// The first of the `n` members that `e` comes before, or `n` where there is none.
fn first_after(numbers: &[u32], stride: usize, n: usize, e: &Energy) -> usize
    requires whole { length numbers.now ≡ 7 * stride }
    requires room { n ≤ stride }
    ensures { IsFirst (λ i. ComesBefore (price_of e.now.parts) (price_at stride numbers.now i)) n result }
{
    for k in 0..n {
        if comes_before(numbers, stride, k, e) {
            return k;
        }
    }
    n
}

// Moves the members from `place` on to the next rows, and puts `e` there.
fn put_at(numbers: &mut [u32], stride: usize, n: usize, place: usize, e: &Energy)
    requires whole { length numbers.old ≡ 7 * stride }
    requires room { n < stride }
    requires order { place ≤ n }
    ensures { prices_in stride numbers.new (n + 1) ≡ insert (prices_in stride numbers.old n) place (price_of e.now.parts) }
{
    let mut k = n;
    while k > place {
        let member = energy_at(numbers, stride, k - 1);
        put_energy(numbers, stride, k, &member);
        k -= 1;
    }
    put_energy(numbers, stride, place, e);
}

// Puts `e` before the first of the `n` members that it comes before.
pub(crate) fn put_in_place(numbers: &mut [u32], stride: usize, n: usize, e: &Energy)
    requires whole { length numbers.old ≡ 7 * stride }
    requires room { n < stride }
    ensures { prices_in stride numbers.new (n + 1) ≡ placed_price (price_of e.now.parts) (prices_in stride numbers.old n) }
{
    let place = first_after(numbers, stride, n, e);
    put_at(numbers, stride, n, place, e);
}
