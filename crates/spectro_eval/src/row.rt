ghost use Rattle.std.specs.Prelude.{◌≡◌, ℕ, ◌+◌, ◌*◌, ◌/◌, ◌<◌, ◌≤◌, ◌↔◌, true, length, drop, slice_set, All, IsTrue, if◌then◌else◌};
ghost use Rattle.spectro_spec.specs.System.{IsWhole};
ghost use Rattle.spectro_eval.specs.StateTables.{IsBefore};
ghost use Rattle.spectro_eval.specs.StepsByLabel.{AreByLabel};
ghost use Rattle.spectro_eval.specs.Rows.{words_of, bit_of, bits_of};

use crate::steps::StepsByLabel;
use spectro_hml::Clause;
use spectro_lts::Lts;

/// How many words have a bit for each of the states.
pub(crate) fn words_of(states: u32) -> usize
    ensures { result ≡ words_of states }
{
    states.div_ceil(u64::BITS) as usize
}

/// The row of the node, and those behind it. The rows have this many words, and stand one behind the other.
pub(crate) fn row_at(rows: &[u64], words: usize, node: usize) -> &[u64]
    requires { (node + 1) * words ≤ length rows.now }
    ensures value { result.now ≡ drop (node * words) rows.now }
    ensures wide { words ≤ length result.now }
{
    &rows[node * words..]
}

/// The bit of the state.
pub(crate) fn bit_of(row: &[u64], state: u32) -> bool
    requires { state / 64 < length row.now }
    ensures { result ≡ bit_of row.now state }
{
    row[(state / u64::BITS) as usize] & (1 << (state % u64::BITS)) != 0
}

// Sets the bit of the state where `set` says so. A branch on it would often be foretold wrongly, so there is none.
fn mark(row: &mut [u64], state: u32, set: bool)
    requires { state / 64 < length row.old }
    ensures { (states : ℕ) → bits_of states row.new ≡ (if set then slice_set (bits_of states row.old) state true else bits_of states row.old) }
{
    row[(state / u64::BITS) as usize] |= u64::from(set) << (state % u64::BITS);
}

/// Sets in the row the bits of the states from which a step under the label leads to one whose bit is set in the next
/// row, and no others.
pub(crate) fn write_observation(
    lts: &Lts,
    by_label: &StepsByLabel,
    label: &str,
    next: &[u64],
    row: &mut [u64],
)
    requires whole { IsWhole lts.now }
    requires by_label { AreByLabel lts.now.steps by_label.now }
    requires next { words_of lts.now.states ≤ length next.now }
    requires row { words_of lts.now.states ≤ length row.old }
    ensures { IsBefore lts.now.steps label.now (bits_of lts.now.states next.now) (bits_of lts.now.states row.new) }
{
    row.fill(0);
    for step in by_label.under(lts, label) {
        mark(row, step.from, bit_of(next, step.to));
    }
}

/// Sets in the row the bits of the states where the bit in the row of each clause's node is the clause's sign, and no
/// others. The rows of the nodes are as long as this one, and stand one behind the other.
pub(crate) fn write_conjunction(rows: &[u64], clauses: &[Clause], row: &mut [u64])
    requires { All (λ clause. (clause.node + 1) * length row.old ≤ length rows.now) clauses.now }
    ensures { (state : ℕ) → state / 64 < length row.old → IsTrue (bit_of row.new state)
        ↔ All (λ clause. bit_of (drop (clause.node * length row.old) rows.now) state ≡ clause.positive) clauses.now }
{
    row.fill(u64::MAX);
    for clause in clauses {
        let part = row_at(rows, row.len(), clause.node);
        narrow(row, part, clause.positive);
    }
}

// Clears in the row the bits of the states whose bit in the part is not the sign.
fn narrow(row: &mut [u64], part: &[u64], positive: bool)
    requires { length row.old ≤ length part.now }
    ensures { (state : ℕ) → state / 64 < length row.old → IsTrue (bit_of row.new state) ↔ IsTrue (bit_of row.old state) × (bit_of part.now state ≡ positive) }
{
    for k in 0..row.len() {
        row[k] &= if positive { part[k] } else { !part[k] };
    }
}
