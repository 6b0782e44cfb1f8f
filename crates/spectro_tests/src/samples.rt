ghost use Rattle.std.specs.Prelude.{◌≡◌, ◌<◌, ◌≤◌, IfOk};
ghost use Rattle.spectro_spec.specs.System.{IsLabel};

use spectro_hml::Clause;
use spectro_lts::{Draft, Lts};
use std::alloc::Global;
use std::test::Fail;

// A step under a, and a state without steps.
pub(crate) const ONE_STEP: [(u32, char, u32); 1] = [(0, 'a', 1)];

// After a, both b and c, and after a, either b or c. The labels are numbered c, a, b.
pub(crate) const BOTH_AND_EITHER: [(u32, char, u32); 7] = [
    (5, 'c', 6),
    (4, 'a', 5),
    (5, 'b', 6),
    (0, 'a', 2),
    (0, 'a', 1),
    (1, 'b', 3),
    (2, 'c', 3),
];

// The label of one letter.
pub(crate) fn label(letter: char) -> &'static str
    ensures { IsLabel result.now }
{
    match letter {
        'B' => "B",
        'a' => "a",
        'b' => "b",
        _ => "c",
    }
}

// Adds a step to the draft of so many states.
pub(crate) fn add(
    draft: &mut Draft,
    states: u32,
    from: u32,
    letter: char,
    to: u32,
) -> Result<(), Fail>
    requires { draft.old.states ≡ states }
    ensures { draft.new.states ≡ states }
{
    if from >= states || to >= states {
        return Err(Fail::new("no such state"));
    }
    if draft.step_count() == 2_000_000 || draft.label_count() == 131_072 {
        return Err(Fail::new("no room"));
    }
    draft.add(from, label(letter), to)?;
    Ok(())
}

// Adds the steps to the draft of so many states.
pub(crate) fn add_all(
    draft: &mut Draft,
    states: u32,
    steps: &[(u32, char, u32)],
) -> Result<(), Fail>
    requires { draft.old.states ≡ states }
    ensures { draft.new.states ≡ states }
{
    for (from, letter, to) in steps {
        add(draft, states, *from, *letter, *to)?;
    }
    Ok(())
}

// The system of the steps.
pub(crate) fn system(
    alloc: Global,
    states: u32,
    initial: u32,
    steps: &[(u32, char, u32)],
) -> Result<Lts, Fail>
    requires initial { initial < states }
    requires few { states ≤ 131072 }
    ensures { IfOk result (λ lts. lts.states ≡ states) }
{
    let mut draft = Draft::new(alloc, states, initial)?;
    add_all(&mut draft, states, steps)?;
    Ok(draft.finish()?)
}

// A clause of a conjunction.
pub(crate) fn clause(positive: bool, node: usize) -> Clause
    ensures { result ≡ record { positive = positive; node = node } }
{
    Clause { positive, node }
}
