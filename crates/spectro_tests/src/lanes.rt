use spectro_energy::{Energy, Update};
use spectro_lanes::{Antichain, Columns};
use std::alloc::{AllocError, Global};
use std::process::Abort;

const HIGH: [u32; 7] = [2, 2, 0, 0, 0, 0, 0];

const LOW: [u32; 7] = [1, 9, 0, 0, 0, 0, 0];

fn energy(first: u32, second: u32) -> Energy {
    Energy {
        parts: [first, second, 0, 0, 0, 0, 0],
    }
}

// The energies `k n-k 0 0 0 0 0` for `k` from 0 to `n - 1`.
fn steps(alloc: Global, n: u32) -> Result<Columns, AllocError> {
    let mut columns = Columns::new(alloc);
    for k in 0..n {
        columns.push(energy(k, n - k))?;
    }
    Ok(columns)
}

// The last one alone is at most what it is, and at least what it is.
fn finds_the_last(
    rt: &impl Abort,
    alloc: Global,
    columns: &Columns,
    n: u32,
) -> Result<(), AllocError> {
    let last = n.saturating_sub(1);
    let place = if n == 0 { None } else { Some(last as usize) };
    assert_eq!(rt; columns.first_below(energy(last, 1)), place, "of {n}");
    assert_eq!(rt; columns.first_below(energy(last, 0)), None, "of {n}");
    let mut marks = vec![in alloc; false; columns.len()]?;
    columns.mark_above(energy(last, 1), marks.as_mut_slice());
    for (k, mark) in marks.iter().enumerate() {
        assert_eq!(rt; *mark, place == Some(k), "{k} of {n}");
    }
    Ok(())
}

fn begins_and_ends(rt: &impl Abort, columns: &Columns, first: [u32; 7], last: [u32; 7]) {
    let n = columns.len();
    assert!(rt; n > 0);
    assert_eq!(rt; columns.item(0).parts, first, "of {n}");
    assert_eq!(rt; columns.item(n - 1).parts, last, "of {n}");
}

// The sups stand after what was there.
fn has_sups(rt: &impl Abort, alloc: Global, columns: &Columns, n: u32) -> Result<(), AllocError> {
    let mut sups = Columns::new(alloc);
    sups.push(energy(0, 0))?;
    columns.sup_into(energy(4, 4), &mut sups)?;
    assert_eq!(rt; sups.len(), columns.len().saturating_add(1));
    let last = n.saturating_sub(1).max(4);
    if n > 0 {
        begins_and_ends(rt, &sups, [0; 7], [last, 4, 0, 0, 0, 0, 0]);
    }
    Ok(())
}

#[test]
fn finds_marks_and_raises_at_every_length(rt: HostRuntime) -> Result<(), AllocError> {
    for n in [0, 1, 7, 8, 9, 16, 17] {
        let columns = steps(rt.alloc(), n)?;
        assert_eq!(rt; columns.len(), n as usize);
        finds_the_last(&rt, rt.alloc(), &columns, n)?;
        has_sups(&rt, rt.alloc(), &columns, n)?;
    }
    Ok(())
}

// worked by hand
#[test]
fn raises_nine_steps(rt: HostRuntime) -> Result<(), AllocError> {
    let columns = steps(rt.alloc(), 9)?;
    assert_eq!(rt; columns.first_below(energy(8, 1)), Some(8));
    assert_eq!(rt; columns.first_below(energy(8, 0)), None);
    let mut sups = Columns::new(rt.alloc());
    columns.sup_into(energy(4, 4), &mut sups)?;
    begins_and_ends(&rt, &sups, [4, 9, 0, 0, 0, 0, 0], [8, 4, 0, 0, 0, 0, 0]);
    Ok(())
}

fn holds(rt: &impl Abort, antichain: &Antichain, wanted: &[[u32; 7]]) {
    assert_eq!(rt; antichain.len(), wanted.len());
    for (k, parts) in wanted.iter().enumerate() {
        assert_eq!(rt; antichain.item(k).parts, *parts, "at {k}");
    }
}

// Inserts an energy, which is added or not.
fn inserts(
    rt: &impl Abort,
    antichain: &mut Antichain,
    parts: [u32; 7],
    is_new: bool,
) -> Result<(), AllocError> {
    assert_eq!(rt; antichain.insert(Energy { parts })?, is_new);
    Ok(())
}

// worked by hand
fn keeps_minimal(rt: &impl Abort, antichain: &mut Antichain) -> Result<(), AllocError> {
    inserts(rt, antichain, [2, 3, 0, 0, 1, 2, 0], true)?;
    inserts(rt, antichain, [2, 2, 1, 1, 0, 0, 0], true)?;
    inserts(rt, antichain, [2, 3, 1, 1, 1, 2, 0], false)?;
    holds(
        rt,
        antichain,
        &[[2, 2, 1, 1, 0, 0, 0], [2, 3, 0, 0, 1, 2, 0]],
    );
    inserts(rt, antichain, HIGH, true)?;
    holds(rt, antichain, &[HIGH]);
    inserts(rt, antichain, LOW, true)?;
    holds(rt, antichain, &[LOW, HIGH]);
    Ok(())
}

fn copies_and_clears(rt: &impl Abort, both: &mut Antichain) -> Result<(), AllocError> {
    let copy = both.copy()?;
    assert!(rt; both.is_same(&copy));
    holds(rt, &both.meet(&copy)?, &[LOW, HIGH]);
    both.clear();
    assert!(rt; both.is_empty());
    assert!(rt; !both.is_same(&copy));
    holds(rt, &copy.meet(both)?, &[]);
    both.assign(&copy)?;
    holds(rt, both, &[LOW, HIGH]);
    Ok(())
}

#[test]
fn keeps_the_minimal_energies_in_columns(rt: HostRuntime) -> Result<(), AllocError> {
    let mut antichain = Antichain::new(rt.alloc());
    keeps_minimal(&rt, &mut antichain)?;
    copies_and_clears(&rt, &mut antichain)
}

// What comes of the two energies before a conjunction.
fn pulled(alloc: Global) -> Result<Antichain, AllocError> {
    let mut both = Antichain::new(alloc);
    both.insert(Energy { parts: HIGH })?;
    both.insert(Energy { parts: LOW })?;
    both.pull(Update::Conjoin)
}

#[test]
fn pulls_each_member_in_columns(rt: HostRuntime) -> Result<(), AllocError> {
    holds(
        &rt,
        &pulled(rt.alloc())?,
        &[[1, 10, 0, 0, 0, 0, 0], [2, 3, 0, 0, 0, 0, 0]],
    );
    Ok(())
}

// The minimal ones of the energies `k n-k 0 0 0 0 0`, put in from the last.
fn stairs(alloc: Global, n: u32) -> Result<Antichain, AllocError> {
    let mut stairs = Antichain::new(alloc);
    for k in 0..n {
        stairs.insert(energy(n - k, k))?;
    }
    Ok(stairs)
}

#[test]
fn drops_what_a_new_member_undercuts(rt: HostRuntime) -> Result<(), AllocError> {
    let mut stairs = stairs(rt.alloc(), 17)?;
    assert_eq!(rt; stairs.len(), 17);
    inserts(&rt, &mut stairs, [3, 3, 0, 0, 0, 0, 0], true)?;
    holds(
        &rt,
        &stairs,
        &[
            [1, 16, 0, 0, 0, 0, 0],
            [2, 15, 0, 0, 0, 0, 0],
            [3, 3, 0, 0, 0, 0, 0],
            [15, 2, 0, 0, 0, 0, 0],
            [16, 1, 0, 0, 0, 0, 0],
            [17, 0, 0, 0, 0, 0, 0],
        ],
    );
    Ok(())
}
