use spectro_antichain::Antichain;
use spectro_energy::{Energy, Update};
use std::alloc::{AllocError, Global};
use std::process::Abort;

const HIGH: [u32; 7] = [2, 2, 0, 0, 0, 0, 0];

const LOW: [u32; 7] = [1, 9, 0, 0, 0, 0, 0];

fn holds(rt: &impl Abort, antichain: &Antichain, wanted: &[[u32; 7]]) {
    assert_eq!(rt; antichain.len(), wanted.len());
    for (k, parts) in wanted.iter().enumerate() {
        assert_eq!(rt; antichain.item(k).parts, *parts, "at {k}");
    }
}

// Inserts an energy, which is added or not.
fn inserts(
    rt: &impl Abort,
    antichain: &mut Antichain,
    parts: [u32; 7],
    is_new: bool,
) -> Result<(), AllocError> {
    assert_eq!(rt; antichain.insert(Energy { parts })?, is_new);
    Ok(())
}

// worked by hand
fn keeps_minimal(rt: &impl Abort, antichain: &mut Antichain) -> Result<(), AllocError> {
    inserts(rt, antichain, [2, 3, 0, 0, 1, 2, 0], true)?;
    inserts(rt, antichain, [2, 2, 1, 1, 0, 0, 0], true)?;
    inserts(rt, antichain, [2, 3, 1, 1, 1, 2, 0], false)?;
    holds(
        rt,
        antichain,
        &[[2, 2, 1, 1, 0, 0, 0], [2, 3, 0, 0, 1, 2, 0]],
    );
    inserts(rt, antichain, HIGH, true)?;
    holds(rt, antichain, &[HIGH]);
    Ok(())
}

#[test]
fn keeps_the_minimal_energies_in_order(rt: HostRuntime) -> Result<(), AllocError> {
    let mut antichain = Antichain::new(rt.alloc());
    keeps_minimal(&rt, &mut antichain)
}

// What comes of the two energies before a conjunction.
fn pulled(alloc: Global) -> Result<Antichain, AllocError> {
    let mut both = Antichain::new(alloc);
    both.insert(Energy { parts: HIGH })?;
    both.insert(Energy { parts: LOW })?;
    both.pull(Update::Conjoin)
}

#[test]
fn makes_minimal_energies_of_each_member(rt: HostRuntime) -> Result<(), AllocError> {
    let pulled = pulled(rt.alloc())?;
    holds(
        &rt,
        &pulled,
        &[[1, 10, 0, 0, 0, 0, 0], [2, 3, 0, 0, 0, 0, 0]],
    );
    Ok(())
}

fn high_and_low(alloc: Global) -> Result<Antichain, AllocError> {
    let mut both = Antichain::new(alloc);
    both.insert(Energy { parts: HIGH })?;
    both.insert(Energy { parts: LOW })?;
    Ok(both)
}

fn meets(rt: &impl Abort, alloc: Global, both: &Antichain) -> Result<(), AllocError> {
    holds(rt, both, &[LOW, HIGH]);
    holds(rt, &both.meet(&both.copy()?)?, &[LOW, HIGH]);
    holds(rt, &both.meet(&Antichain::new(alloc))?, &[]);
    Ok(())
}

#[test]
fn meets_a_copy_whole(rt: HostRuntime) -> Result<(), AllocError> {
    let both = high_and_low(rt.alloc())?;
    meets(&rt, rt.alloc(), &both)
}

fn clears(rt: &impl Abort, both: &mut Antichain) -> Result<(), AllocError> {
    let copy = both.copy()?;
    assert!(rt; both.is_same(&copy));
    both.clear();
    holds(rt, both, &[]);
    assert!(rt; !both.is_same(&copy));
    Ok(())
}

#[test]
fn tells_a_list_that_was_cleared_from_its_copy(rt: HostRuntime) -> Result<(), AllocError> {
    let mut both = high_and_low(rt.alloc())?;
    clears(&rt, &mut both)
}
