use super::writes;
use std::test::Fail;

#[test]
fn sums_up_the_report_on_a_late_and_an_early_choice(rt: HostRuntime) -> Result<(), Fail> {
    for (line, output) in [
        (
            "demo 1",
            "demo 1\n\
            left: 3 states, 3 transitions\n\
            right: 4 states, 4 transitions\n\
            pairs 10, positions 39, energies 10\n\
            left to right: 6 hold, 7 fail\n\
            right to left: 3 hold, 10 fail\n\
            equivalences: 2 yes, 11 no\n",
        ),
        (
            "demo 200",
            "demo 200\n\
            left: 202 states, 202 transitions\n\
            right: 402 states, 402 transitions\n\
            pairs 1005, positions 4218, energies 1204\n\
            left to right: 6 hold, 7 fail\n\
            right to left: 3 hold, 10 fail\n\
            equivalences: 2 yes, 11 no\n",
        ),
        (
            "demo 2000",
            "demo 2000\n\
            left: 2002 states, 2002 transitions\n\
            right: 4002 states, 4002 transitions\n\
            pairs 10005, positions 42018, energies 12004\n\
            left to right: 6 hold, 7 fail\n\
            right to left: 3 hold, 10 fail\n\
            equivalences: 2 yes, 11 no\n",
        ),
    ] {
        writes(&rt, rt.alloc(), line, output)?;
    }
    Ok(())
}
