use super::writes;
use std::test::Fail;

#[test]
fn counts_pairs_and_positions(rt: HostRuntime) -> Result<(), Fail> {
    for (line, output) in [
        ("size stopped.aut stopped.aut", "pairs 2, positions 8\n"),
        ("size step.aut stopped.aut", "pairs 3, positions 10\n"),
        (
            "size early.aut late.aut --limit 0000000039",
            "pairs 10, positions 39\n",
        ),
    ] {
        writes(&rt, rt.alloc(), line, output)?;
    }
    Ok(())
}
