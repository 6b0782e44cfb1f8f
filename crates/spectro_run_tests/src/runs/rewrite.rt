use super::writes;
use std::test::Fail;

#[test]
fn writes_labels_in_quotes(rt: HostRuntime) -> Result<(), Fail> {
    for (line, output) in [
        ("rewrite stopped.aut", "des (0, 0, 1)\n"),
        ("rewrite step.aut", "des (0, 1, 2)\n(0, \"a\", 1)\n"),
    ] {
        writes(&rt, rt.alloc(), line, output)?;
    }
    Ok(())
}
