use super::writes;
use std::test::Fail;

#[test]
fn runs_with_ample_memory(rt: HostRuntime) -> Result<(), Fail> {
    for (line, output) in [
        ("eval tt stopped.aut", "true\nprice 0 1 0 0 0 0\n"),
        (
            "eval <\"a\">and{<\"b\">tt,not<\"c\">tt} early.aut",
            "true\nprice 2 2 1 0 1 1\n",
        ),
        (
            "eval <\"a\">and{<\"b\">tt,<\"c\">tt} early.aut --weights weights.txt",
            "false\nprice 2 2 1 1 0 0 5\n",
        ),
    ] {
        writes(&rt, rt.alloc(), line, output)?;
    }
    Ok(())
}
