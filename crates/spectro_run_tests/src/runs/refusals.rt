use super::refuses;
use std::test::Fail;

#[test]
fn each_refusal_has_its_code_and_its_message(rt: HostRuntime) -> Result<(), Fail> {
    for (line, code, message) in [
        ("eval tt", 2, "spectro: words not understood\n"),
        (
            "eval and{} cut.aut --weights twice.txt",
            3,
            "spectro: cut.aut:2: BadLine\n",
        ),
        (
            "eval and{} stopped.aut --weights twice.txt",
            3,
            "spectro: formula:4: Unexpected\n",
        ),
        (
            "price tt --weights twice.txt",
            3,
            "spectro: twice.txt:2: Repeated\n",
        ),
        (
            "size stopped.aut cut.aut --limit 1",
            3,
            "spectro: cut.aut:2: BadLine\n",
        ),
        (
            "size early.aut late.aut --limit 38",
            4,
            "spectro: more than 38 positions\n",
        ),
        ("compare stopped.aut", 2, "spectro: words not understood\n"),
        ("demo 9001", 2, "spectro: words not understood\n"),
        (
            "compare stopped.aut step.aut --weights twice.txt --notions short.txt",
            3,
            "spectro: twice.txt:2: Repeated\n",
        ),
        (
            "compare stopped.aut step.aut --notions short.txt --limit 1",
            3,
            "spectro: short.txt:2: BadLine\n",
        ),
        (
            "compare stopped.aut stopped.aut --limit 7",
            4,
            "spectro: more than 7 positions\n",
        ),
        (
            "compare nothing.aut stopped.aut",
            5,
            "spectro: cannot read\n",
        ),
        ("rewrite nothing.aut", 5, "spectro: cannot read\n"),
    ] {
        refuses(&rt, rt.alloc(), line, code, message)?;
    }
    Ok(())
}
