use super::writes;
use std::test::Fail;

#[test]
fn prints_the_formula_and_its_price(rt: HostRuntime) -> Result<(), Fail> {
    for (line, output) in [
        (
            "price and{<\"a\"><\"b\">tt,<\"a\">tt}",
            "and{<\"a\"><\"b\">tt,<\"a\">tt}\nprice 2 2 2 1 0 0\n",
        ),
        (
            "price <\"b\">tt --weights weights.txt",
            "<\"b\">tt\nprice 1 1 0 0 0 0 5\n",
        ),
    ] {
        writes(&rt, rt.alloc(), line, output)?;
    }
    Ok(())
}
