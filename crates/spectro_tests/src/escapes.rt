use spectro_io::unquoted;
use std::alloc::{AllocError, Global};
use std::process::Abort;
use std::test::Fail;

fn stands_for(
    rt: &impl Abort,
    alloc: Global,
    inside: &str,
    expected: Option<&str>,
) -> Result<(), AllocError> {
    let label = unquoted(alloc, inside)?;
    assert_eq!(rt; label.as_deref(), expected);
    Ok(())
}

#[test]
fn undoes_the_escapes_of_labels(rt: HostRuntime) -> Result<(), Fail> {
    for (inside, expected) in [
        ("\\\"é\\\\", Some("\"é\\")),
        ("\\\\n", Some("\\n")),
        ("\\n", None),
        ("a\"", None),
    ] {
        stands_for(&rt, rt.alloc(), inside, expected)?;
    }
    Ok(())
}
