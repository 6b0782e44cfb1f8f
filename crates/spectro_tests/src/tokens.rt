use spectro_io::token_at;
use std::process::Abort;

fn begins_with(rt: &impl Abort, line: &str, token: &str, rest: &str) {
    let (first, others) = token_at(line.as_bytes());
    assert_eq!(rt; first, token.as_bytes());
    assert_eq!(rt; others, rest.as_bytes());
}

#[test]
fn tokens_stand_between_blanks(rt: HostRuntime) {
    for (line, token, rest) in [
        (" pair 0\t2 ", "pair", " 0\t2 "),
        ("\t2 ", "2", " "),
        (" ", "", ""),
    ] {
        begins_with(&rt, line, token, rest);
    }
}
