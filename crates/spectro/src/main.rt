//! The program: the words of the system, the real devices and exit codes.
#![tactic(auto)]

mod devices;
#[cfg(test)]
mod tests;

use devices::{FileShelf, StderrSink, StdinSource, StdoutSink};
use std::process::ExitCode;
use std::rt::Env;
use std::{env, io};

// The exit code where the words cannot be taken from the system, as where one is not UTF-8.
const NO_WORDS: u8 = 9;

fn take_words(rt: &(impl Env + AllocGlobal)) -> io::Result<Vec<String>> {
    let mut words = Vec::new(rt.alloc());
    for word in env::args(rt)?.skip(1) {
        words.push(word)?;
    }
    Ok(words)
}

fn main(rt: HostRuntime) -> ExitCode {
    let Ok(words) = take_words(&rt) else {
        return ExitCode::from(NO_WORDS);
    };
    let mut shelf = FileShelf::new(&rt);
    let mut input = StdinSource::new(rt.stdin());
    let mut out = StdoutSink::new(rt.stdout());
    let mut err = StderrSink::new(rt.stderr());
    let status = spectro_run::run(
        rt.alloc(),
        words.as_slice(),
        &mut shelf,
        &mut input,
        &mut out,
        &mut err,
    );
    ExitCode::from(status.code())
}
