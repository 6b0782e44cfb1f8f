//! The program of the benchmark of the solver: it explores and solves the comparison of two files, in both directions, and says
//! how much work that was.
#![tactic(auto)]

ghost use Rattle.std.specs.Prelude.{◌≡◌, ◌≢◌, ◌<◌, [], All, IfSome};
ghost use Rattle.spectro_aut.specs.RoundTrip.{KeepsLimits};
ghost use Rattle.spectro_solve.specs.Solving.{IsArenaOf};

use spectro_lts::Lts;
use spectro_pairs::{Arena, explore};
use spectro_solve::{Steps, solve};
use spectro_weights::Weights;
use std::alloc::Global;
use std::marker::Brand;
use std::process::ExitCode;
use std::rt::{Env, Files};
use std::sync::ledger::{Blank, Ledger};
use std::{env, fs};

// how many positions a comparison may have
const LIMIT: u32 = 1_000_000;

// How far the work goes.
#[derive(Clone, Copy, PartialEq, Eq)]
enum Phase {
    Read,
    Explore,
    Solve,
}

impl Phase {
    // The phase of the word. Where there is none, all of the work is done.
    fn of(word: Option<&str>) -> Phase {
        match word {
            Some("read") => Phase::Read,
            Some("explore") => Phase::Explore,
            _ => Phase::Solve,
        }
    }
}

// How much work was done.
#[derive(Clone, Copy, Default)]
struct Extent {
    pairs: u32,
    positions: u32,
    generations: u32,
    evaluations: u64,
    energies: u64,
}

// The extent of the arena.
fn explored(arena: &Arena) -> Extent {
    Extent {
        pairs: arena.pair_count(),
        positions: arena.size(),
        ..Extent::default()
    }
}

// The extent of the arena, and of what is solved.
fn solved<L: Ledger>(alloc: Global, lts: &Lts, arena: &Arena, blank: Blank) -> Option<Extent>
    requires arena { IsArenaOf lts.now arena.now }
    requires name { blank.name ≡ L.name }
    requires parts { blank.parts ≡ L.parts }
    requires some { 0 < blank.parts }
{
    let mut steps = Steps::<L>::new(blank);
    let table = solve(alloc, lts, arena, &mut steps).ok()?;
    Some(Extent {
        generations: table.generations(),
        evaluations: table.evaluations(),
        energies: table.energies(),
        ..explored(arena)
    })
}

// The extent of what the starts reach.
fn extent_of(alloc: Global, lts: &Lts, starts: &[(u32, u32)], phase: Phase) -> Option<Extent>
    requires some { starts.now ≢ [] }
    requires in_range { All (λ start. (start.0 < lts.now.states) × (start.1 < lts.now.states)) starts.now }
{
    let Ok(arena) = explore(alloc, lts, &Weights::new(alloc), starts, LIMIT) else {
        return None;
    };
    match phase {
        Phase::Solve => solved::<Brand>(alloc, lts, &arena, Blank::new(1)),
        _ => Some(explored(&arena)),
    }
}

// The extent of the comparison in both directions.
fn compared(alloc: Global, left: &Lts, right: &Lts, phase: Phase) -> Option<Extent>
    requires left { KeepsLimits left.now }
    requires right { KeepsLimits right.now }
{
    let both = Lts::join(alloc, left, right).ok()?;
    let other = left.states() + right.initial();
    let starts = [(left.initial(), other), (other, left.initial())];
    extent_of(alloc, &both, &starts, phase)
}

// The system of the file.
fn read<R: Files + AllocGlobal>(rt: &R, name: &str) -> Option<Lts>
    ensures { IfSome result KeepsLimits }
{
    let text = fs::read_to_string(rt, name).ok()?;
    match spectro_aut::read(rt.alloc(), text.as_bytes()) {
        Ok(lts) => Some(lts),
        Err(_) => None,
    }
}

// The extent of the comparison of the two files.
fn extent_of_files<R: Files + AllocGlobal>(
    rt: &R,
    left: &str,
    right: &str,
    phase: Phase,
) -> Option<Extent> {
    let left = read(rt, left)?;
    let right = read(rt, right)?;
    match phase {
        Phase::Read => Some(Extent::default()),
        _ => compared(rt.alloc(), &left, &right, phase),
    }
}

// The words of the system, the program's name left out.
fn words(rt: &(impl Env + AllocGlobal)) -> Option<Vec<String>> {
    let mut words = Vec::new(rt.alloc());
    for word in env::args(rt).ok()?.skip(1) {
        words.push(word).ok()?;
    }
    Some(words)
}

// The extent of what the words ask for.
fn measured<R: Env + Files + AllocGlobal>(rt: &R) -> Option<Extent> {
    let words = words(rt)?;
    let phase = Phase::of(words.get(2).map(|word| word.as_str()));
    extent_of_files(rt, words.first()?, words.get(1)?, phase)
}

// What could not be done ends with exit code 1, and nothing is written.
fn main(rt: HostRuntime) -> ExitCode {
    let Some(extent) = measured(&rt) else {
        return ExitCode::from(1);
    };
    let written = println!(rt;
        "pairs {}, positions {}, generations {}, evaluations {}, energies {}",
        extent.pairs, extent.positions, extent.generations, extent.evaluations, extent.energies
    );
    ExitCode::from(u8::from(written.is_err()))
}
