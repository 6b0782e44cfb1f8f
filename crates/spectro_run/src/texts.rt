//! The texts that commands ask for: read from the shelf to their ends, and then taken as what they stand for.

ghost use Rattle.std.specs.Prelude.{◌≡◌, ◌≤◌, ℕ, List, None, Some, IfOk, OnOk, IfErr, IfSome, IsErrOf};
ghost use Rattle.spectro_aut.specs.RoundTrip.{KeepsLimits};
ghost use Rattle.spectro_io.specs.Faults.{Rose};
ghost use Rattle.spectro_aut.specs.Feeding.{HasTaken};
ghost use Rattle.spectro_aut.specs.Texts.{IsText};
ghost use Rattle.spectro_hmltext.specs.Parsing.{IsParsed};
ghost use Rattle.spectro_notions.specs.NotionTexts.{IsNotionText};
ghost use Rattle.spectro_weights.specs.WeightTexts.{IsWeightText};
ghost use Rattle.spectro_words.specs.Words.{named};
ghost use Rattle.spectro_run.specs.Reading.{IsUnread, LeavesRest, OrMemory, ReadsToEnd, TakesText};
ghost use Rattle.spectro_run.specs.Refusals.{RefusesSystem, RefusesTable, RefusesWeighing, formula_of, system_of, table_of, weighing_of};
ghost use Rattle.spectro_run.specs.Stops.{Counts, Stops, TakesStage};

use crate::status::{BadText, Kind, Status, Which};
use spectro_aut::{AutError, Feed};
use spectro_hmltext::{ParseError, Parsed, parse};
use spectro_io::{Intake, Shelf, read_into};
use spectro_lts::Lts;
use spectro_notions::{NotionError, Notions, read_notions};
use spectro_weights::{WeightError, Weights, read_weights};
use std::alloc::Global;

// Takes the text that the name holds, or as much of it as is read.
fn take_text<H: Shelf, I: Intake>(name: &str, intake: &mut I, shelf: &mut H) -> Result<(), Status>
    ensures text { OnOk result (TakesText (H.texts shelf.old) name.now I.has_taken intake.old intake.new) }
    ensures rest { OnOk result (LeavesRest (H.texts shelf.old) (Some name.now) (H.left shelf.new)) }
    ensures cause { IfErr result (OrMemory (IsUnread (H.texts shelf.old) name.now (H.faults shelf.old) (H.faults shelf.new))) }
    ensures texts { H.texts shelf.new ≡ H.texts shelf.old }
    ensures counts { Counts (H.faults shelf.old) (H.faults shelf.new) result }
{
    let Ok(true) = shelf.open(name) else {
        return Err(Status::ReadFault);
    };
    Ok(read_into(shelf, intake)?)
}

// The system of the text that was taken.
fn read_system(feed: Feed, which: Which) -> Result<Lts, Status>
    ensures ok { IfOk result (λ lts. (bytes : List ℕ) → HasTaken feed bytes → IsText bytes lts) }
    ensures refused { IfErr result (λ status. (bytes : List ℕ) → HasTaken feed bytes → OrMemory (RefusesSystem which bytes) status) }
{
    match feed.finish() {
        Ok(lts) => Ok(lts),
        Err(AutError::Text(fault)) => Err(Status::BadText(BadText {
            which,
            at: fault.line,
            kind: Kind::Aut(fault.kind),
        })),
        Err(AutError::OutOfMemory) => Err(Status::OutOfMemory),
    }
}

/// The system of the text that the name holds.
pub fn take_system<H: Shelf>(
    alloc: Global,
    name: &str,
    which: Which,
    shelf: &mut H,
) -> Result<Lts, Status>
    ensures stage { TakesStage (H.texts shelf.old) (Some name.now) (system_of which) (Rose (H.faults shelf.old) (H.faults shelf.new)) result }
    ensures whole { IfErr result (ReadsToEnd (H.texts shelf.old) (Some name.now) which (H.left shelf.new)) }
    ensures limits { IfOk result KeepsLimits }
    ensures counts { Counts (H.faults shelf.old) (H.faults shelf.new) result }
    ensures texts { H.texts shelf.new ≡ H.texts shelf.old }
{
    let mut feed = Feed::new(alloc)?;
    take_text(name, &mut feed, shelf)?;
    read_system(feed, which)
}

/// The sheet of the formula of which the word is a text.
pub fn read_formula(alloc: Global, text: &str) -> Result<Parsed, Status>
    ensures ok { IfOk result (λ parsed. IsParsed text.now parsed.sheet parsed.top) }
    ensures stopped { IfErr result (Stops (formula_of text.now).Refuses ⊥) }
{
    match parse(alloc, text) {
        Ok(parsed) => Ok(parsed),
        Err(ParseError::Text(fault)) => Err(Status::BadText(BadText {
            which: Which::Formula,
            at: u64::from(fault.at),
            kind: Kind::Formula(fault.kind),
        })),
        Err(ParseError::OutOfMemory) => Err(Status::OutOfMemory),
    }
}

// The weights of the text.
fn read_weighing(alloc: Global, bytes: &[u8]) -> Result<Weights, Status>
    ensures ok { IfOk result (IsWeightText bytes.now) }
    ensures refused { IfErr result (OrMemory (RefusesWeighing bytes.now)) }
{
    match read_weights(alloc, bytes) {
        Ok(weights) => Ok(weights),
        Err(WeightError::Text(fault)) => Err(Status::BadText(BadText {
            which: Which::Weights,
            at: fault.line,
            kind: Kind::Weights(fault.kind),
        })),
        Err(WeightError::OutOfMemory) => Err(Status::OutOfMemory),
    }
}

/// The weights of the text that the name holds. Where no name is given, every label weighs 1, and the shelf is left alone.
pub fn take_weights<H: Shelf>(
    alloc: Global,
    name: Option<&str>,
    shelf: &mut H,
) -> Result<Weights, Status>
    ensures stage { TakesStage (H.texts shelf.old) (named name.entry) (weighing_of (named name.entry)) (Rose (H.faults shelf.old) (H.faults shelf.new)) result }
    ensures whole { IfErr result (ReadsToEnd (H.texts shelf.old) (named name.entry) Which.Weights (H.left shelf.new)) }
    ensures counts { Counts (H.faults shelf.old) (H.faults shelf.new) result }
    ensures texts { H.texts shelf.new ≡ H.texts shelf.old }
    ensures alone { named name.entry ≡ None → shelf.new ≡ shelf.old }
{
    let Some(name) = name else {
        return Ok(Weights::new(alloc));
    };
    let mut bytes = Vec::new(alloc);
    take_text(name, &mut bytes, shelf)?;
    read_weighing(alloc, &bytes)
}

// The notions of the text.
fn read_table(alloc: Global, bytes: &[u8]) -> Result<Notions, Status>
    ensures ok { IfOk result (IsNotionText bytes.now) }
    ensures refused { IfErr result (OrMemory (RefusesTable bytes.now)) }
{
    match read_notions(alloc, bytes) {
        Ok(notions) => Ok(notions),
        Err(NotionError::Text(fault)) => Err(Status::BadText(BadText {
            which: Which::Notions,
            at: fault.line,
            kind: Kind::Notions(fault.kind),
        })),
        Err(NotionError::OutOfMemory) => Err(Status::OutOfMemory),
    }
}

/// The notions of the text that the name holds. Where no name is given, they are the thirteen of the spectrum, and the shelf
/// is left alone.
pub fn take_notions<H: Shelf>(
    alloc: Global,
    name: Option<&str>,
    shelf: &mut H,
) -> Result<Notions, Status>
    ensures stage { TakesStage (H.texts shelf.old) (named name.entry) (table_of (named name.entry)) (Rose (H.faults shelf.old) (H.faults shelf.new)) result }
    ensures whole { IfErr result (ReadsToEnd (H.texts shelf.old) (named name.entry) Which.Notions (H.left shelf.new)) }
    ensures counts { Counts (H.faults shelf.old) (H.faults shelf.new) result }
    ensures texts { H.texts shelf.new ≡ H.texts shelf.old }
    ensures alone { named name.entry ≡ None → shelf.new ≡ shelf.old }
{
    let Some(name) = name else {
        return Ok(Notions::builtin(alloc));
    };
    let mut bytes = Vec::new(alloc);
    take_text(name, &mut bytes, shelf)?;
    read_table(alloc, &bytes)
}
