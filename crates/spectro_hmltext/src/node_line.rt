ghost use Rattle.std.specs.Prelude.{◌≡◌, ◌↔◌, ◌<◌, ℕ, All, List, length, IfErr, IfOk, IsTrue, MatchOption, OnErr, OnOk};
ghost use Rattle.spectro_io.specs.Blanks.{IsApart};
ghost use Rattle.spectro_hml.specs.Clauses.{ClausesRise, IsBeforeClause};
ghost use Rattle.spectro_hmltext.specs.NodeFaults.{IsRefused};
ghost use Rattle.spectro_hmltext.specs.NodeLines.{BeginsQuoted, IsAppended, all_form, see_form};
ghost use Rattle.spectro_hmltext.specs.NodeReading.{
  AreClausesRead,
  AreNoClauses,
  IsFormRefused,
  IsNoObservation,
  IsObservationRead,
  IsPut,
  clause_read,
};
ghost use Rattle.spectro_hmltext.specs.declared.node_line.NodeError.TheVariants.{OutOfMemory};

use spectro_hml::{Clause, Sheet, clauses_come_in_order};
use spectro_io::{number, quoted_at, token_at, trim_start, unquoted};
use std::alloc::{AllocError, Global};

// The greatest number that the line of a node may have.
const MAX_NUMBER: u64 = 4_294_967_295;

/// Why a line is of no node that may stand next in a sheet.
#[derive(Clone, Copy, Debug, PartialEq, Eq)]
pub enum NodeError {
    /// The line has not the form of a node's, whatever stands between the quotes.
    BadLine,
    /// A number is above 4,294,967,295.
    BadNumber,
    /// The clauses do not rise strictly by number, `+` before `-` for one number.
    NotRising,
    /// The first number is not that of the next node, or another one is not below it.
    BadNode,
    /// What stands between the quotes is of no label.
    BadLabel,
    /// Nothing is said of the line.
    OutOfMemory,
}

impl From<AllocError> for NodeError {
    ghost from_gives = { λ _ error. error ≡ OutOfMemory };

    fn from(_error: AllocError) -> NodeError {
        NodeError::OutOfMemory
    }
}

/// What stands between the quotes, and the number behind it, or the greatest `u64` where it is greater.
#[derive(Clone, Copy)]
struct Observation<'a> {
    inside: &'a [u8],
    next: u64,
}

/// Appends the node of the line to the sheet. A line is `NUMBER see "LABEL" NUMBER`, or `NUMBER all` with `+NUMBER` or
/// `-NUMBER` for each clause, and blanks. Faults are tested in the order `BadLine`, `BadLabel`, `BadNumber`, `BadNode`,
/// `NotRising`.
pub fn parse_node_line(alloc: Global, sheet: &mut Sheet, line: &str) -> Result<(), NodeError>
    ensures ok { OnOk result (IsAppended line.now sheet.old sheet.new) }
    ensures refused { IfErr result (IsRefused line.now (length sheet.old)) }
    ensures err { OnErr result (sheet.new ≡ sheet.old) }
{
    let (digits, behind_number) = token_at(line.as_bytes());
    let Some(number) = number(digits) else {
        return Err(NodeError::BadLine);
    };
    let (word, behind_word) = token_at(behind_number);
    if word == b"see".as_slice() {
        let Some(observation) = observation_in(behind_word) else {
            return Err(NodeError::BadLine);
        };
        let Ok(inside) = str::from_utf8(observation.inside) else {
            return Err(NodeError::BadLine);
        };
        return put_see(alloc, sheet, number, inside, observation.next);
    }
    if word == b"all".as_slice() {
        let Some(clauses) = clauses_in(alloc, behind_word)? else {
            return Err(NodeError::BadLine);
        };
        return put_all(sheet, number, clauses.as_slice());
    }
    Err(NodeError::BadLine)
}

// Whether nothing, or a blank, stands first.
fn is_apart(text: &[u8]) -> bool
    ensures { IsTrue result ↔ IsApart text.now }
{
    match text {
        [byte, ..] => *byte == b' ' || *byte == b'\t',
        [] => true,
    }
}

// What stands between the quotes of the first word, and what stands behind them.
fn quoted_word(text: &[u8]) -> Option<(&[u8], &[u8])>
    ensures { MatchOption result ((inside rest : List ℕ) → ¬ BeginsQuoted text.now inside rest) (λ parts. BeginsQuoted text.now parts.0.now parts.1.now) }
{
    let (inside, rest) = quoted_at(trim_start(text))?;
    if !is_apart(rest) {
        return None;
    }
    Some((inside, rest))
}

// What stands between quotes, and the number behind it, where no more stands there.
fn observation_in(text: &[u8]) -> Option<Observation<'_>>
    ensures { MatchOption result (IsNoObservation text.now) (IsObservationRead text.now) }
{
    let (inside, rest) = quoted_word(text)?;
    let (digits, back) = token_at(rest);
    let next = number(digits)?;
    if !trim_start(back).is_empty() {
        return None;
    }
    Some(Observation { inside, next })
}

// The clause of a sign and digits.
fn clause_in(token: &[u8]) -> Option<Clause>
    ensures { result ≡ clause_read token.now }
{
    let (positive, digits) = match token {
        [b'+', digits @ ..] => (true, digits),
        [b'-', digits @ ..] => (false, digits),
        _ => return None,
    };
    let node = number(digits)?;
    Some(Clause {
        positive,
        node: node as usize,
    })
}

// The clauses of the text, where no more stands there.
fn clauses_in(alloc: Global, text: &[u8]) -> Result<Option<Vec<Clause>>, AllocError>
    ensures { IfOk result (λ read. MatchOption read (AreNoClauses text.now) (λ read. AreClausesRead text.now read.items)) }
{
    let mut clauses = Vec::new(alloc);
    let mut rest = text;
    loop {
        let (token, behind) = token_at(rest);
        if token.is_empty() {
            return Ok(Some(clauses));
        }
        let Some(clause) = clause_in(token) else {
            return Ok(None);
        };
        clauses.push(clause)?;
        rest = behind;
    }
}

// Puts an observation behind the other nodes.
fn put_see(
    alloc: Global,
    sheet: &mut Sheet,
    number: u64,
    inside: &str,
    next: u64,
) -> Result<(), NodeError>
    ensures ok { OnOk result (IsPut (see_form number inside.now next) sheet.old sheet.new) }
    ensures refused { IfErr result (IsFormRefused (see_form number inside.now next) (length sheet.old)) }
    ensures err { OnErr result (sheet.new ≡ sheet.old) }
{
    let Some(label) = unquoted(alloc, inside)? else {
        return Err(NodeError::BadLabel);
    };
    if MAX_NUMBER < number || MAX_NUMBER < next {
        return Err(NodeError::BadNumber);
    }
    let place = sheet.len() as u64;
    if number != place || place <= next {
        return Err(NodeError::BadNode);
    }
    sheet.push_see(label.as_str(), next as usize)?;
    Ok(())
}

// Puts a conjunction behind the other nodes.
fn put_all(sheet: &mut Sheet, number: u64, clauses: &[Clause]) -> Result<(), NodeError>
    ensures ok { OnOk result (IsPut (all_form number clauses.now) sheet.old sheet.new) }
    ensures refused { IfErr result (IsFormRefused (all_form number clauses.now) (length sheet.old)) }
    ensures err { OnErr result (sheet.new ≡ sheet.old) }
{
    if MAX_NUMBER < number || !are_below(clauses, MAX_NUMBER + 1) {
        return Err(NodeError::BadNumber);
    }
    let place = sheet.len() as u64;
    if number != place || !are_below(clauses, place) {
        return Err(NodeError::BadNode);
    }
    if !do_rise(clauses) {
        return Err(NodeError::NotRising);
    }
    sheet.push_all(clauses)?;
    Ok(())
}

// Whether the number of each clause is below the limit.
fn are_below(clauses: &[Clause], limit: u64) -> bool
    ensures { IsTrue result ↔ All (λ clause. clause.node < limit) clauses.now }
{
    clauses.iter().all(|clause| (clause.node as u64) < limit)
}

// Whether the first clause comes before the second.
fn is_before(first: Clause, second: Clause) -> bool
    ensures { IsTrue result ↔ IsBeforeClause first second }
{
    clauses_come_in_order();
    first < second
}

// Whether each clause comes before the next.
fn do_rise(clauses: &[Clause]) -> bool
    ensures { IsTrue result ↔ ClausesRise clauses.now }
{
    let mut rest = clauses;
    while let [first, others @ ..] = rest {
        if let [second, ..] = others
            && !is_before(*first, *second)
        {
            return false;
        }
        rest = others;
    }
    true
}
