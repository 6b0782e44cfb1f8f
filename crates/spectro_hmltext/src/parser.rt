// Recursive descent, as in Wirth's compilers: a function for each part of the grammar, which looks at the next token and
// never goes back. Formulas stand in one another 256 deep at most, so the functions call each other no deeper. Each
// occurrence of a formula becomes a node behind those of its parts: nothing is looked up, and the last node is the whole.
// A stack of its own in place of calls would go deeper than the format allows, and contracts would speak of stacks; here
// the contract of a function is the grammar's word for its part, and the first fault of a part is one of the whole.
ghost use Rattle.std.specs.Prelude.{◌≤◌, ◌↔◌, IsTrue, length, IfOk, IfErr};
ghost use Rattle.std.specs.Str.{IsUtf8};
ghost use Rattle.spectro_hmltext.specs.Faults.{AreFaultyClauses, BeginsFormula, IsClauseFault, IsFormulaFault, IsRefused, IsTextFault};
ghost use Rattle.spectro_hmltext.specs.Parsing.{IsParsed};
ghost use Rattle.spectro_hmltext.specs.Parts.{AreRead, BeginsClause, IsBegun, IsFaultBehind, IsRead, IsReadBehind, IsReadClause};
ghost use Rattle.spectro_hmltext.specs.Stops.{StopsAt};
ghost use Rattle.spectro_hmltext.specs.declared.token.Token.TheVariants.{And, Less};

use crate::error::{ParseError, TextFault, TextKind};
use crate::quoted_label::label_at;
use crate::stop::{Stop, behind, misplaced};
use crate::token::{Token, token_at};
use spectro_hml::{Clause, Sheet};
use spectro_io::trim_start;
use std::alloc::Global;

/// How many bytes a formula's text may have.
pub const MAX_TEXT_BYTES: usize = 65_536;

/// How many formulas may stand in one another.
const MAX_NESTING: u32 = 256;

/// The sheet of a text's formula, in which each occurrence of a formula is a node of its own, inner ones first.
#[derive(Drop)]
pub struct Parsed {
    pub sheet: Sheet,
    /// The number of the whole formula's node, which is the last.
    pub top: usize,
}

/// The formula of which the text is one, or its first fault from the left.
pub fn parse(alloc: Global, text: &str) -> Result<Parsed, ParseError>
    ensures ok { IfOk result (λ parsed. IsParsed text.now parsed.sheet parsed.top) }
    ensures refused { IfErr result (IsRefused text.now) }
{
    let bytes = text.as_bytes();
    if bytes.len() > MAX_TEXT_BYTES {
        return Err(ParseError::Text(TextFault {
            at: MAX_TEXT_BYTES as u32,
            kind: TextKind::TooLong,
        }));
    }
    match whole(alloc, bytes) {
        Ok(parsed) => Ok(parsed),
        Err(Stop::Fault { left, kind }) => Err(ParseError::Text(TextFault {
            at: (bytes.len() - left) as u32,
            kind,
        })),
        Err(Stop::OutOfMemory) => Err(ParseError::OutOfMemory),
    }
}

// The formula, with nothing behind it.
fn whole(alloc: Global, text: &[u8]) -> Result<Parsed, Stop>
    requires utf8 { IsUtf8 text.now }
    requires short { length text.now ≤ MAX_TEXT_BYTES }
    ensures ok { IfOk result (λ parsed. IsParsed text.now parsed.sheet parsed.top) }
    ensures stopped { IfErr result (StopsAt (IsTextFault text.now)) }
{
    let mut sheet = Sheet::new(alloc);
    let read = formula(alloc, text, 1, &mut sheet)?;
    behind(Token::End, read.rest)?;
    Ok(Parsed {
        sheet,
        top: read.node,
    })
}

// The number of a formula's node, and what stands behind the formula.
#[derive(Clone, Copy)]
struct Read<'a> {
    node: usize,
    rest: &'a [u8],
}

// The formula at the front of the text, in as many others as its nesting is above 1.
#[cycle(formula)]
fn formula<'a>(
    alloc: Global,
    text: &'a [u8],
    nesting: u32,
    sheet: &mut Sheet,
) -> Result<Read<'a>, Stop>
    requires utf8 { IsUtf8 text.now }
    requires nesting { nesting ≤ 257 }
    ensures ok { IfOk result (λ read. IsRead nesting text.now sheet.old sheet.new read.node read.rest.now) }
    ensures stopped { IfErr result (StopsAt (λ left kind. IsFormulaFault left kind nesting text.now)) }
{
    let (token, behind) = begun(text, nesting)?;
    match token {
        Token::Less => observation(alloc, behind, nesting, sheet),
        Token::And => conjunction(alloc, behind, nesting, sheet),
        _ => {
            let node = sheet.push_all(&[])?;
            Ok(Read { node, rest: behind })
        }
    }
}

// The token with which a formula begins, and what stands behind it.
fn begun(text: &[u8], nesting: u32) -> Result<(Token, &[u8]), Stop>
    requires { IsUtf8 text.now }
    ensures ok { IfOk result (λ begun. IsBegun nesting text.now begun.0 begun.1.now) }
    ensures stopped { IfErr result (StopsAt (λ left kind. IsFormulaFault left kind nesting text.now)) }
{
    let (token, behind) = token_at(text);
    if !begins_formula(token) {
        return Err(misplaced(text));
    }
    if nesting > MAX_NESTING {
        return Err(Stop::Fault {
            left: trim_start(text).len(),
            kind: TextKind::TooDeep,
        });
    }
    Ok((token, behind))
}

// Whether a formula can begin with the token.
fn begins_formula(token: Token) -> bool
    ensures { IsTrue result ↔ BeginsFormula token }
{
    matches!(token, Token::Truth | Token::Less | Token::And)
}

// The rest of an observation, behind its `<`.
#[cycle(formula)]
fn observation<'a>(
    alloc: Global,
    opened: &'a [u8],
    nesting: u32,
    sheet: &mut Sheet,
) -> Result<Read<'a>, Stop>
    requires utf8 { IsUtf8 opened.now }
    requires nesting { nesting ≤ MAX_NESTING }
    ensures ok { IfOk result (λ read. IsReadBehind Less nesting opened.now sheet.old sheet.new read.node read.rest.now) }
    ensures stopped { IfErr result (StopsAt (IsFaultBehind Less nesting opened.now)) }
{
    let (label, labelled) = label_at(alloc, opened)?;
    let closed = behind(Token::Greater, labelled)?;
    let read = formula(alloc, closed, nesting + 1, sheet)?;
    let node = sheet.push_see(label.as_str(), read.node)?;
    Ok(Read {
        node,
        rest: read.rest,
    })
}

// The rest of a conjunction, behind its `and`.
#[cycle(formula)]
fn conjunction<'a>(
    alloc: Global,
    word: &'a [u8],
    nesting: u32,
    sheet: &mut Sheet,
) -> Result<Read<'a>, Stop>
    requires utf8 { IsUtf8 word.now }
    requires nesting { nesting ≤ MAX_NESTING }
    ensures ok { IfOk result (λ read. IsReadBehind And nesting word.now sheet.old sheet.new read.node read.rest.now) }
    ensures stopped { IfErr result (StopsAt (IsFaultBehind And nesting word.now)) }
{
    let opened = behind(Token::OpenBrace, word)?;
    let listed = clauses(alloc, opened, nesting + 1, sheet)?;
    let node = sheet.push_all(&listed.clauses)?;
    Ok(Read {
        node,
        rest: listed.rest,
    })
}

// The clauses of a conjunction, and what stands behind its closing brace.
#[derive(Drop)]
struct Listed<'a> {
    clauses: Vec<Clause>,
    rest: &'a [u8],
}

// The clauses at the front of the text, and the brace behind the last.
#[cycle(formula)]
fn clauses<'a>(
    alloc: Global,
    text: &'a [u8],
    nesting: u32,
    sheet: &mut Sheet,
) -> Result<Listed<'a>, Stop>
    requires utf8 { IsUtf8 text.now }
    requires nesting { nesting ≤ 257 }
    ensures ok { IfOk result (λ listed. AreRead nesting text.now sheet.old sheet.new listed.clauses.items listed.rest.now) }
    ensures stopped { IfErr result (StopsAt (λ left kind. AreFaultyClauses left kind nesting text.now)) }
{
    let mut clauses = Vec::new(alloc);
    let mut rest = text;
    loop {
        clauses.reserve(1)?;
        let read = clause(alloc, rest, nesting, sheet)?;
        clauses.push_reserved(read.clause);
        let (token, behind) = token_at(read.rest);
        match token {
            Token::Comma => rest = behind,
            Token::CloseBrace => {
                return Ok(Listed {
                    clauses,
                    rest: behind,
                });
            }
            _ => return Err(misplaced(read.rest)),
        }
    }
}

// A clause, and what stands behind it.
#[derive(Clone, Copy)]
struct ReadClause<'a> {
    clause: Clause,
    rest: &'a [u8],
}

// The clause at the front of the text: a formula, or `not` and a formula.
#[cycle(formula)]
fn clause<'a>(
    alloc: Global,
    text: &'a [u8],
    nesting: u32,
    sheet: &mut Sheet,
) -> Result<ReadClause<'a>, Stop>
    requires utf8 { IsUtf8 text.now }
    requires nesting { nesting ≤ 257 }
    ensures ok { IfOk result (λ read. IsReadClause nesting text.now sheet.old sheet.new read.clause read.rest.now) }
    ensures stopped { IfErr result (StopsAt (λ left kind. IsClauseFault left kind nesting text.now)) }
{
    let (positive, begun) = sign(text);
    let read = formula(alloc, begun, nesting, sheet)?;
    Ok(ReadClause {
        clause: Clause {
            positive,
            node: read.node,
        },
        rest: read.rest,
    })
}

// Whether the clause is positive, and where its formula begins.
fn sign(text: &[u8]) -> (bool, &[u8])
    ensures { BeginsClause text.now result.0 result.1.now }
{
    match token_at(text) {
        (Token::Not, behind) => (false, behind),
        _ => (true, text),
    }
}
