// A sheet shares its parts, so the text of a formula may be longer than the sheet by any power of two. Its length is
// found first, node by node, lowest first, in numbers that stop at the greatest one; a text that is too long costs no byte.
// Then the text is written with a stack of what is still to be written, since a sheet may be as deep as it is long: what
// stands on the stack, from its top, is the rest of the text. To print until the limit is passed would write all those
// bytes for nothing, and functions that call each other would need a call for each level.
ghost use Rattle.std.specs.Prelude.{◌≡◌, ◌<◌, [], ◌∷◌, ◌++◌, length, codes, string_bytes, Some, IfOk, OnOk};
ghost use Rattle.spectro_hml.specs.Nodes.{node_shown};
ghost use Rattle.spectro_hml.specs.Sheets.{unfolded};
ghost use Rattle.spectro_hmltext.specs.Lengths.{AreLengths, text_bytes};
ghost use Rattle.spectro_hmltext.specs.Printed.{IsPrinted, formula_text, label_text};
ghost use Rattle.spectro_hmltext.specs.Rests.{IsRest, Leaves, clauses_in, rest_text, sign_text};
ghost use Rattle.spectro_hmltext.specs.declared.printer.Rest.TheVariants.{Clauses, Formula};

use crate::label::push_label;
use crate::lengths::text_bytes;
use spectro_hml::{Clause, Node, Sheet};
use std::alloc::{AllocError, Global};
use std::marker::Model;

/// The text of a formula.
#[derive(Drop)]
pub struct FormulaText {
    text: String,
}

impl Model for FormulaText {
    ghost use Rattle.std.specs.Prelude.{List, ℕ, string_bytes};

    ghost Value = { List ℕ };

    ghost view = { λ printed. string_bytes printed.text };
}

impl FormulaText {
    /// The bytes of the text.
    pub fn as_str(&self) -> &str
        ensures { result.now ≡ self.now }
    {
        self.text.as_str()
    }
}

/// The text of a formula, where it is not too long.
#[derive(Drop)]
pub enum Printed {
    Text(FormulaText),
    TooLong,
}

/// The text of the formula that the node unfolds to, where it has at most so many bytes.
///
/// It takes time by the nodes up to this one and the bytes of the text, however great the formula is.
pub fn print(alloc: Global, sheet: &Sheet, node: usize, max: u32) -> Result<Printed, AllocError>
    requires { node < length sheet.now }
    ensures { IfOk result (IsPrinted (unfolded sheet.now node) max) }
{
    let bytes = text_bytes(alloc, sheet, node)?;
    print_of_length(alloc, sheet, node, bytes, max)
}

/// The same, where the lengths of the texts of all nodes are known from `text_lengths`: for many nodes of one sheet these
/// are found once.
pub fn print_with_lengths(
    alloc: Global,
    sheet: &Sheet,
    lengths: &[u64],
    node: usize,
    max: u32,
) -> Result<Printed, AllocError>
    requires node { node < length sheet.now }
    requires lengths { AreLengths sheet.now (length sheet.now) lengths.now }
    ensures { IfOk result (IsPrinted (unfolded sheet.now node) max) }
{
    print_of_length(alloc, sheet, node, lengths[node], max)
}

// The same, where the text is known to have so many bytes.
fn print_of_length(
    alloc: Global,
    sheet: &Sheet,
    node: usize,
    bytes: u64,
    max: u32,
) -> Result<Printed, AllocError>
    requires node { node < length sheet.now }
    requires bytes { bytes ≡ text_bytes (unfolded sheet.now node) }
    ensures { IfOk result (IsPrinted (unfolded sheet.now node) max) }
{
    if bytes > u64::from(max) {
        return Ok(Printed::TooLong);
    }
    let text = text_of(alloc, sheet, node, bytes as usize)?;
    Ok(Printed::Text(FormulaText { text }))
}

/// What is still to be written of a text.
#[derive(Clone, Copy)]
pub(crate) enum Rest {
    /// The formula of the node.
    Formula(usize),
    /// The clauses of the node from this one on, and the brace behind them.
    Clauses { node: usize, from: usize },
}

// The text of the node's formula, in memory for so many bytes.
fn text_of(alloc: Global, sheet: &Sheet, node: usize, bytes: usize) -> Result<String, AllocError>
    requires { node < length sheet.now }
    ensures { IfOk result (λ text. string_bytes text ≡ formula_text (unfolded sheet.now node)) }
{
    let mut text = String::with_capacity(alloc, bytes)?;
    // what comes first is on top
    let mut rests = Vec::new(alloc);
    rests.push(Rest::Formula(node))?;
    while let Some(rest) = rests.pop() {
        write_rest(sheet, rest, &mut text, &mut rests)?;
    }
    Ok(text)
}

// Writes the front of what is to be written, and leaves what stands behind it.
fn write_rest(
    sheet: &Sheet,
    rest: Rest,
    text: &mut String,
    rests: &mut Vec<Rest>,
) -> Result<(), AllocError>
    requires { IsRest sheet.now rest }
    ensures { OnOk result (Leaves sheet.now (rest_text sheet.now rest) (string_bytes text.old) (string_bytes text.new)
        rests.old.items rests.new.items) }
{
    match rest {
        Rest::Formula(node) => write_formula(sheet, node, text, rests),
        Rest::Clauses { node, from } => write_clauses(sheet, node, from, text, rests),
    }
}

fn write_formula(
    sheet: &Sheet,
    node: usize,
    text: &mut String,
    rests: &mut Vec<Rest>,
) -> Result<(), AllocError>
    requires { node < length sheet.now }
    ensures { OnOk result (Leaves sheet.now (rest_text sheet.now (Formula node)) (string_bytes text.old) (string_bytes text.new)
        rests.old.items rests.new.items) }
{
    match sheet.node(node) {
        Node::See { label, next } => write_observation(label, next, text, rests),
        Node::All { clauses: [] } => text.push_str("tt"),
        Node::All { clauses } => {
            let behind = Rest::Clauses { node, from: 1 };
            write_clause("and{", clauses[0], behind, text, rests)
        }
    }
}

fn write_clauses(
    sheet: &Sheet,
    node: usize,
    from: usize,
    text: &mut String,
    rests: &mut Vec<Rest>,
) -> Result<(), AllocError>
    requires { node < length sheet.now }
    ensures { OnOk result (Leaves sheet.now (rest_text sheet.now (Clauses node from)) (string_bytes text.old) (string_bytes text.new)
        rests.old.items rests.new.items) }
{
    let clauses = clauses_of(sheet.node(node));
    if from >= clauses.len() {
        return text.push_str("}");
    }
    let behind = Rest::Clauses {
        node,
        from: from + 1,
    };
    write_clause(",", clauses[from], behind, text, rests)
}

// The clauses of a conjunction; an observation has none.
fn clauses_of(node: Node<'_>) -> &[Clause]
    ensures { result.now ≡ clauses_in (Some (node_shown node.entry)) }
{
    match node {
        Node::See { .. } => &[],
        Node::All { clauses } => clauses,
    }
}

// Writes what stands before the next formula, and leaves this one.
fn write_observation(
    label: &str,
    next: usize,
    text: &mut String,
    rests: &mut Vec<Rest>,
) -> Result<(), AllocError>
    ensures written { OnOk result (string_bytes text.new ≡ string_bytes text.old ++ (codes "<" ++ label_text label.now ++ codes ">")) }
    ensures left { OnOk result (rests.new.items ≡ rests.old.items ++ Formula next ∷ []) }
{
    text.push_str("<")?;
    push_label(label, text)?;
    text.push_str(">")?;
    rests.push(Rest::Formula(next))?;
    Ok(())
}

// Writes what stands before a clause's formula, and leaves this one and what stands behind it.
fn write_clause(
    before: &str,
    clause: Clause,
    behind: Rest,
    text: &mut String,
    rests: &mut Vec<Rest>,
) -> Result<(), AllocError>
    ensures written { OnOk result (string_bytes text.new ≡ string_bytes text.old ++ (before.now ++ sign_text clause)) }
    ensures left { OnOk result (rests.new.items ≡ rests.old.items ++ behind ∷ Formula clause.node ∷ []) }
{
    text.push_str(before)?;
    text.push_str(sign_text(clause))?;
    rests.push(behind)?;
    rests.push(Rest::Formula(clause.node))?;
    Ok(())
}

fn sign_text(clause: Clause) -> &'static str
    ensures { result.now ≡ sign_text clause }
{
    if clause.positive { "" } else { "not " }
}
