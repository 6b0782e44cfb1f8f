ghost use Rattle.std.specs.Prelude.{◌≡◌, ◌++◌};
ghost use Rattle.std.specs.Fmt.{decimal};
ghost use Rattle.spectro_io.specs.Batches.{Puts};
ghost use Rattle.spectro_io.specs.Bytes.{WritesWhole};
ghost use Rattle.spectro_io.specs.Faults.{HasCause};
ghost use Rattle.spectro_hml.specs.Nodes.{node_shown};
ghost use Rattle.spectro_hml.specs.Sheets.{all_node, see_node};
ghost use Rattle.spectro_hmltext.specs.SheetTexts.{clause_text, node_text, sheet_text, sign};

use crate::label::put_label;
use spectro_hml::{Clause, Node, Sheet};
use spectro_io::{Batch, Digits, Failed, Sink};

/// Writes a line for each node of the sheet.
pub fn print_sheet<O: Sink>(sheet: &Sheet, out: &mut O) -> Result<(), Failed>
    ensures bytes { WritesWhole (O.written out.old) (O.written out.new) result (sheet_text sheet.now) }
    ensures cause { HasCause (O.faults out.old) (O.faults out.new) result }
{
    let mut batch = Batch::new();
    put_sheet(sheet, &mut batch, out)?;
    batch.flush(out)
}

/// Puts a line for each node of the sheet behind the bytes that are held.
pub fn put_sheet<O: Sink>(sheet: &Sheet, batch: &mut Batch, out: &mut O) -> Result<(), Failed>
    ensures bytes { Puts (O.written out.old) (O.written out.new) result batch.new (batch.old ++ sheet_text sheet.now) }
    ensures cause { HasCause (O.faults out.old) (O.faults out.new) result }
{
    for k in 0..sheet.len() {
        put_node(k, sheet.node(k), batch, out)?;
    }
    Ok(())
}

fn put_node<O: Sink>(
    number: usize,
    node: Node<'_>,
    batch: &mut Batch,
    out: &mut O,
) -> Result<(), Failed>
    ensures bytes { Puts (O.written out.old) (O.written out.new) result batch.new (batch.old ++ node_text number (node_shown node.entry)) }
    ensures cause { HasCause (O.faults out.old) (O.faults out.new) result }
{
    match node {
        Node::See { label, next } => put_observation(number, label, next, batch, out),
        Node::All { clauses } => put_conjunction(number, clauses, batch, out),
    }
}

fn put_observation<O: Sink>(
    number: usize,
    label: &str,
    next: usize,
    batch: &mut Batch,
    out: &mut O,
) -> Result<(), Failed>
    ensures bytes { Puts (O.written out.old) (O.written out.new) result batch.new (batch.old ++ node_text number (see_node label.now next)) }
    ensures cause { HasCause (O.faults out.old) (O.faults out.new) result }
{
    batch.put_all(&[digits(number).as_bytes(), b" see "], out)?;
    put_label(label, batch, out)?;
    batch.put_all(&[b" ", digits(next).as_bytes(), b"\n"], out)
}

fn put_conjunction<O: Sink>(
    number: usize,
    clauses: &[Clause],
    batch: &mut Batch,
    out: &mut O,
) -> Result<(), Failed>
    ensures bytes { Puts (O.written out.old) (O.written out.new) result batch.new (batch.old ++ node_text number (all_node clauses.now)) }
    ensures cause { HasCause (O.faults out.old) (O.faults out.new) result }
{
    batch.put_all(&[digits(number).as_bytes(), b" all"], out)?;
    for clause in clauses {
        put_clause(*clause, batch, out)?;
    }
    batch.put(b"\n", out)
}

fn put_clause<O: Sink>(clause: Clause, batch: &mut Batch, out: &mut O) -> Result<(), Failed>
    ensures bytes { Puts (O.written out.old) (O.written out.new) result batch.new (batch.old ++ clause_text clause) }
    ensures cause { HasCause (O.faults out.old) (O.faults out.new) result }
{
    batch.put_all(&[sign(clause), digits(clause.node).as_bytes()], out)
}

fn sign(clause: Clause) -> &'static [u8]
    ensures { result.now ≡ sign clause }
{
    if clause.positive { b" +" } else { b" -" }
}

fn digits(number: usize) -> Digits
    ensures { result ≡ decimal number }
{
    Digits::of(number as u64)
}
