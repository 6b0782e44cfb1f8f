ghost use Rattle.std.specs.Prelude.{[], ◌++◌, ℕ, Option, IfOk, IfErr};
ghost use Rattle.spectro_spec.specs.Spectrum.{notions};
ghost use Rattle.spectro_io.specs.Batches.{Puts};
ghost use Rattle.spectro_io.specs.Faults.{HasCause, Rose};
ghost use Rattle.spectro_io.specs.Shelves.{Texts};
ghost use Rattle.spectro_report.specs.Clauses.{IsRefused, IsSide};
ghost use Rattle.spectro_run.specs.Commands.Demo.{demo_text, number_line};
ghost use Rattle.spectro_run.specs.Comparisons.{report_of};
ghost use Rattle.spectro_run.specs.Stops.{IsPrepared};
ghost use Rattle.spectro_words.specs.Commands as words;
ghost use Rattle.spectro_words.specs.Demos.{IsDemo};
ghost use Rattle.spectro_words.specs.declared.limit.TheConstants.{DEFAULT_LIMIT};

use crate::status::Status;
use crate::written::Written;
use spectro_demo::{demo_left, demo_right};
use spectro_io::{Batch, Digits, Failed, Sink};
use spectro_lts::Lts;
use spectro_notions::Notions;
use spectro_report::{Report, ReportError, put_summary, report};
use spectro_weights::Weights;
use spectro_words::DEFAULT_LIMIT;
use std::alloc::Global;

/// The report on the systems of the demo of this number, which is summed up.
#[derive(Drop)]
pub struct Demonstrated {
    number: u32,
    report: Report,
}

impl Written for Demonstrated {
    ghost text = { λ demonstrated. demo_text demonstrated.number demonstrated.report };

    fn write<O: Sink>(&self, out: &mut O) -> Result<(), Failed> {
        let mut batch = Batch::new();
        put_number(self.number, &mut batch, out)?;
        put_summary(&self.report, &mut batch, out)?;
        batch.flush(out)
    }
}

// Puts the line of the number behind the bytes that are held.
fn put_number<O: Sink>(number: u32, batch: &mut Batch, out: &mut O) -> Result<(), Failed>
    ensures bytes { Puts (O.written out.old) (O.written out.new) result batch.new (batch.old ++ number_line number) }
    ensures cause { HasCause (O.faults out.old) (O.faults out.new) result }
{
    let number = Digits::of(u64::from(number));
    batch.put_all(&[b"demo ", number.as_bytes(), b"\n"], out)
}

// The report on the two systems, where every label weighs 1, for the notions of the spectrum.
fn report_on(alloc: Global, left: &Lts, right: &Lts) -> Result<Report, ReportError>
    requires left { IsSide left.now }
    requires right { IsSide right.now }
    ensures report { IfOk result (report_of left.now right.now [] notions DEFAULT_LIMIT).Gives }
    ensures limit { IfErr result (IsRefused left.now right.now DEFAULT_LIMIT) }
{
    let weights = Weights::new(alloc);
    let notions = Notions::builtin(alloc);
    report(alloc, left, right, &weights, &notions, DEFAULT_LIMIT)
}

/// The report on the two systems of the demo of the number, to be summed up.
pub fn demo(alloc: Global, number: u32) -> Result<Demonstrated, Status>
    requires { IsDemo number }
    ensures { (told : Option Texts) (before now : ℕ) → IsPrepared told (words.demo number)
        (λ demonstrated. demo_text demonstrated.number demonstrated.report) (Rose before now) result }
{
    let left = demo_left(alloc, number)?;
    let right = demo_right(alloc, number)?;
    let report = report_on(alloc, &left, &right)?;
    Ok(Demonstrated { number, report })
}
