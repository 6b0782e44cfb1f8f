ghost use Rattle.std.specs.Prelude.{◌≡◌, Contains, Some, IfOk};
ghost use Rattle.spectro_aut.specs.Grammar.{start};
ghost use Rattle.spectro_aut.specs.Reading.{header_in, line_read, started, step_in};
ghost use Rattle.spectro_aut.specs.Texts.{aut_form};
ghost use Rattle.spectro_aut.specs.Readings.{given, reading_of, step_of, IsDraftOf};

use crate::AutKind;
use crate::header::{Header, header_in};
use crate::transition::{label_of, transition_of};
use spectro_io::{MAX_LABEL_BYTES, TEXT_LIMIT, trim};
use spectro_lines::{Grammar, LineFault};
use spectro_lts::{Draft, Lts};
use std::alloc::{AllocError, Global};
use std::marker::Model;

const MAX_LABELS: u32 = 65_536;

/// What the lines of a text have given so far: no header yet, or steps behind one.
#[derive(Drop)]
pub(crate) struct Reading {
    steps: Option<Steps>,
}

/// A header, and a draft with its states and the steps so far.
#[derive(Drop)]
pub(crate) struct Steps {
    header: Header,
    draft: Draft,
}

impl Model for Reading {
    ghost use Rattle.spectro_aut.specs.Grammar as grammar;
    ghost use Rattle.spectro_aut.specs.Readings.{reading_of, IsWithin};

    ghost Value = { grammar.Reading };

    ghost view = { λ reading. reading_of reading.steps };

    ghost invariant = { λ reading. IsWithin reading.steps };
}

impl Grammar for Reading {
    type Value = Lts;

    type Kind = AutKind;

    ghost form = { aut_form };

    fn start(_alloc: Global) -> Reading {
        Reading { steps: None }
    }

    fn take_line(
        &mut self,
        alloc: Global,
        line: &str,
        _number: u64,
    ) -> Result<Option<AutKind>, AllocError> {
        let _ = &self.steps;
        self.take_trimmed(alloc, trim(line.as_bytes()))
    }

    fn finish(self, lines: u64) -> Result<Result<Lts, LineFault<AutKind>>, AllocError> {
        let line = lines + 1;
        let Some(steps) = self.steps else {
            let kind = AutKind::NoHeader;
            return Ok(Err(LineFault { line, kind }));
        };
        let said = steps.header.transitions as u32;
        let found = steps.draft.step_count();
        if found < said {
            let kind = AutKind::MissingLines { said, found };
            return Ok(Err(LineFault { line, kind }));
        }
        Ok(Ok(steps.draft.finish()?))
    }

    fn limit() -> usize {
        TEXT_LIMIT
    }

    fn too_long() -> AutKind {
        AutKind::TooLong
    }

    fn not_text() -> AutKind {
        AutKind::NotText
    }
}

impl Reading {
    // Takes a line without blanks at its ends.
    fn take_trimmed(&mut self, alloc: Global, line: &[u8]) -> Result<Option<AutKind>, AllocError>
        requires { ¬ Contains line.now 10 }
        ensures { IfOk result (λ fault. given fault self.new ≡ line_read self.old line.now) }
    {
        match &mut self.steps {
            None => self.take_header(alloc, line),
            Some(steps) => take_step(steps, line),
        }
    }

    // Takes the line that is to be the header.
    fn take_header(&mut self, alloc: Global, line: &[u8]) -> Result<Option<AutKind>, AllocError>
        requires { self.old ≡ start }
        ensures { IfOk result (λ fault. given fault self.new ≡ started (header_in line.now)) }
    {
        match header_in(line) {
            Ok(header) => {
                let draft = Draft::new(alloc, header.states as u32, header.initial as u32)?;
                self.steps = Some(Steps { header, draft });
                Ok(None)
            }
            Err(kind) => Ok(Some(kind)),
        }
    }
}

// Takes the trimmed line behind the steps.
fn take_step(steps: &mut Steps, line: &[u8]) -> Result<Option<AutKind>, AllocError>
    requires draft { IsDraftOf steps.old.header steps.old.draft }
    requires one_line { ¬ Contains line.now 10 }
    ensures header { steps.new.header ≡ steps.old.header }
    ensures draft { IsDraftOf steps.new.header steps.new.draft }
    ensures given { IfOk result (λ fault. given fault (reading_of (Some steps.new)) ≡ line_read (reading_of (Some steps.old)) line.now) }
{
    match step_in(&steps.draft, steps.header, line) {
        Ok(step) => {
            steps.draft.add(step.source, step.label, step.target)?;
            Ok(None)
        }
        Err(kind) => Ok(Some(kind)),
    }
}

// A step as its line has it.
#[derive(Clone, Copy)]
struct NewStep<'a> {
    source: u32,
    label: &'a str,
    target: u32,
}

// The step that the trimmed line is, or its fault.
#[tactic(auto, unfolding(crate::specs::Reading::step_in))]
fn step_in<'a>(draft: &Draft, header: Header, line: &'a [u8]) -> Result<NewStep<'a>, AutKind>
    requires { IsDraftOf header draft.now }
    ensures { step_of result ≡ step_in header.transitions draft.now line.now }
{
    let Some(transition) = transition_of(line) else {
        return Err(AutKind::BadLine);
    };
    let Some(label) = label_of(transition.field) else {
        return Err(AutKind::BadLabel);
    };
    if label.len() > MAX_LABEL_BYTES {
        return Err(AutKind::LabelTooLong);
    }
    if transition.source >= header.states || transition.target >= header.states {
        return Err(AutKind::StateRange);
    }
    if draft.label_count() >= MAX_LABELS && !draft.has_label(label) {
        return Err(AutKind::TooManyLabels);
    }
    if u64::from(draft.step_count()) >= header.transitions {
        return Err(AutKind::ExtraLine);
    }
    Ok(NewStep {
        source: transition.source as u32,
        label,
        target: transition.target as u32,
    })
}
