//! The report of an exception, step by step.

ghost use Rattle.std.specs.Prelude.{◌≡◌, IfOk, OnErr};
ghost use Rattle.py_reports.specs.Inside.{AddsSome, Advances, IsTaken};
ghost use Rattle.py_reports.specs.Reports.{sentence_text, IsPiece};
ghost use Rattle.py_reports.specs.Steps.{IsStepIn};
ghost use Rattle.py_reports.specs.declared.stage.Stage.TheVariants.{New};

use crate::chain::{Chain, Chained, Sentence, chain_of};
use crate::lines::text_in;
use crate::part::push_part;
use crate::place::Places;
use crate::scene::Scene;
use crate::source::Sources;
use crate::stage::{ReportStep, Stage};
use py_code::{Names, NoMemory, PyText};
use py_objects::{PyBaseExceptionRef, PyObjectRef, Store};
use std::alloc::Global;
use std::marker::Model;

/// A report that is told piece by piece, the exception that came first at the front. Seen as how far it is.
#[derive(Drop)]
pub struct Report {
    alloc: Global,
    stage: Stage,
}

impl Model for Report {
    ghost use Rattle.py_reports.specs.declared.stage.Stage.{Stage};

    ghost Value = { Stage };

    ghost view = { λ r. r.stage };
}

impl Report {
    /// The report of an exception.
    pub fn new(alloc: Global, exc: PyBaseExceptionRef) -> Report
        ensures { result ≡ New exc }
    {
        Report {
            alloc,
            stage: Stage::New(exc),
        }
    }

    /// The next piece. The links are read at the first step, and each exception as it is printed.
    /// The text answers an `AskStr`; none comes yet, so it isn't read.
    pub fn step(
        &mut self,
        store: &Store,
        names: &Names,
        places: &Places,
        sources: &Sources,
        _text: Option<PyText>,
    ) -> ReportStep
        ensures { IsStepIn store.now names.now places.now sources.now self.old result self.new }
    {
        let scene = Scene::new(store, names, places, sources);
        match self.advance(&scene) {
            Ok(Some(piece)) => ReportStep::Piece(piece),
            Ok(None) => ReportStep::Done,
            Err(NoMemory) => ReportStep::NoMemory,
        }
    }

    /// The next piece, where one is left.
    fn advance(&mut self, scene: &Scene) -> Result<Option<PyText>, NoMemory>
        ensures ok { IfOk result (Advances scene.now self.old self.new) }
        ensures err { OnErr result (self.new ≡ self.old) }
    {
        match &mut self.stage {
            Stage::Begun(chain) => take_piece(self.alloc, scene, chain),
            Stage::New(exc) => {
                let exc = PyObjectRef::from(*exc);
                let mut chain = chain_of(self.alloc, scene.objects(), exc)?;
                let piece = take_piece(self.alloc, scene, &mut chain)?;
                self.stage = Stage::Begun(chain);
                Ok(piece)
            }
        }
    }
}

/// Takes the next exception off, with its piece.
fn take_piece(alloc: Global, scene: &Scene, chain: &mut Chain) -> Result<Option<PyText>, NoMemory>
    ensures ok { IfOk result (IsTaken scene.now chain.old chain.new) }
    ensures err { OnErr result (chain.new ≡ chain.old) }
{
    let Some(next) = chain.last() else {
        return Ok(None);
    };
    let mut out = String::new(alloc);
    push_piece(&mut out, scene, next)?;
    let piece = text_in(alloc, &out)?;
    let _next = chain.pop();
    Ok(Some(piece))
}

/// Puts what is printed of an exception after a text, with the sentence before it.
pub(crate) fn push_piece(out: &mut String, scene: &Scene, next: Chained) -> Result<(), NoMemory>
    ensures { AddsSome result out.old out.new (IsPiece scene.now next) }
{
    out.push_str(sentence_text(next.sentence))?;
    push_part(out, scene, next.exception)
}

fn sentence_text(sentence: Sentence) -> &'static str
    ensures { result.now ≡ sentence_text sentence }
{
    match sentence {
        Sentence::Nothing => "",
        Sentence::Cause => {
            "\nThe above exception was the direct cause of the following exception:\n\n"
        }
        Sentence::Context => {
            "\nDuring handling of the above exception, another exception occurred:\n\n"
        }
    }
}
