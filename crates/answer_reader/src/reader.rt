// The reader of a line.
ghost use Rattle.std.specs.Prelude.{◌≡◌, ◌++◌, List, ℕ, [], IfOk, OnOk};
ghost use Rattle.run_plan.specs.declared.plan.Speech.{Speech};
ghost use Rattle.exec_journal.specs.declared.call.Answer.{Answer};
ghost use Rattle.answer_reader.specs.Says.{framing_for, Hears, SaysNext, SaysAll};

use crate::answers::spoken_by;
use delimited_framing::Next;
use exec_journal::Answer;
use json_framing::{Cutter, Framing};
use plain_values::NoMemory;
use remote_branch::Parts;
use run_plan::Speech;
use std::alloc::Global;
use wire_fields::LARGEST;

/// The next result of a reader.
#[derive(Drop)]
pub enum Spoken {
    /// The next answer.
    Answer(Answer),
    /// A part of an answer whose last part hasn't come yet.
    More,
    /// No whole message has come, and no fault.
    NotYet,
    /// The next bytes spell nothing. No later bytes are read.
    Bad,
}

/// A reader of the answers of one line.
#[derive(Drop)]
pub struct AnswerReader {
    cutter: Cutter,
    speech: Speech,
    parts: Parts,
}

impl AnswerReader {
    /// Creates a reader of a line with this protocol.
    pub fn new(alloc: Global, speech: Speech) -> AnswerReader
        ensures hears { Hears speech [] [] result }
        ensures waits { SaysAll speech [] [] }
    {
        AnswerReader {
            cutter: Cutter::new(alloc, framing_of(speech), LARGEST),
            speech,
            parts: Parts::new(alloc),
        }
    }

    /// Takes the next bytes of the line.
    ///
    /// # Errors
    ///
    /// Returns `NoMemory` if memory runs out.
    pub fn feed(&mut self, piece: &[u8]) -> Result<(), NoMemory>
        ensures ok { OnOk result ((speech : Speech) (fed : List ℕ) (answers : List Answer)
            → Hears speech fed answers self.old
            → Hears speech (fed ++ piece.now) answers self.new) }
    {
        self.cutter.feed(piece)
    }

    /// Returns the next answer, if all of it has come.
    ///
    /// # Errors
    ///
    /// Returns `NoMemory` if memory runs out.
    pub fn next(&mut self, alloc: Global) -> Result<Spoken, NoMemory>
        ensures ok { IfOk result (λ spoken. (speech : Speech) (fed : List ℕ) (answers : List Answer)
            → Hears speech fed answers self.old
            → SaysNext speech fed answers spoken self.old self.new) }
    {
        match self.cutter.next()? {
            Next::NotYet => Ok(Spoken::NotYet),
            Next::Bad(_) => Ok(Spoken::Bad),
            Next::Frame(frame) => spoken_by(alloc, self.speech, &mut self.parts, &frame),
        }
    }
}

// Returns the framing of a protocol. Workers that use JSON write lines. All others write frames,
// each preceded by its length.
fn framing_of(speech: Speech) -> Framing
    ensures { result ≡ framing_for speech }
{
    match speech {
        Speech::Json => Framing::Lines,
        Speech::Proto | Speech::Remote => Framing::Delimited,
    }
}
