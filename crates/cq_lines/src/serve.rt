ghost use Rattle.std.specs.Prelude.{◌≡◌, []};
ghost use Rattle.cq_lines.specs.Runs.{IsFresh};
ghost use Rattle.cq_lines.specs.Serving.{HasCauseOfEnd, HasCauseUntil, ServesLines, ServesLinesUntil};

use crate::answers::{Answers, AnswersUntil};
use crate::ending::End;
use crate::lines::{Cut, Lines};
use cq_io::{Failed, Sink, Source};
use std::convert::Infallible;

/// Answers the lines of a source one by one, up to one at which the answering stops: then the cause is the error. Each whole
/// reply is handed to the sink before the next line is cut. The cutter keeps its limit, so that it may be restarted for
/// another source.
pub fn serve_lines_until<A: AnswersUntil, S: Source, K: Sink>(
    answers: &mut A,
    lines: &mut Lines,
    source: &mut S,
    sink: &mut K,
) -> Result<End, A::Stop>
    requires fresh { IsFresh lines.old }
    requires ready { A.ready answers.old }
    ensures served { (from : A.Beginning) → A.AreReplies from answers.old answers.old [] []
        → ServesLinesUntil S.Source K.Sink A.line_of (A.AreReplies from answers.old answers.new)
        (A.HasStopped from answers.old answers.new)
        lines.old.limit source.old source.new sink.old sink.new result }
    ensures cause { HasCauseUntil S.Source K.Sink source.old source.new sink.old sink.new result }
    ensures limit { lines.new.limit ≡ lines.old.limit }
{
    'lines: loop {
        match lines.next(source) {
            Cut::Line(line) => match answers.answer(line, sink) {
                Ok(None) => {}
                Ok(Some(cause)) => return Err(cause),
                Err(Failed) => return Ok(End::WriteFault),
            },
            Cut::TooLong => match answers.answer_long(sink) {
                Ok(None) => {}
                Ok(Some(cause)) => return Err(cause),
                Err(Failed) => return Ok(End::WriteFault),
            },
            Cut::End => return Ok(End::Finished),
            Cut::Spent => return Ok(End::Spent),
            Cut::ReadFault => return Ok(End::ReadFault),
        }
    }
}

// What answers lines and does not stop.
#[derive(Drop)]
struct Unstopped<'a, A> {
    answers: &'a mut A,
}

impl<'a, A: Answers> AnswersUntil for Unstopped<'a, A> {
    ghost use Rattle.std.specs.Prelude.{◌≡◌};

    type Stop = Infallible;

    ghost Reply = { A.Reply };

    ghost line_of = { A.line_of };

    ghost Beginning = { A.Beginning };

    ghost AreReplies = { λ from first now lines replies.
        A.AreReplies from first.answers.now now.answers.now lines replies
        × (now.answers.ghost_name ≡ first.answers.ghost_name) };

    ghost HasStopped = { λ from first now lines replies cause. ⊥ };

    ghost ready = { λ u. A.ready u.answers.now };

    fn answer<K: Sink>(&mut self, line: &[u8], sink: &mut K) -> Result<Option<Infallible>, Failed> {
        match self.answers.answer(line, sink) {
            Ok(()) => Ok(None),
            Err(Failed) => Err(Failed),
        }
    }

    fn answer_long<K: Sink>(&mut self, sink: &mut K) -> Result<Option<Infallible>, Failed> {
        match self.answers.answer_long(sink) {
            Ok(()) => Ok(None),
            Err(Failed) => Err(Failed),
        }
    }
}

/// Answers the lines of a source one by one, as `serve_lines_until` does, and does not stop.
pub fn serve_lines<A: Answers, S: Source, K: Sink>(
    answers: &mut A,
    lines: &mut Lines,
    source: &mut S,
    sink: &mut K,
) -> End
    requires fresh { IsFresh lines.old }
    requires ready { A.ready answers.old }
    ensures served { (from : A.Beginning) → A.AreReplies from answers.old answers.old [] []
        → ServesLines S.Source K.Sink A.line_of (A.AreReplies from answers.old answers.new)
        lines.old.limit source.old source.new sink.old sink.new result }
    ensures cause { HasCauseOfEnd S.Source K.Sink source.old source.new sink.old sink.new result }
    ensures limit { lines.new.limit ≡ lines.old.limit }
{
    let mut unstopped = Unstopped { answers };
    match serve_lines_until(&mut unstopped, lines, source, sink) {
        Ok(end) => end,
        Err(never) => match never {},
    }
}
