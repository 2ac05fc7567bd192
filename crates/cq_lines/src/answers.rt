ghost use Rattle.std.specs.Prelude.{◌≤◌, ℕ, List, length};
ghost use Rattle.cq_io.specs.Causes.{HasCause};
ghost use Rattle.cq_lines.specs.Answering.{AnswersLine, AnswersLong, AnswersLongOrStops, AnswersOrStops, StaysReady};
ghost use Rattle.cq_lines.specs.Pieces.{HasNoFeed, line_limit};

use cq_io::{Failed, Sink};

/// What answers lines, each by writing its reply before the next one is cut.
pub trait Answers {
    ghost Reply: { Type 0 };

    // the bytes of a reply
    ghost line_of: { Reply → List ℕ };

    // how the answering may have begun, such as by a caller and a history
    ghost Beginning: { Type 0 };

    // from such a beginning, between what it was first and what it is now, these lines have these replies
    ghost AreReplies: { Beginning → Self → Self → List (List ℕ) → List Reply → Type 0 };

    // it may be asked
    ghost ready: { Self → Type 0 };

    /// Writes the reply to a line that is not too long.
    fn answer<K: Sink>(&mut self, line: &[u8], sink: &mut K) -> Result<(), Failed>
        requires ready { ready self.old }
        requires short { length line.now ≤ line_limit }
        ensures sent { AnswersLine line_of AreReplies self.old self.new line.now
            (K.written sink.old) (K.written sink.new) result }
        ensures ready { ready self.new }
        ensures cause { HasCause (K.faults sink.old) (K.faults sink.new) result };

    /// Writes the reply to a line that is too long.
    fn answer_long<K: Sink>(&mut self, sink: &mut K) -> Result<(), Failed>
        requires ready { ready self.old }
        ensures sent { AnswersLong line_of AreReplies self.old self.new
            (K.written sink.old) (K.written sink.new) result }
        ensures ready { ready self.new }
        ensures cause { HasCause (K.faults sink.old) (K.faults sink.new) result };
}

/// What answers lines, as `Answers` does, and may stop at one of them. Then no other line is cut.
pub trait AnswersUntil {
    /// Why it stops.
    type Stop;

    ghost Reply: { Type 0 };

    // the bytes of a reply
    ghost line_of: { Reply → List ℕ };

    // how the answering may have begun, such as by a caller and a history
    ghost Beginning: { Type 0 };

    // from such a beginning, between what it was first and what it is now, these lines have these replies
    ghost AreReplies: { Beginning → Self → Self → List (List ℕ) → List Reply → Type 0 };

    // the same, if it stopped, for this cause, at the last of these lines
    ghost HasStopped: { Beginning → Self → Self → List (List ℕ) → List Reply → Self.Stop → Type 0 };

    // it may be asked
    ghost ready: { Self → Type 0 };

    /// Writes the reply to a line that is not too long, and answers none unless it stops there.
    fn answer<K: Sink>(&mut self, line: &[u8], sink: &mut K) -> Result<Option<Self::Stop>, Failed>
        requires ready { ready self.old }
        requires no_feed { HasNoFeed line.now }
        requires short { length line.now ≤ line_limit }
        ensures sent { AnswersOrStops line_of AreReplies HasStopped self.old self.new line.now
            (K.written sink.old) (K.written sink.new) result }
        ensures ready { StaysReady (ready self.new) result }
        ensures cause { HasCause (K.faults sink.old) (K.faults sink.new) result };

    /// Writes the reply to a line that is too long, and answers none unless it stops there.
    fn answer_long<K: Sink>(&mut self, sink: &mut K) -> Result<Option<Self::Stop>, Failed>
        requires ready { ready self.old }
        ensures sent { AnswersLongOrStops line_of AreReplies HasStopped self.old self.new
            (K.written sink.old) (K.written sink.new) result }
        ensures ready { StaysReady (ready self.new) result }
        ensures cause { HasCause (K.faults sink.old) (K.faults sink.new) result };
}
