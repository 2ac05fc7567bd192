ghost use Rattle.std.specs.Prelude.{◌≡◌};
ghost use Rattle.cq_answer.specs.Refusals as spec;
ghost use Rattle.cq_reply.specs.Written.{IsReplyText};

use cq_base::Refusal;
use cq_board::Refused;
use cq_reply::Reply;

/// The reply that says why a change is not accepted.
pub fn cause_told(cause: Refused) -> Reply
    ensures reply { result ≡ spec.cause_told cause }
    ensures text { IsReplyText result }
{
    match cause {
        Refused::Absent => Reply::Refused(Refusal::Absent),
        Refused::FullChanges => Reply::Refused(Refusal::FullChanges),
        Refused::FullText => Reply::Refused(Refusal::FullText),
        Refused::Memory => Reply::Memory,
    }
}
