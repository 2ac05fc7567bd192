ghost use Rattle.cq_answer.specs.Given as law;

/// The reply to a query by some changes is the one on what the texts of its files are read to, and on the project's
/// conditions: a case of the reply on given files.
pub fn reply_by_changes_is_on_its_files()
    ensures { law.ReplyByChangesIsOnItsFiles }
{}
