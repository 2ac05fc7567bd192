ghost use Rattle.cq_tokens.specs.Laws as law;

/// Two tokens tie in their order exactly if they are the same.
pub fn equal_tokens_tie()
    ensures { law.EqualTokensTie }
{}
