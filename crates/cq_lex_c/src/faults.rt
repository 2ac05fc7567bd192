ghost use Rattle.cq_lex_c.specs.OpenComments.{OnlyOpenCommentsAreFaults};

/// A text of C has a fault only at a comment in slashes and stars that nothing closes.
pub fn only_open_comments_are_faults()
    ensures { OnlyOpenCommentsAreFaults }
{}
