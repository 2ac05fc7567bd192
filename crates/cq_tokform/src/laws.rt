ghost use Rattle.cq_tokform.specs.Laws as law;

/// Each condition has one form, and no form begins another's.
pub fn conditions_have_one_form()
    ensures { law.ConditionsHaveOneForm }
{}

/// Each list of tokens of one file has one form, and no form begins another's.
pub fn tokens_have_one_form()
    ensures { law.TokensHaveOneForm }
{}

/// Each list of functions of one file has one form, and no form begins another's.
pub fn functions_have_one_form()
    ensures { law.FunctionsHaveOneForm }
{}

/// Each file of a version has one form, and no form begins another's.
pub fn files_have_one_form()
    ensures { law.FilesHaveOneForm }
{}

/// Each body has one frame, and no body in its frame begins another.
pub fn frames_have_one_form()
    ensures { law.FramesHaveOneForm }
{}

/// Each head has one form under given settings, and no form begins another's.
pub fn heads_have_one_form()
    ensures { law.HeadsHaveOneForm }
{}

/// Each contents of a token file has one file under given settings, and no file begins another's.
pub fn wholes_have_one_form()
    ensures { law.WholesHaveOneForm }
{}

/// No token file is a proper beginning of another, whatever the settings of both.
pub fn no_whole_begins_another()
    ensures { law.NoWholeBeginsAnother }
{}
