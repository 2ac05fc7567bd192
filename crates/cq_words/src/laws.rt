//! What the grammar says, for those who read it.
ghost use Rattle.cq_words.specs.Form.{AreReadInForm};
ghost use Rattle.cq_words.specs.Table.{row_of};
ghost use Rattle.cq_words.specs.declared.table.Verb.{Verb};

/// The reader of the grammar finds items exactly if the words are made of options, flags and positionals of the
/// command, each once, and all of them text.
pub fn words_in_form()
    ensures { (v : Verb) → AreReadInForm (row_of v) }
{}
