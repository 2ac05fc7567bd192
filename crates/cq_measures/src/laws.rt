//! What the measures of chosen files are to those of the project and of one file, for those who read the definitions.
ghost use Rattle.cq_measures.specs.Measures as law;

/// If all files are chosen, the measures are those of the project.
pub fn all_chosen_are_the_project()
    ensures { law.AllChosenAreTheProject }
{}

/// If one file is chosen, they are those of that file.
pub fn one_chosen_is_the_file()
    ensures { law.OneChosenIsTheFile }
{}
