//! Measures and gates, as SonarQube names them.
//!
//! `ncloc` and `complexity` count the lines of code and the decisions of a file. `project_measures`, `file_measures` and
//! `chosen_measures` give the eight measures of a project, of one of its files, or of some of them. Each line, each extent
//! of lines and each file counts once, however many groups have places there. The places of a project are parted among
//! its files in one walk and counted file by file, on several threads if there are many. Those of chosen files are counted
//! together in one list. Either way n places cost n log n comparisons and the memory of n extents, and no walk goes over
//! the lines of a place.
//!
//! `met` says whether some measures meet a condition, and `verdict` gives the verdict of a list of conditions. A verdict
//! looks at each condition once.
#![tactic(auto)]

mod choosing;
mod comparing;
mod counting;
mod decisions;
mod extent;
mod judging;
mod laws;
mod measuring;
mod outcome;
mod parting;
mod tallying;

pub use comparing::met;
pub use counting::ncloc;
pub use decisions::{complexity, is_decision};
pub use extent::FileLines;
pub use judging::verdict;
pub use laws::{all_chosen_are_the_project, one_chosen_is_the_file};
pub use measuring::{chosen_measures, file_measures, project_measures};
pub use outcome::{Positions, Verdict};
