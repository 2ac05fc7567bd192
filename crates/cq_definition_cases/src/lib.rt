//! No code: theorems that definitions, and the relations of clauses, refuse wrong answers.
//!
//! Most contracts say that a call answers what a definition gives, so a mistake in the definition would be proved too. Each
//! theorem in `proofs/` takes a small case with an answer that a wrong definition might give, and says that the definition
//! does not give it. Other contracts relate what was before a call to what is after it, and a relation may be too weak: there
//! a theorem takes a wrong outcome, and says that the relation does not hold of it. Its name says what is right. There is
//! one module for each subject.
#![tactic(auto)]
