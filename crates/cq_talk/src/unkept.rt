use cq_board::Refused;

/// Why a change is not kept.
#[derive(Clone, Copy, Debug, PartialEq, Eq)]
pub enum Unkept {
    /// It is not accepted, and this is the first cause.
    Refused(Refused),
    /// A line could not be written whole, that of this change or an earlier one. No change is accepted any more.
    Broken,
}
