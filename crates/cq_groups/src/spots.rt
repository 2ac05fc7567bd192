ghost use Rattle.cq_groups.specs.Rows.{AreRows};

use cq_base::Place;

/// A place with the mark of the token before it: 0 for none, and the same mark for the same token.
#[derive(Clone, Copy, Debug)]
pub struct Spot {
    pub place: Place,
    pub left: usize,
}

/// A spot, and others in its file that follow each other by one gap, all with one mark.
#[derive(Clone, Copy, Debug)]
pub struct Row {
    pub first: Spot,
    /// How many others there are.
    pub others: u32,
    /// How many tokens each of them is after the one before it.
    pub gap: u32,
    /// The mark of each of them.
    pub left: usize,
}

/// A row with the mark of the token after the word, which is one at all its spots.
#[derive(Clone, Copy, Debug)]
pub struct MarkedRow {
    pub row: Row,
    pub mark: usize,
}

/// The spots at which one word of `depth` tokens stands, two or more.
#[derive(Debug, Drop)]
pub struct Set {
    pub depth: u32,
    /// The spots in order. After a row of several the next one begins, one gap further on, so that all spots of a row go on
    /// by one token of the word.
    pub rows: Vec<Row>,

    ghost rows_are: { AreRows depth rows.items },
}
