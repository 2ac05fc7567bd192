/// How the answering of a source's lines ended.
#[derive(Clone, Copy, Debug, PartialEq, Eq)]
pub enum End {
    /// The input was read to its end, and every reply was written.
    Finished,
    /// The source failed, and the lines taken before have their replies.
    ReadFault,
    /// The sink failed, and what was written is a front of the replies.
    WriteFault,
    /// The limit on the bytes was reached, and every whole line of those taken has its reply.
    Spent,
}
