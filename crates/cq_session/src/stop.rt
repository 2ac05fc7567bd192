/// Why a session stopped at a line, before the end of its source.
#[derive(Clone, Copy, Debug, PartialEq, Eq)]
pub enum Stop {
    /// A line could not be kept, its own or that of another session: it has no reply.
    Unkept,
    /// The first line is no JSON object, as a browser's is none, or could not be read: it has its reply.
    Stranger,
}
