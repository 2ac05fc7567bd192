ghost use Rattle.std.specs.Prelude.{◌≡◌, ◌≢◌};
ghost use Rattle.cq_program.specs.Statuses as spec;
ghost use Rattle.cq_program.specs.declared.status.Status.TheVariants as ended;

use cq_export::Exported;
use cq_lines::End;
use cq_listen::Served;
use cq_shorten::Shortened;
use cq_tokask::Asked;

/// How a command ended.
#[derive(Clone, Copy, Debug, PartialEq, Eq)]
pub enum Status {
    /// Everything that was asked for was done.
    Done,
    /// The arguments are not valid, and nothing was done.
    Arguments,
    /// A read failed.
    ReadFault,
    /// A write failed.
    WriteFault,
    /// Memory was refused before a byte was written, a line was read or a connection was taken. `export`, `ask`, `serve` and
    /// `shorten` may have taken bytes by then, and `serve` may have mended the end of its log.
    Memory,
    /// A call of the doors failed.
    DoorsFault,
    /// As many bytes were read as may be.
    Spent,
    /// `export` found a line that is not a change that is accepted, and wrote nothing.
    LineRefused,
    /// `ask` found no token file of its settings, and wrote nothing.
    FileRefused,
    /// The file of `export` would be too large, and nothing was written.
    TooLarge,
}

impl Status {
    /// The number with which the process ends.
    pub fn code(self) -> u8
        ensures { result ≡ spec.code_of self }
    {
        match self {
            Status::Done => 0,
            Status::Arguments => 1,
            Status::ReadFault => 2,
            Status::WriteFault => 3,
            Status::Memory => 4,
            Status::DoorsFault => 5,
            Status::Spent => 6,
            Status::LineRefused => 7,
            Status::FileRefused => 8,
            Status::TooLarge => 9,
        }
    }
}

/// How the program exits.
#[derive(Clone, Copy, Debug, PartialEq, Eq)]
pub struct Exit {
    pub status: Status,
    /// What `listen` served connections with. None if memory was refused first, if the address could not be bound, and for
    /// every other command.
    pub served: Option<Served>,
}

/// The status of a run that ends so.
pub(crate) fn status_of(end: End) -> Status
    ensures status { result ≡ spec.status_of end }
    ensures some { result ≢ ended.Memory }
{
    match end {
        End::Finished => Status::Done,
        End::ReadFault => Status::ReadFault,
        End::WriteFault => Status::WriteFault,
        End::Spent => Status::Spent,
    }
}

/// The status of the asking of a kept version that ended so.
pub(crate) fn status_of_asked(asked: Asked) -> Status
    ensures status { result ≡ spec.status_of_asked asked }
    ensures some { result ≢ ended.Memory }
{
    match asked {
        Asked::Refused => Status::FileRefused,
        Asked::Ended(end) => status_of(end),
    }
}

/// The status of the writing of a version that ended so.
pub(crate) fn status_of_exported(exported: Exported) -> Status
    ensures status { result ≡ spec.status_of_exported exported }
    ensures some { result ≢ ended.Memory }
{
    match exported {
        Exported::Refused => Status::LineRefused,
        Exported::TooLarge => Status::TooLarge,
        Exported::Ended(end) => status_of(end),
    }
}

/// The status of the shortening of a log that ended so.
pub(crate) fn status_of_shortened(shortened: Shortened) -> Status
    ensures status { result ≡ spec.status_of_shortened shortened }
    ensures some { result ≢ ended.Memory }
{
    match shortened {
        Shortened::Refused => Status::LineRefused,
        Shortened::Ended(end) => status_of(end),
    }
}

/// The status of the serving of connections that ended so.
pub(crate) fn status_of_served(served: Served) -> Status
    ensures { result ≡ spec.status_of_served served }
{
    if served.failed {
        Status::DoorsFault
    } else {
        Status::Done
    }
}
