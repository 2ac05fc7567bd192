ghost use Rattle.std.specs.Prelude.{None};

use crate::log::Log;
use cq_base::Text;
use cq_io::{Doors, Failed, Sink};
use cq_keeper::LogOf;
use cq_shard::Indexed;
use std::sync::Wait;

/// The doors of a server that keeps a log: they end once a line could not be kept. They don't report how many connections are
/// to come.
#[derive(Drop)]
pub(crate) struct KeptDoors<'d, 'l, 'q, 's, D, Q, W: Indexed, K: Sink, N: LogOf> {
    pub doors: &'d mut D,
    pub log: &'l Log<'q, 's, Q, W, K, N>,
}

impl<'d, 'l, 'q, 's, D: Doors, Q: Wait, W: Indexed, K: Sink, N: LogOf> Doors
    for KeptDoors<'d, 'l, 'q, 's, D, Q, W, K, N>
where
    D::In: Drop,
    D::Out: Drop,
{
    type In = D::In;

    type Out = D::Out;

    ghost faults = { λ d. D.faults d.doors.now };

    ghost bound = { λ d. D.bound d.doors.now };

    ghost left = { λ d. None };

    fn bind(&mut self, addr: Text) -> Result<(), Failed> {
        self.doors.bind(addr)
    }

    fn next_door(&mut self) -> Result<Option<(D::In, D::Out)>, Failed> {
        if !self.log.is_whole() {
            return Ok(None);
        }
        match self.doors.next_door() {
            Ok(Some(door)) => {
                if self.log.is_whole() {
                    return Ok(Some(door));
                }
                Ok(None)
            }
            Ok(None) => Ok(None),
            Err(Failed) => Err(Failed),
        }
    }
}
