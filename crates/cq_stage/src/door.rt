ghost use Rattle.std.specs.Prelude.{◌≡◌, None, Some};
ghost use Rattle.cq_stage.specs.Doors.{bound_of, left_of, door_faults};

use crate::calls::Calls;
use crate::client::Client;
use crate::log::Log;
use crate::source::ClientSource;
use crate::stage::Stage;
use cq_base::{Memory, Text};
use cq_io::{Doors, Failed, Sink};
use std::alloc::Global;
use std::collections::VecDeque;
use std::sync::Wait;
use std::time::Clock;

// How many bytes it takes a call at most.
const GREATEST: usize = 61;

/// Writes into the log, as far as there is room there; with no room left it fails. It tells nothing of its bytes.
#[derive(Drop)]
pub struct LogSink<'a, R> {
    log: &'a Log<'a, R>,
    number: usize,
    calls: Calls,
}

impl<'a, R> LogSink<'a, R> {
    ghost use Rattle.std.specs.Prelude.{◌≡◌};
    ghost use Rattle.cq_stage.specs.Doors.{sink_faults};

    /// The sink of the client with this number, from 0.
    pub fn new(log: &'a Log<'a, R>, number: usize, client: &Client) -> Self
        ensures { sink_faults result ≡ 0 }
    {
        LogSink {
            log,
            number,
            calls: Calls::new(client.failing_write),
        }
    }
}

impl<'a, R: Wait> Sink for LogSink<'a, R> {
    ghost use Rattle.std.specs.Prelude.{None};
    ghost use Rattle.cq_stage.specs.Doors.{sink_faults};

    ghost written = { λ _. None };

    ghost faults = { sink_faults };

    fn write(&mut self, piece: &[u8]) -> Result<usize, Failed> {
        self.calls.come()?;
        let count = self.log.append(self.number, piece, GREATEST);
        if count == 0 {
            self.calls.fail();
            return Err(Failed);
        }
        Ok(count)
    }
}

/// Doors by which clients come in order, each with the next list of the log. Their calls, of both kinds together, are counted
/// from 1, and the one with the number `failing` fails.
#[derive(Drop)]
pub struct LogDoors<'a, R> {
    stage: &'a Stage<'a, R>,
    clients: VecDeque<Client>,
    bound: Option<Text>,
    calls: Calls,
    came: usize,
}

impl<'a, R> LogDoors<'a, R> {
    ghost use Rattle.std.specs.Prelude.{◌≡◌, None, IfOk};
    ghost use Rattle.cq_stage.specs.Doors.{bound_of, door_faults};

    pub fn new(
        stage: &'a Stage<'a, R>,
        alloc: Global,
        clients: &[Client],
        failing: u64,
    ) -> Result<Self, Memory>
        ensures unbound { IfOk result (λ doors. bound_of doors ≡ None) }
        ensures faults { IfOk result (λ doors. door_faults doors ≡ 0) }
    {
        let mut queue = VecDeque::new(alloc);
        for client in clients {
            queue.push_back(*client)?;
        }
        Ok(LogDoors {
            stage,
            clients: queue,
            bound: None,
            calls: Calls::new(failing),
            came: 0,
        })
    }
}

impl<'a, R: Wait + Clock> Doors for LogDoors<'a, R> {
    type In = ClientSource<'a, R>;

    type Out = LogSink<'a, R>;

    ghost use Rattle.cq_stage.specs.Doors.{bound_of, left_of, door_faults};

    ghost faults = { door_faults };

    ghost bound = { bound_of };

    ghost left = { left_of };

    fn bind(&mut self, addr: Text) -> Result<(), Failed> {
        self.calls.come()?;
        self.bound = Some(addr);
        Ok(())
    }

    fn next_door(&mut self) -> Result<Option<(ClientSource<'a, R>, LogSink<'a, R>)>, Failed> {
        self.calls.come()?;
        let Some(client) = self.clients.pop_front() else {
            return Ok(None);
        };
        let source = ClientSource::new(self.stage, self.came, &client);
        let sink = LogSink::new(&self.stage.log, self.came, &client);
        self.came = self.came.saturating_add(1);
        Ok(Some((source, sink)))
    }
}
