ghost use Rattle.std.specs.Prelude.{◌≡◌, ◌≤◌, length};

use crate::calls::Calls;
use crate::client::Client;
use crate::stage::{Stage, Who};
use cq_io::{Failed, Source};
use std::sync::Wait;
use std::time::Clock;

// How many bytes it gives a call at most.
const GREATEST: usize = 97;

/// What a client sends. It tells nothing of its bytes.
#[derive(Drop)]
pub struct ClientSource<'a, R> {
    stage: &'a Stage<'a, R>,
    number: usize,
    client: Client,
    // What is left of the lines that it sends now, and how often it began to send some.
    left: &'static [u8],
    rounds: u32,
    calls: Calls,
}

impl<'a, R> ClientSource<'a, R> {
    ghost use Rattle.std.specs.Prelude.{◌≡◌};
    ghost use Rattle.cq_stage.specs.Doors.{source_faults};

    /// The source of the client with this number, from 0.
    pub fn new(stage: &'a Stage<'a, R>, number: usize, client: &Client) -> Self
        ensures { source_faults result ≡ 0 }
    {
        ClientSource {
            stage,
            number,
            client: *client,
            left: b"",
            rounds: 0,
            calls: Calls::new(client.failing_read),
        }
    }
}

impl<'a, R: Wait + Clock> ClientSource<'a, R> {
    // Goes on to the next lines that are sent, when what they wait for has come.
    fn go_on(&mut self)
        ensures { self.new.calls ≡ self.old.calls }
    {
        match self.rounds {
            0 => {
                self.stage.wait(Who::Client(self.number), self.client.until);
                self.left = self.client.sends.as_bytes();
            }
            1 => {
                self.stage
                    .wait(Who::Client(self.number), self.client.then_until);
                self.left = self.client.then_sends.as_bytes();
            }
            round => {
                if self
                    .stage
                    .is_asked_again(self.number, round, self.client.until_told)
                {
                    self.left = self.client.then_sends.as_bytes();
                }
            }
        }
        self.rounds = self.rounds.saturating_add(1);
    }

    // The next bytes of the lines that are sent now.
    fn give(&mut self, out: &mut [u8]) -> usize
        ensures within { result ≤ length out.old }
        ensures calls { self.new.calls ≡ self.old.calls }
    {
        let count = self.left.len().min(out.len()).min(GREATEST);
        out[..count].copy_from_slice(&self.left[..count]);
        self.left = &self.left[count..];
        count
    }
}

impl<'a, R: Wait + Clock> Source for ClientSource<'a, R> {
    ghost use Rattle.std.specs.Prelude.{None};
    ghost use Rattle.cq_stage.specs.Doors.{source_faults};

    ghost rest = { λ _. None };

    ghost faults = { source_faults };

    fn read(&mut self, out: &mut [u8]) -> Result<usize, Failed> {
        self.calls.come()?;
        if self.left.is_empty() {
            self.go_on();
        }
        Ok(self.give(out))
    }
}
