use crate::running::{status_of, words_of};
use cq_base::Memory;
use cq_stage::{Client, ClientSource, Hold, Late, LogDoors, LogSink, Scene, Stage, Until};
use std::alloc::Global;
use std::marker::Brand;
use std::sync::Wait;
use std::sync::ledger::Blank;
use std::thread::Threads;
use std::time::Clock;

/// A run of the program: its arguments, its clients, what its gate does, which call of the doors fails, from 1, or 0 for none,
/// what each client is told, and the status. The first client is at the standard ends too.
#[derive(Clone, Copy)]
pub(crate) struct Run<'a> {
    pub words: &'a str,
    pub clients: &'a [Client],
    pub hold: Hold,
    pub failing: u64,
    pub told: &'a [&'a str],
    pub status: u8,
}

/// How it went.
#[derive(Clone, Copy, Debug, PartialEq, Eq)]
pub(crate) enum Went {
    AsWanted,
    /// With this status.
    EndedOtherwise(u8),
    /// This one waited in vain.
    InVain(Late),
    /// This client was told something else, from 0.
    ToldOtherwise(usize),
}

// The status of a run.
fn ended<Q: Threads + Wait + Clock + Sync>(
    rt: &Q,
    alloc: Global,
    stage: &Stage<'_, Q>,
    run: &Run<'_>,
) -> Result<u8, Memory> {
    let words = words_of(alloc, run.words)?;
    let first = run.clients.first().copied().unwrap_or(Client::new(""));
    let mut source = ClientSource::new(stage, 0, &first);
    let mut sink = LogSink::new(&stage.log, 0, &first);
    let mut doors = LogDoors::new(stage, alloc, run.clients, run.failing)?;
    let gate = Scene {
        stage,
        hold: run.hold,
    };
    Ok(status_of::<Q, _, _, _, _, _, _, Brand>(
        rt,
        alloc,
        &words,
        &mut source,
        &mut sink,
        &mut doors,
        &gate,
        Blank::new(1),
    ))
}

pub(crate) fn goes<Q: Threads + Wait + Clock + Sync>(
    rt: &Q,
    alloc: Global,
    run: &Run<'_>,
) -> Result<Went, Memory> {
    let stage = Stage::new(rt, alloc, run.clients.len())?;
    let status = ended(rt, alloc, &stage, run)?;
    if let Some(late) = stage.late() {
        return Ok(Went::InVain(late));
    }
    if status != run.status {
        return Ok(Went::EndedOtherwise(status));
    }
    match stage.told_otherwise(run.clients, run.told) {
        Some(client) => Ok(Went::ToldOtherwise(client)),
        None => Ok(Went::AsWanted),
    }
}

const WRITER: &str = r#"{"op":"put","project":"p","path":"t","lang":"any","text":"a b c x a b c y"}
{"op":"groups","project":"p","min":3}
"#;

const WRITER_TOLD: &str = r#"{"change":1,"ok":true}
{"groups":[{"places":[{"at":0,"first":1,"last":1,"path":"t"},{"at":4,"first":1,"last":1,"path":"t"}],"tokens":3}],"ok":true,"total":1,"version":1}
"#;

const UPLOADED: &str = r#"{"change":1,"ok":true}
"#;

const READER: &str = r#"{"op":"groups","project":"p","min":3}
"#;

const READER_TOLD: &str =
    r#"{"groups":[{"places":[{"at":0,"first":1,"last":1,"path":"t"},{"at":4,"first":1,"last":1,"path":"t"}],"tokens":3}],"ok":true,"total":1,"version":1}
"#;

pub(crate) const LISTEN: Run<'static> = Run {
    words: "listen mem --chunk 2 --workers 0 --sessions 1",
    clients: &[],
    hold: Hold::Nobody,
    failing: 0,
    told: &[],
    status: 0,
};

// Clients that came before a call of the doors fails are served. The first call is for the address.
#[test]
fn clients_are_served_until_the_doors_end_or_fail(rt: HostRuntime) -> Result<(), Memory> {
    let listen = Run {
        clients: &[Client::new(WRITER), Client::new(READER)],
        told: &[WRITER_TOLD, READER_TOLD],
        ..LISTEN
    };
    assert_eq!(rt; goes(&rt, rt.alloc(), &listen)?, Went::AsWanted);
    for (failing, first, second) in [
        (4, WRITER_TOLD, READER_TOLD),
        (3, WRITER_TOLD, ""),
        (2, "", ""),
        (1, "", ""),
    ] {
        let run = Run {
            failing,
            told: &[first, second],
            status: 5,
            ..listen
        };
        assert_eq!(rt; goes(&rt, rt.alloc(), &run)?, Went::AsWanted);
    }
    let malformed = Run {
        words: "listen mem --sessions 0",
        failing: 1,
        told: &["", ""],
        status: 1,
        ..listen
    };
    assert_eq!(rt; goes(&rt, rt.alloc(), &malformed)?, Went::AsWanted);
    Ok(())
}

const STATES: &str = r#"{"op":"state"}
{"op":"state"}
"#;

const STATE_TOLD: &str = r#"{"accepted":0,"done":0,"ok":true,"published":0}
"#;

// Of two clients, one after the other on one seat, each is cut after as many bytes: a line of each is within the limit.
#[test]
fn each_client_has_its_own_limit_of_bytes(rt: HostRuntime) -> Result<(), Memory> {
    let run = Run {
        words: "listen mem --workers 0 --sessions 1 --byte-limit 15",
        clients: &[Client::new(STATES), Client::new(STATES)],
        told: &[STATE_TOLD, STATE_TOLD],
        ..LISTEN
    };
    assert_eq!(rt; goes(&rt, rt.alloc(), &run)?, Went::AsWanted);
    Ok(())
}

const TWO_PUTS: &str = r#"{"op":"put","project":"p","path":"a","lang":"any","text":"x y z"}
{"op":"put","project":"p","path":"b","lang":"any","text":"x y z"}
"#;

const TWO_TOLD: &str = r#"{"change":1,"ok":true}
{"change":2,"ok":true}
"#;

const AT_ONCE: &str = r#"{"op":"groups","project":"p","min":3,"finish":false}
"#;

const GROUP_OF_TWO: &str =
    r#"{"groups":[{"places":[{"at":0,"first":1,"last":1,"path":"a"},{"at":0,"first":1,"last":1,"path":"b"}],"tokens":3}],"ok":true,"total":1,"version":2}
"#;

// Two works are held until both are begun, and the client, whose session could help, waits for that too: so each is begun by a
// worker of its own.
#[test]
fn as_many_workers_work_as_are_asked_for(rt: HostRuntime) -> Result<(), Memory> {
    let client = Client {
        then_until: Until::Begun(2),
        then_sends: AT_ONCE,
        until_told: GROUP_OF_TWO,
        ..Client::new(TWO_PUTS)
    };
    let run = Run {
        words: "run --chunk 2 --workers 2",
        clients: &[client],
        hold: Hold::Works(2, Until::Begun(2)),
        told: &[TWO_TOLD],
        ..LISTEN
    };
    assert_eq!(rt; goes(&rt, rt.alloc(), &run)?, Went::AsWanted);
    let words = "listen mem --chunk 2 --workers 2 --sessions 1";
    let run = Run { words, ..run };
    assert_eq!(rt; goes(&rt, rt.alloc(), &run)?, Went::AsWanted);
    Ok(())
}

// The first client sends nothing until the second one is answered, which takes a second session.
#[test]
fn as_many_sessions_are_served_as_are_asked_for(rt: HostRuntime) -> Result<(), Memory> {
    let silent = Client {
        until: Until::Told(1, WRITER_TOLD.len().saturating_sub(1)),
        ..Client::new(READER)
    };
    let run = Run {
        words: "listen mem --chunk 2 --workers 0 --sessions 2",
        clients: &[silent, Client::new(WRITER)],
        told: &[READER_TOLD, WRITER_TOLD],
        ..LISTEN
    };
    assert_eq!(rt; goes(&rt, rt.alloc(), &run)?, Went::AsWanted);
    Ok(())
}

// One client's source fails after its first line, and another one's sink at once: their sessions end, and the rest go on.
#[test]
fn faults_of_connections(rt: HostRuntime) -> Result<(), Memory> {
    let cut_off = Client {
        failing_read: 2,
        ..Client::new(WRITER)
    };
    let deaf = Client {
        failing_write: 1,
        ..Client::new(READER)
    };
    let run = Run {
        clients: &[cut_off, deaf, Client::new(READER)],
        told: &[UPLOADED, "", READER_TOLD],
        ..LISTEN
    };
    assert_eq!(rt; goes(&rt, rt.alloc(), &run)?, Went::AsWanted);
    Ok(())
}
