use crate::clients::{LISTEN, Run, Went, goes};
use cq_base::Memory;
use cq_stage::{Client, Hold, Until};

const QUERY: &str = r#"{"op":"groups","project":"p","min":3}
"#;

const AT_ONCE: &str = r#"{"op":"groups","project":"p","min":3,"finish":false}
"#;

const TWO: Run<'static> = Run {
    words: "listen mem --chunk 2 --shards 2 --workers 0 --sessions 2",
    ..LISTEN
};

const UPLOAD_AND_TWO: &str =
    r#"{"op":"put","project":"p","path":"a","lang":"any","text":"x y z x y z"}
{"op":"groups","project":"p","min":3}
{"op":"groups","project":"p","min":3,"finish":false}
"#;

const ANSWERS: &str = r#"{"change":1,"ok":true}
{"groups":[{"places":[{"at":0,"first":1,"last":1,"path":"a"},{"at":3,"first":1,"last":1,"path":"a"}],"tokens":3}],"ok":true,"total":1,"version":1}
"#;

const TWICE_AT_ONE: &str = r#"{"change":1,"ok":true}
{"groups":[{"places":[{"at":0,"first":1,"last":1,"path":"a"},{"at":3,"first":1,"last":1,"path":"a"}],"tokens":3}],"ok":true,"total":1,"version":1}
{"groups":[{"places":[{"at":0,"first":1,"last":1,"path":"a"},{"at":3,"first":1,"last":1,"path":"a"}],"tokens":3}],"ok":true,"total":1,"version":1}
"#;

const ANOTHER_UPLOAD: &str = r#"{"op":"put","project":"p","path":"b","lang":"any","text":"x y z"}
{"op":"groups","project":"p","min":3}
"#;

const AT_TWO: &str = r#"{"change":2,"ok":true}
{"groups":[{"places":[{"at":0,"first":1,"last":1,"path":"a"},{"at":3,"first":1,"last":1,"path":"a"},{"at":0,"first":1,"last":1,"path":"b"}],"tokens":3}],"ok":true,"total":1,"version":2}
"#;

// The commit of version 2 waits between two shards until a query at version 1, which was published before, is answered.
#[test]
fn held_commit(rt: HostRuntime) -> Result<(), Memory> {
    let writer = Client {
        until: Until::Opened(2),
        ..Client::new(ANOTHER_UPLOAD)
    };
    let run = Run {
        clients: &[Client::new(UPLOAD_AND_TWO), writer],
        hold: Hold::Commit(2, Until::Told(0, ANSWERS.len())),
        told: &[TWICE_AT_ONE, AT_TWO],
        ..TWO
    };
    assert_eq!(rt; goes(&rt, rt.alloc(), &run)?, Went::AsWanted);
    Ok(())
}

const UPLOAD: &str = r#"{"op":"put","project":"p","path":"a","lang":"any","text":"x y z x y z"}
{"op":"groups","project":"p","min":3}
"#;

const GROUPS: &str =
    r#"{"groups":[{"places":[{"at":0,"first":1,"last":1,"path":"a"},{"at":3,"first":1,"last":1,"path":"a"}],"tokens":3}],"ok":true,"total":1,"version":1}
"#;

// A commit waits between two shards until the second client is answered, who sends its query only then.
#[test]
fn a_query_within_a_commit(rt: HostRuntime) -> Result<(), Memory> {
    let reader = Client {
        until: Until::Committing,
        ..Client::new(AT_ONCE)
    };
    let run = Run {
        clients: &[Client::new(UPLOAD), reader],
        hold: Hold::Commit(0, Until::Told(1, 0)),
        told: &[ANSWERS, GROUPS],
        ..TWO
    };
    assert_eq!(rt; goes(&rt, rt.alloc(), &run)?, Went::AsWanted);
    Ok(())
}

const PUT: &str = r#"{"op":"put","project":"p","path":"a","lang":"any","text":"x y z"}
"#;

const UPLOADED: &str = r#"{"change":1,"ok":true}
"#;

const NO_GROUP: &str = r#"{"groups":[],"ok":true,"total":0,"version":1}
"#;

const BESIDE: &str = r#"{"op":"groups","project":"p","min":3,"finish":false}
{"op":"state"}
"#;

// What is published is version 0, and a client that was told of no other is answered at it.
const TOLD_BESIDE: &str = r#"{"groups":[],"ok":true,"total":0,"version":0}
{"accepted":1,"done":0,"ok":true,"published":0}
"#;

// A text that takes long keeps no other client's query from an answer at the published version.
#[test]
fn a_work_that_lasts_holds_no_other_session(rt: HostRuntime) -> Result<(), Memory> {
    let all_told = Until::Told(1, TOLD_BESIDE.len().saturating_sub(1));
    let uploader = Client {
        then_until: all_told,
        then_sends: AT_ONCE,
        until_told: NO_GROUP,
        ..Client::new(PUT)
    };
    let reader = Client {
        until: Until::Begun(1),
        ..Client::new(BESIDE)
    };
    let run = Run {
        words: "listen mem --chunk 2 --shards 2 --workers 1 --sessions 2",
        clients: &[uploader, reader],
        hold: Hold::Works(1, all_told),
        told: &[UPLOADED, TOLD_BESIDE],
        ..TWO
    };
    assert_eq!(rt; goes(&rt, rt.alloc(), &run)?, Went::AsWanted);
    Ok(())
}

const LATE_TOLD: &str = r#"{"change":1,"ok":true}
{"groups":[],"ok":true,"total":0,"version":1}
"#;

// A worker takes a change, and is held before it makes the work. Meanwhile a query finishes that work, and the worker comes late.
#[test]
fn a_worker_comes_late(rt: HostRuntime) -> Result<(), Memory> {
    let client = Client {
        then_until: Until::Begun(1),
        then_sends: QUERY,
        ..Client::new(PUT)
    };
    let run = Run {
        words: "run --chunk 2 --shards 2 --workers 1",
        clients: &[client],
        hold: Hold::First(Until::Told(0, UPLOADED.len())),
        told: &[LATE_TOLD],
        ..LISTEN
    };
    assert_eq!(rt; goes(&rt, rt.alloc(), &run)?, Went::AsWanted);
    Ok(())
}

const ANOTHER_PUT: &str = r#"{"op":"put","project":"p","path":"b","lang":"any","text":"x y z w"}
"#;

const QUERIES: &str = r#"{"op":"groups","project":"p","min":3}
{"op":"measures","project":"p","min":3}
{"op":"files","project":"p"}
"#;

const FIRST_TOLD: &str = r#"{"change":1,"ok":true}
{"groups":[{"places":[{"at":0,"first":1,"last":1,"path":"a"},{"at":0,"first":1,"last":1,"path":"b"}],"tokens":3}],"ok":true,"total":1,"version":2}
{"measures":{"complexity":2,"duplicated_blocks":2,"duplicated_files":2,"duplicated_lines":2,"duplicated_lines_density":10000,"files":2,"lines":2,"ncloc":2},"ok":true,"version":2}
{"files":[{"change":1,"lang":"any","lines":1,"path":"a","state":"ok","tokens":3},{"change":2,"lang":"any","lines":1,"path":"b","state":"ok","tokens":4}],"ok":true,"version":2}
"#;

const SECOND_TOLD: &str = r#"{"change":2,"ok":true}
{"groups":[{"places":[{"at":0,"first":1,"last":1,"path":"a"},{"at":0,"first":1,"last":1,"path":"b"}],"tokens":3}],"ok":true,"total":1,"version":2}
{"measures":{"complexity":2,"duplicated_blocks":2,"duplicated_files":2,"duplicated_lines":2,"duplicated_lines_density":10000,"files":2,"lines":2,"ncloc":2},"ok":true,"version":2}
{"files":[{"change":1,"lang":"any","lines":1,"path":"a","state":"ok","tokens":3},{"change":2,"lang":"any","lines":1,"path":"b","state":"ok","tokens":4}],"ok":true,"version":2}
"#;

// Each of two sessions has an upload, and makes the works of both at the same time as the other: of each work one is taken,
// and both are told the same at the same version.
#[test]
fn queries_that_make_the_same_works_are_told_the_same(rt: HostRuntime) -> Result<(), Memory> {
    let first = Client {
        then_until: Until::Told(1, 0),
        then_sends: QUERIES,
        ..Client::new(PUT)
    };
    let second = Client {
        until: Until::Told(0, 0),
        then_sends: QUERIES,
        ..Client::new(ANOTHER_PUT)
    };
    let run = Run {
        words: "listen mem --chunk 2 --shards 7 --workers 0 --sessions 2",
        clients: &[first, second],
        hold: Hold::Pairs,
        told: &[FIRST_TOLD, SECOND_TOLD],
        ..TWO
    };
    assert_eq!(rt; goes(&rt, rt.alloc(), &run)?, Went::AsWanted);
    Ok(())
}
