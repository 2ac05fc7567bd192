use crate::clients::{LISTEN, Run, Went, goes};
use cq_base::Memory;
use cq_stage::{Client, Hold};

// An upload makes no work. A query makes that of each upload that has none, the last one first, and of no other change; it
// brings up both shards if its version is not the published one; and what is refused calls nothing.
const TALK: &str = r#"{"op":"put","project":"p","path":"a","lang":"any","text":"a b a b"}
{"op":"put","project":"p","path":"b","lang":"any","text":"a b"}
{"op":"state"}
{"op":"drop","project":"p","path":"c"}
{"op":"files","project":"p","finish":false}
{"op":"files","project":"p"}
{"op":"groups","project":"p","min":2}
{"op":"gate","project":"p","conditions":[]}
{"op":"measures","project":"p","at":4}
{"op":"measures","project":"p","finish":false}
{"op":"put","project":"q","path":"a","lang":"java","text":"`"}
{"op":"drop","project":"p","path":"a"}
{"op":"put","project":"p","path":"b","lang":"c","text":"int a;"}
{"op":"groups","project":"p","min":1}
{"op":"verdict","project":"p"}
{"op":"files","project":"none","finish":false}
{"op":"drop","project":"q","path":"a"}
{"op":"drop","project":"q","path":"a"}
{"op":"fly"}
{"op":"put","project":"q","path":"a","lang":"go","text":""}
{"op":"put","project":"q","path":"a","lang":"any","text":"a"}
{"op":"put","project":"q","path":"a","lang":"any","text":"b"}
{"op":"groups","project":"q","min":2}
"#;

// Each reply, after the calls of the gate that come before it.
const CALLED: &str = r#"accept 1
{"change":1,"ok":true}
accept 2
{"change":2,"ok":true}
{"accepted":2,"done":0,"ok":true,"published":0}
{"code":9,"error":"absent","ok":false}
{"code":12,"error":"pending","number":1,"ok":false}
work 2
work 1
shard 0
shard 1
open 2
{"files":[{"change":1,"lang":"any","lines":1,"path":"a","state":"ok","tokens":4},{"change":2,"lang":"any","lines":1,"path":"b","state":"ok","tokens":2}],"ok":true,"version":2}
open 2
{"groups":[{"places":[{"at":0,"first":1,"last":1,"path":"a"},{"at":2,"first":1,"last":1,"path":"a"},{"at":0,"first":1,"last":1,"path":"b"}],"tokens":2}],"ok":true,"total":1,"version":2}
accept 3
{"change":3,"ok":true}
{"code":8,"count":3,"error":"future","ok":false}
shard 0
shard 1
open 3
{"measures":{"complexity":2,"duplicated_blocks":0,"duplicated_files":0,"duplicated_lines":0,"duplicated_lines_density":0,"files":2,"lines":2,"ncloc":2},"ok":true,"version":3}
accept 4
{"change":4,"ok":true}
accept 5
{"change":5,"ok":true}
accept 6
{"change":6,"ok":true}
{"code":7,"error":"min","ok":false}
work 6
work 4
shard 0
shard 1
open 6
{"failed":[],"ok":true,"verdict":"OK","version":6}
open 6
{"files":[],"ok":true,"version":6}
accept 7
{"change":7,"ok":true}
{"code":9,"error":"absent","ok":false}
{"code":2,"error":"op","ok":false}
accept 8
{"change":8,"ok":true}
accept 9
{"change":9,"ok":true}
{"code":10,"error":"full-changes","ok":false}
work 9
work 8
shard 0
shard 1
open 9
{"groups":[],"ok":true,"total":0,"version":9}
"#;

#[test]
fn the_gate_is_called_where_a_talk_gets_on(rt: HostRuntime) -> Result<(), Memory> {
    let run = Run {
        words: "run --chunk 2 --shards 2 --change-limit 6 --text-limit 1000",
        clients: &[Client::new(TALK)],
        hold: Hold::Shown,
        told: &[CALLED],
        ..LISTEN
    };
    assert_eq!(rt; goes(&rt, rt.alloc(), &run)?, Went::AsWanted);
    Ok(())
}

// A talk that ends with a gate, which is done as soon as it is accepted, and an upload that is not done.
const UNDONE: &str = r#"{"op":"gate","project":"p","conditions":[]}
{"op":"put","project":"p","path":"a","lang":"any","text":"a b"}
"#;

// The next talk was told of neither. While the upload is not done, its queries publish only what they ask for.
const AFTER_UNDONE: &str = r#"{"op":"files","project":"p","finish":false}
{"op":"files","project":"p","at":1,"finish":false}
{"op":"files","project":"p","at":2,"finish":false}
"#;

// The replies to the first talk, and the calls of the gate in both.
const UNDONE_CALLED: &str = r#"accept 1
{"change":1,"ok":true}
accept 2
{"change":2,"ok":true}
open 0
shard 0
open 1
"#;

const AFTER_UNDONE_TOLD: &str = r#"{"files":[],"ok":true,"version":0}
{"files":[],"ok":true,"version":1}
{"code":12,"error":"pending","number":2,"ok":false}
"#;

// A talk that ends with all changes done, and the last one not published.
const DONE: &str = r#"{"op":"put","project":"p","path":"a","lang":"any","text":"a b"}
{"op":"files","project":"p"}
{"op":"drop","project":"p","path":"a"}
"#;

// The next talk was not told of that one, and publishes it all the same.
const AFTER_DONE: &str = r#"{"op":"files","project":"p","finish":false}
"#;

const DONE_CALLED: &str = r#"accept 1
{"change":1,"ok":true}
work 1
shard 0
open 1
{"files":[{"change":1,"lang":"any","lines":1,"path":"a","state":"ok","tokens":2}],"ok":true,"version":1}
accept 2
{"change":2,"ok":true}
shard 0
open 2
"#;

const AFTER_DONE_TOLD: &str = r#"{"files":[],"ok":true,"version":2}
"#;

#[test]
fn a_second_talk_goes_on_where_the_first_ended(rt: HostRuntime) -> Result<(), Memory> {
    let undone = Run {
        words: "listen mem --chunk 2 --shards 1 --workers 0 --sessions 1",
        clients: &[Client::new(UNDONE), Client::new(AFTER_UNDONE)],
        hold: Hold::Shown,
        told: &[UNDONE_CALLED, AFTER_UNDONE_TOLD],
        ..LISTEN
    };
    assert_eq!(rt; goes(&rt, rt.alloc(), &undone)?, Went::AsWanted);
    let done = Run {
        clients: &[Client::new(DONE), Client::new(AFTER_DONE)],
        told: &[DONE_CALLED, AFTER_DONE_TOLD],
        ..undone
    };
    assert_eq!(rt; goes(&rt, rt.alloc(), &done)?, Went::AsWanted);
    Ok(())
}
