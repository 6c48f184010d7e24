//! Commands and replies, to the byte.

use crate::server::Server;
use std::alloc::Global;
use std::test::Fail;

// What is sent, and what Redis 7 answers.
const TALK: [(&[u8], &[u8]); 10] = [
    (
        b"*2\r\n$3\r\nGET\r\n$1\r\nf\r\n",
        b"-NOAUTH Authentication required.\r\n",
    ),
    (
        b"*2\r\n$4\r\nAUTH\r\n$1\r\nq\r\n",
        b"-WRONGPASS invalid username-password pair or user is disabled.\r\n",
    ),
    (
        b"*3\r\n$4\r\nAUTH\r\n$1\r\nu\r\n$1\r\np\r\n",
        b"-WRONGPASS invalid username-password pair or user is disabled.\r\n",
    ),
    (b"*2\r\n$4\r\nAUTH\r\n$1\r\np\r\n", b"+OK\r\n"),
    (b"*2\r\n$3\r\nGET\r\n$1\r\nf\r\n", b"$-1\r\n"),
    (
        b"*3\r\n$5\r\nSETNX\r\n$1\r\nf\r\n$2\r\nxy\r\n*3\r\n$5\r\nSETNX\r\n$1\r\nf\r\n$1\r\nz\r\n",
        b":1\r\n:0\r\n",
    ),
    (b"*2\r\n$3\r\nGET\r\n$1\r\nf\r\n", b"$2\r\nxy\r\n"),
    (
        b"*5\r\n$4\r\nXADD\r\n$1\r\ns\r\n$3\r\n1-0\r\n$1\r\ne\r\n$1\r\na\r\n",
        b"$3\r\n1-0\r\n",
    ),
    (
        b"*5\r\n$4\r\nXADD\r\n$1\r\ns\r\n$3\r\n1-0\r\n$1\r\ne\r\n$1\r\nb\r\n",
        b"-ERR The ID specified in XADD is equal or smaller than the target stream top item\r\n",
    ),
    (
        b"*6\r\n$5\r\nXREAD\r\n$5\r\nCOUNT\r\n$3\r\n512\r\n$7\r\nSTREAMS\r\n$1\r\ns\r\n$3\r\n0-0\r\n*6\r\n$5\r\nXREAD\r\n$5\r\nCOUNT\r\n$3\r\n512\r\n$7\r\nSTREAMS\r\n$1\r\ns\r\n$3\r\n1-0\r\n",
        b"*1\r\n*2\r\n$1\r\ns\r\n*1\r\n*2\r\n$3\r\n1-0\r\n*2\r\n$1\r\ne\r\n$1\r\na\r\n*-1\r\n",
    ),
];

/// Whether the server answers so.
fn answers(server: &mut Server, sent: &[u8], wanted: &[u8]) -> bool {
    let mut buf = [0; 256];
    if server.take(sent).is_err() {
        return false;
    }
    let n = server.give(&mut buf);
    buf.get(..n) == Some(wanted)
}

/// How many of the replies come, up to the first that is another.
fn replies_that_come(alloc: Global) -> usize {
    let mut server = Server::new(alloc, Some(b"p"));
    let mut count: usize = 0;
    for (sent, wanted) in &TALK {
        if !answers(&mut server, sent, wanted) {
            break;
        }
        count = count.saturating_add(1);
    }
    count
}

#[test]
fn the_server_in_memory_answers_as_redis_does(rt: HostRuntime) -> Result<(), Fail> {
    assert_eq!(rt; replies_that_come(rt.alloc()), TALK.len());
    Ok(())
}
