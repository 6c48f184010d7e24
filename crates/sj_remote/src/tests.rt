//! A connection in memory.
use crate::{Conn, ConnRefusal};
use sj_base::{MemSink, MemSource};
use std::alloc::Global;
use std::test::Fail;

// What comes, how many replies are whole, and why the next one isn't.
const CAME: [(&[u8], usize, ConnRefusal); 4] = [
    (b"+OK\r\n*2\r\n:1\r\n$2\r\nab\r\n", 2, ConnRefusal::Lost),
    (b"", 0, ConnRefusal::Lost),
    (b":1\r\n*2\r\n:1\r\n", 1, ConnRefusal::Lost),
    (b":1\r\n*2\r\n:1\r\n?", 1, ConnRefusal::NoReply),
];

fn connect(alloc: Global, came: &[u8]) -> Result<Conn<MemSource, MemSink>, Fail> {
    let source = MemSource::new(Vec::from_slice(alloc, came)?, Vec::new(alloc));
    let sink = MemSink::new(alloc, 64, Vec::new(alloc))?;
    Ok(Conn::new(alloc, source, sink)?)
}

#[test]
fn replies_come_one_after_another(rt: HostRuntime) -> Result<(), Fail> {
    for (came, whole, refusal) in CAME {
        let mut conn = connect(rt.alloc(), came)?;
        for _ in 0..whole {
            assert!(rt; conn.reply().is_ok());
        }
        assert_eq!(rt; conn.reply().err(), Some(refusal));
    }
    Ok(())
}
