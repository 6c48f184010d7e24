//! What no clause says: calls that are interrupted, how often, and that each call can succeed.
use crate::{
    Failed, MemSink, MemSource, ReadRefusal, ReadSource, Sink, Source, WriteFault, WriteSink,
    read_all, write_all_of,
};
use std::alloc::Global;
use std::io::{Error, ErrorKind, Read, Write};
use std::test::Fail;

/// A reader and writer that is interrupted some times before it answers. The reader has bytes again
/// after its first answer.
#[derive(Drop)]
struct Stammering {
    interruptions: u32,
    gives: usize,
}

impl Read for Stammering {
    fn read(&mut self, buf: &mut [u8]) -> std::io::Result<usize> {
        if self.interruptions > 0 {
            self.interruptions -= 1;
            return Err(Error::from(ErrorKind::Interrupted));
        }
        let n = self.gives.min(buf.len());
        self.gives = 2;
        Ok(n)
    }
}

impl Write for Stammering {
    fn write(&mut self, buf: &[u8]) -> std::io::Result<usize> {
        if self.interruptions > 0 {
            self.interruptions -= 1;
            return Err(Error::from(ErrorKind::Interrupted));
        }
        Ok(self.gives.min(buf.len()))
    }

    fn flush(&mut self) -> std::io::Result<()> {
        Ok(())
    }
}

#[test]
fn reads_up_to_the_limit_and_no_further(rt: HostRuntime) -> Result<(), Fail> {
    let rows = [
        (0, Ok(0)),
        (4999, Ok(4999)),
        (5000, Ok(5000)),
        (5001, Err(ReadRefusal::TooLarge)),
        (9000, Err(ReadRefusal::TooLarge)),
    ];
    for (count, wanted) in rows {
        let bytes = vec![in rt.alloc(); 7u8; count]?;
        let mut src = MemSource::new(bytes, Vec::new(rt.alloc()));
        let found = read_all(rt.alloc(), &mut src, 5000).map(|bytes| bytes.len());
        assert_eq!(rt; found, wanted, "at {count} bytes");
    }
    Ok(())
}

#[test]
fn fails_at_the_listed_calls_alone(rt: HostRuntime) -> Result<(), Fail> {
    let bytes = Vec::from_slice(rt.alloc(), b"abcd")?;
    let mut src = MemSource::new(bytes, vec![in rt.alloc(); 0, 2]?);
    let mut buf = [0u8; 3];
    for wanted in [Err(Failed), Ok(3), Err(Failed), Ok(1), Ok(0), Ok(0)] {
        assert_eq!(rt; src.read(&mut buf), wanted);
    }
    Ok(())
}

const TEXT: &[u8] = b"seventeen letters and more";

// What comes of writing the text to a sink with that room, which fails at that call, and how many
// bytes it has then.
fn written(alloc: Global, room: usize, call: u64) -> Result<(Result<(), WriteFault>, usize), Fail> {
    let mut out = MemSink::new(alloc, room, vec![in alloc; call]?)?;
    let answer = write_all_of(&mut out, TEXT);
    Ok((answer, out.text().len()))
}

#[test]
fn a_sink_takes_sixteen_bytes_at_a_time(rt: HostRuntime) -> Result<(), Fail> {
    for (room, call, wanted) in [
        (26, 5, (Ok(()), 26)),
        (20, 5, (Err(WriteFault), 20)),
        (26, 1, (Err(WriteFault), 16)),
        (26, 0, (Err(WriteFault), 0)),
    ] {
        let found = written(rt.alloc(), room, call)?;
        assert_eq!(rt; found, wanted, "room {room}, call {call}");
    }
    Ok(())
}

#[test]
fn a_reader_is_asked_a_thousand_times(rt: HostRuntime) {
    for (interruptions, wanted) in [(0, Ok(2)), (999, Ok(2)), (1000, Err(Failed))] {
        let mut src = ReadSource::new(Stammering {
            interruptions,
            gives: 2,
        });
        let mut buf = [0u8; 4];
        assert_eq!(rt;
            src.read(&mut buf),
            wanted,
            "after {interruptions} interruptions"
        );
    }
}

#[test]
fn the_end_of_a_reader_stays(rt: HostRuntime) {
    let mut src = ReadSource::new(Stammering {
        interruptions: 0,
        gives: 0,
    });
    let mut buf = [0u8; 4];
    for _ in 0..3 {
        assert_eq!(rt; src.read(&mut buf), Ok(0));
    }
}

#[test]
fn a_writer_that_takes_nothing_has_failed(rt: HostRuntime) {
    let rows = [
        (0, 2, Ok(2)),
        (999, 2, Ok(2)),
        (1000, 2, Err(Failed)),
        (0, 0, Err(Failed)),
    ];
    for (interruptions, gives, wanted) in rows {
        let mut out = WriteSink::new(Stammering {
            interruptions,
            gives,
        });
        assert_eq!(rt; out.write(b"abc"), wanted, "{interruptions} and {gives}");
    }
}
