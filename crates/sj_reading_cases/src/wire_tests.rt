//! Frames as the format has them, and bytes that are none.
ghost use Rattle.sj_end.specs.Views.{frame_at};
ghost use Rattle.sj_wire.specs.Lawful.{IsLawful};

use sj_base::{EndId, Msg};
use sj_end::{Body, Frame, Note, note_of};
use sj_wire::{Decoder, WireRefusal, encode, is_lawful};
use std::alloc::Global;
use std::test::Fail;

// Clock 1, for end 0.1 in connection 0: message 0, none taken, the number 5.
const CARRY: [u8; 40] = [
    0, 0, 0, 36, 1, 1, 0, 0, 0, 0, 0, 0, 0, 1, 0, 0, 0, 0, 1, 0, 0, 0, 0, 0, 0, 0, 0, 0, 0, 0, 0,
    0, 0, 0, 0, 0, 0, 0, 0, 5,
];

// Clock 3, for end 0.1 in connection 0: no message from number 1 on.
const FIN: [u8; 27] = [
    0, 0, 0, 23, 1, 2, 0, 0, 0, 0, 0, 0, 0, 3, 0, 0, 0, 0, 1, 0, 0, 0, 0, 0, 0, 0, 1,
];

// Clock 2, of end 0.1.
const CLAIM: [u8; 19] = [0, 0, 0, 15, 1, 3, 0, 0, 0, 0, 0, 0, 0, 2, 0, 0, 0, 0, 1];

// Clock 4, for end 0.0 in connection 0: to party 2, one taken.
const SIGNAL: [u8; 29] = [
    0, 0, 0, 25, 1, 4, 0, 0, 0, 0, 0, 0, 0, 4, 0, 0, 0, 0, 0, 0, 0, 0, 0, 0, 2, 0, 0, 0, 1,
];

// Clock 5, of end 0.1 in connection 1.
const ACK: [u8; 23] = [
    0, 0, 0, 19, 1, 5, 0, 0, 0, 0, 0, 0, 0, 5, 0, 0, 0, 0, 1, 0, 0, 0, 1,
];

// Clock 1: session 64 was opened.
const OPEN: [u8; 19] = [0, 0, 0, 15, 2, 7, 0, 0, 0, 0, 0, 0, 0, 1, 0, 0, 0, 64, 1];

const END: EndId = EndId { sess: 0, side: 1 };

fn five() -> Frame
    ensures { IsLawful (frame_at result) }
{
    Frame {
        clock: 1,
        body: Body::Carry {
            to: END,
            conn: 0,
            number: 0,
            taken: 0,
            msg: Msg::Int(5),
        },
    }
}

fn opened() -> Frame
    ensures { IsLawful (frame_at result) }
{
    Frame {
        clock: 1,
        body: Body::Open { sess: 64 },
    }
}

// The first frame of the bytes.
fn first_of(alloc: Global, bytes: &[u8]) -> Result<Option<Frame>, WireRefusal> {
    let mut decoder = Decoder::new(alloc);
    decoder.feed(bytes)?;
    decoder.next()
}

// The clock and what is noted of the first frame of the bytes.
fn noted(alloc: Global, bytes: &[u8]) -> Option<(u64, Note)> {
    match first_of(alloc, bytes) {
        Ok(Some(frame)) => Some((frame.clock, note_of(&frame.body))),
        _ => None,
    }
}

#[test]
fn frames_that_keep_the_limits_are_written(rt: HostRuntime) -> Result<(), Fail> {
    assert!(rt; is_lawful(&five()));
    assert_eq!(rt; encode(rt.alloc(), &five())?.as_slice(), CARRY.as_slice());
    assert!(rt; is_lawful(&opened()));
    assert_eq!(rt; encode(rt.alloc(), &opened())?.as_slice(), OPEN.as_slice());
    Ok(())
}

#[test]
fn spellings_are_read_as_their_frames(rt: HostRuntime) {
    let signal = Note::Signal {
        to: EndId { sess: 0, side: 0 },
        conn: 0,
        party: 2,
        taken: 1,
    };
    let rows: [(&[u8], u64, Note); 4] = [
        (&CLAIM, 2, Note::Claim { of: END }),
        (&SIGNAL, 4, signal),
        (&ACK, 5, Note::Ack { of: END, conn: 1 }),
        (&OPEN, 1, Note::Open { sess: 64 }),
    ];
    for (bytes, clock, note) in rows {
        assert_eq!(rt; noted(rt.alloc(), bytes), Some((clock, note)), "{clock}");
    }
}

// Why the bytes with another one at that position are no frame.
fn refusal_of(alloc: Global, frame: &[u8], at: usize, to: u8) -> Result<Option<WireRefusal>, Fail> {
    let mut bytes = Vec::from_slice(alloc, frame)?;
    if let Some(byte) = bytes.get_mut(at) {
        *byte = to;
    }
    Ok(first_of(alloc, &bytes).err())
}

// A frame, a position, the byte there, the refusal, and what is wrong.
type Row<'a> = (&'a [u8], usize, u8, WireRefusal, &'a str);

const REFUSED: [Row; 14] = [
    (&CARRY, 4, 0, WireRefusal::Version, "version 0"),
    (&CARRY, 4, 3, WireRefusal::Version, "version 3"),
    (&CARRY, 4, 2, WireRefusal::Kind, "kind 1 under version 2"),
    (&CARRY, 5, 0, WireRefusal::Kind, "kind 0"),
    (&CARRY, 5, 7, WireRefusal::Kind, "kind 7 under version 1"),
    (&CARRY, 6, 64, WireRefusal::Value, "a clock of 2^62"),
    (&CARRY, 21, 4, WireRefusal::Value, "connection 1024"),
    (&CARRY, 24, 16, WireRefusal::Value, "number 1,048,576"),
    (&FIN, 3, 22, WireRefusal::Value, "a length one too small"),
    (&OPEN, 3, 14, WireRefusal::Length, "a length of 14"),
    (&OPEN, 4, 1, WireRefusal::Kind, "an Open under version 1"),
    (&OPEN, 4, 3, WireRefusal::Version, "an Open under version 3"),
    (&OPEN, 5, 8, WireRefusal::Kind, "kind 8"),
    (&OPEN, 18, 0, WireRefusal::Value, "an Open for side 0"),
];

#[test]
fn what_is_no_frame_is_refused(rt: HostRuntime) -> Result<(), Fail> {
    for (frame, at, to, wanted, what) in REFUSED {
        let refusal = refusal_of(rt.alloc(), frame, at, to)?;
        assert_eq!(rt; refusal, Some(wanted), "{what}");
    }
    Ok(())
}

#[test]
fn a_frame_comes_at_its_last_byte(rt: HostRuntime) -> Result<(), Fail> {
    let mut decoder = Decoder::new(rt.alloc());
    for &byte in &FIN {
        assert!(rt; decoder.next()?.is_none());
        decoder.feed(&[byte])?;
    }
    assert!(rt; decoder.next()?.is_some());
    Ok(())
}
