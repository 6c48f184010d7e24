//! Pictures of transcripts and logs, and lines that are none.
use sj_base::{MemSink, MemSource};
use sj_draw::{DrawRefusal, draw, draw_lines};
use std::alloc::Global;
use std::test::Fail;

// A transcript with a message that nobody took.
const TRANSCRIPT: &[u8] = b"session 0 a x b y\n\
    0.0 0 a b int 1\n\
    0.0 1 a c int 2\n\
    session 1 b z c u\n\
    1.0 0 b c session 0.1 b\n\
    1.1 0 c - String \"<&>\"\n\
    session 64 a o b p\n\
    64.0 0 a b int 2\n\
    session 65 a q c -\n\
    party a ended 4\n\
    party b waits 3 1.0\n\
    party b waits 3 from a\n\
    party c limit 5 0.1\n\
    party c limit 5 request\n\
    long\n";

// Lines of its log, one of each form.
const LOG: &[u8] = b"%%log\n\
    1 a send 0.0 int 1\n\
    2 b from a carry 0.1 0 0 0 int 1\n\
    5 b from a fin 0.1 0 3\n\
    6 b take 0.1 int 1\n\
    7 b send 1.0 session 0.1 b\n\
    8 b close 1.0\n\
    8 c from b carry 1.1 0 0 0 session 0.1 b\n\
    11 b from c claim 0.1\n\
    12 a from b signal 0.0 0 c 1\n\
    13 b from a ack 0.1 0\n\
    16 c from b give 0.1 1 a 0 1 0 -\n\
    17 c from c give 0.1 1 a 0 1 0 3\n\
    18 c local\n";

// The openings of such a log.
const OPENINGS: &[u8] = b"%%log2\n\
    1 a request 64 b\n\
    2 a request 65 c\n\
    2 b from a open 64\n\
    3 b accept 64 a\n\
    3 c from a open 65\n\
    4 c from a carry 65.1 0 0 0 int 2\n";

// How often the piece stands in the picture of the transcript with that log after it.
fn times(alloc: Global, log: &[u8], piece: &[u8]) -> Result<usize, Fail> {
    let mut text = Vec::from_slice(alloc, TRANSCRIPT)?;
    text.extend_from_slice(log)?;
    let Ok(svg) = draw_lines(alloc, &text) else {
        return Err(Fail::from("no picture"));
    };
    let many = piece.len().max(1);
    Ok(svg.windows(many).filter(|w| *w == piece).count())
}

// A log, a piece, and how often it stands in the picture.
type Row<'a> = (&'a [u8], &'a [u8], usize);

const PIECES: [Row; 31] = [
    (b"", b"class='party'", 3),
    (b"", b"<path class='", 3 + 7),
    (b"", b"<path class='message' ", 3),
    (b"", b"<path class='request' ", 1),
    (b"", b"<path class='request untaken' ", 1),
    (b"", b">o: request</text>", 1),
    (b"", b">q: request</text>", 1),
    (b"", b">o: int 2</text>", 1),
    (b"", b"<path class='message untaken' ", 1),
    (b"", b"<path class='session' ", 1),
    (b"", b">z: session 0.1 b</text>", 1),
    (b"", b">u: String \"&lt;&amp;&gt;\"</text>", 1),
    (LOG, b"class='party'", 3),
    (LOG, b"<path class='", 3 + 10),
    (LOG, b"<path class='message untaken' ", 1),
    (LOG, b"<path class='message' ", 1),
    (LOG, b"<path class='fin' ", 1),
    (LOG, b"<path class='session' ", 1),
    (LOG, b"<path class='claim' ", 1),
    (LOG, b"<path class='signal' ", 1),
    (LOG, b"<path class='ack' ", 1),
    (LOG, b"<path class='give' ", 2),
    (LOG, b">y: carry 0.1 0 0 0 int 1</text>", 1),
    (OPENINGS, b"<path class='", 3 + 8),
    (OPENINGS, b"<path class='request' ", 2),
    (OPENINGS, b"<path class='open' ", 2),
    (OPENINGS, b"<path class='accept' ", 1),
    (OPENINGS, b">o: request 64 b</text>", 1),
    (OPENINGS, b">p: accept 64 a</text>", 1),
    (OPENINGS, b">65: open 65</text>", 1),
    (OPENINGS, b">65.1: carry 65.1 0 0 0 int 2</text>", 1),
];

#[test]
fn each_message_or_delivery_has_an_arrow(rt: HostRuntime) -> Result<(), Fail> {
    for (log, piece, count) in PIECES {
        assert_eq!(rt; times(rt.alloc(), log, piece)?, count, "{piece:?}");
    }
    Ok(())
}

// So many parties that a text of 22 letters is cut, and the names of two rows of forty arrows.
const MANY: &[u8] =
    b"session 0 a x b y\nparty c ended 1\nparty d ended 1\nparty e ended 1\nparty f ended 1\n\
    party g ended 1\nparty h ended 1\nparty i ended 1\nparty j ended 1\nparty k ended 1\nparty l ended 1\n\
    party m ended 1\nparty n ended 1\nparty o ended 1\nparty p ended 1\n";

// A piece, and how often it stands in the picture of many parties with 81 messages.
const CUT: [(&[u8], usize); 5] = [
    (
        b"<title>x: String \"1 High Street\"</title>x: String \"1 Hig&#8230;</text>",
        81,
    ),
    (b"<text class='name' ", 16),
    (b"<use href='#names' y='1166'/>", 1),
    (b"<use href='#names' y='2314'/>", 1),
    (b"<use href='#names' ", 3),
];

#[test]
fn a_long_text_is_cut_and_names_stand_again(rt: HostRuntime) -> Result<(), Fail> {
    let mut text = Vec::from_slice(rt.alloc(), MANY)?;
    for _ in 0..81u8 {
        text.extend_from_slice(b"0.0 0 a b String \"1 High Street\"\n")?;
    }
    let Ok(svg) = draw_lines(rt.alloc(), &text) else {
        return Err(Fail::from("no picture"));
    };
    for (piece, count) in CUT {
        let many = piece.len().max(1);
        let found = svg.windows(many).filter(|w| *w == piece).count();
        assert_eq!(rt; found, count, "{piece:?}");
    }
    Ok(())
}

const REFUSED: [(&[u8], DrawRefusal); 27] = [
    (b"", DrawRefusal::Unread(1)),
    (b"done ", DrawRefusal::Unread(1)),
    (b"session 0 a x b", DrawRefusal::Unread(1)),
    (b"session 0 a x b y z", DrawRefusal::Unread(1)),
    (b"session a a x b y", DrawRefusal::Unread(1)),
    (b"party a", DrawRefusal::Unread(1)),
    (b"party a ended", DrawRefusal::Unread(1)),
    (b"party a ended x", DrawRefusal::Unread(1)),
    (b"party a waits 3", DrawRefusal::Unread(1)),
    (b"party a waits 3 for b", DrawRefusal::Unread(1)),
    (b"party a limit 3 requests", DrawRefusal::Unread(1)),
    (b"1 a request 64.0 b", DrawRefusal::Unread(1)),
    (b"1 a accept 64", DrawRefusal::Unread(1)),
    (b"1 a from b open 64.1", DrawRefusal::Unread(1)),
    (b"0.2 0 a b int 1", DrawRefusal::Unread(1)),
    (b"0.0 0 a b", DrawRefusal::Unread(1)),
    (b"0.0 0 a b float 1", DrawRefusal::Unread(1)),
    (b"0.0 0 a b session 0.1", DrawRefusal::Unread(1)),
    (b"1 a", DrawRefusal::Unread(1)),
    (b"1 a jump", DrawRefusal::Unread(1)),
    (b"1 a send 0.0", DrawRefusal::Unread(1)),
    (b"1 a from b carry 0.1 0 0 int 1", DrawRefusal::Unread(1)),
    (b"1 a from b give 0.1 1 a 0 1 0 x", DrawRefusal::Unread(1)),
    (b"1 a local\r", DrawRefusal::Unread(1)),
    (b"\xc3\xa9", DrawRefusal::Unread(1)),
    (b"session 0 a x b y\nfoo\ndone\n", DrawRefusal::Unread(2)),
    // A seventeenth party.
    (
        b"1 a local\n1 b local\n1 c local\n1 d local\n1 e local\n1 f local\n1 g local\n1 h local\n\
        1 i local\n1 j local\n1 k local\n1 l local\n1 m local\n1 n local\n1 o local\n1 p local\n1 q local\n",
        DrawRefusal::Beyond(17),
    ),
];

#[test]
fn the_first_line_that_is_none_is_told(rt: HostRuntime) {
    for (text, refusal) in REFUSED {
        assert_eq!(rt;
            draw_lines(rt.alloc(), text).err(),
            Some(refusal),
            "{text:?}"
        );
    }
}

#[test]
fn the_program_answers_with_the_line(rt: HostRuntime) -> Result<(), Fail> {
    let bytes = Vec::from_slice(rt.alloc(), b"1 a local\nfoo\n")?;
    let mut src = MemSource::new(bytes, Vec::new(rt.alloc()));
    let mut out = MemSink::new(rt.alloc(), 100, Vec::new(rt.alloc()))?;
    assert_eq!(rt; draw(rt.alloc(), &mut src, &mut out), 4);
    let wanted = b"line 2 is none of a transcript or a log\n";
    assert_eq!(rt; out.text(), wanted.as_slice());
    Ok(())
}
