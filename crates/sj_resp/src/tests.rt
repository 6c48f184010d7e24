//! Replies as the protocol's description has them, cut ones, and bytes that are none.
use crate::{RespRefusal, Token, TokenDecoder, put_command, put_word};
use std::alloc::Global;
use std::test::Fail;

// A reply, the first byte of its kind (0 for null), its bytes and its number.
type Row<'a> = (&'a [u8], u8, &'a [u8], i64);

const REPLIES: [Row; 11] = [
    (b"+OK\r\n", b'+', b"OK", 0),
    (b"-ERR unknown\r\n", b'-', b"ERR unknown", 0),
    (b":0\r\n", b':', b"", 0),
    (b":1000\r\n", b':', b"", 1000),
    (b":-7\r\n", b':', b"", -7),
    (b"$5\r\nhe\r\no\r\n", b'$', b"he\r\no", 0),
    (b"$0\r\n\r\n", b'$', b"", 0),
    (b"$-1\r\n", 0, b"", 0),
    (b"*0\r\n", b'*', b"", 0),
    (b"*2\r\n", b'*', b"", 2),
    (b"*-1\r\n", 0, b"", 0),
];

// Bytes, why they are refused, and what is wrong.
const REFUSED: [(&[u8], RespRefusal, &str); 9] = [
    (b"?", RespRefusal::Kind, "a kind that isn't there"),
    (b"\r\n", RespRefusal::Kind, "an empty line"),
    (b"+OK\rx", RespRefusal::Line, "a return alone"),
    (b":\r\n", RespRefusal::Number, "no digits"),
    (b":07\r\n", RespRefusal::Number, "a leading zero"),
    (b"$-2\r\n", RespRefusal::Number, "a length below -1"),
    (b"$67108865\r\n", RespRefusal::Number, "a length too large"),
    (b"*16777217\r\n", RespRefusal::Number, "too many parts"),
    (b"$1\r\nabc", RespRefusal::End, "a bulk that goes on"),
];

// The first byte of the token's kind, its bytes and its number.
fn parts(token: &Token) -> (u8, &[u8], i64) {
    match token {
        Token::Simple(line) => (b'+', line, 0),
        Token::Failed(line) => (b'-', line, 0),
        Token::Int(n) => (b':', b"", *n),
        Token::Bulk(bytes) => (b'$', bytes, 0),
        Token::Null => (0, b"", 0),
        Token::Array(n) => (b'*', b"", i64::from(*n)),
    }
}

// What comes once all bytes are fed, one by one; none where a token comes sooner.
fn by_bytes(alloc: Global, reply: &[u8]) -> Result<Option<Token>, RespRefusal> {
    let mut decoder = TokenDecoder::new(alloc);
    for &byte in reply {
        if decoder.next()?.is_some() {
            return Ok(None);
        }
        decoder.feed(&[byte])?;
    }
    decoder.next()
}

#[test]
fn a_reply_comes_at_its_last_byte(rt: HostRuntime) -> Result<(), Fail> {
    for (reply, kind, bytes, n) in REPLIES {
        let token = by_bytes(rt.alloc(), reply)?;
        assert_eq!(rt;
            token.as_ref().map(parts),
            Some((kind, bytes, n)),
            "{kind} {n}"
        );
    }
    Ok(())
}

#[test]
fn what_is_no_token_is_refused(rt: HostRuntime) -> Result<(), Fail> {
    for (bytes, wanted, what) in REFUSED {
        let mut decoder = TokenDecoder::new(rt.alloc());
        decoder.feed(bytes)?;
        assert_eq!(rt; decoder.next().err(), Some(wanted), "{what}");
    }
    Ok(())
}

#[test]
fn a_command_has_its_head_and_its_words(rt: HostRuntime) -> Result<(), Fail> {
    let mut out = Vec::new(rt.alloc());
    put_command(&mut out, 2)?;
    put_word(&mut out, b"GET")?;
    put_word(&mut out, b"a\r\n")?;
    assert_eq!(rt;
        out.as_slice(),
        b"*2\r\n$3\r\nGET\r\n$3\r\na\r\n\r\n".as_slice()
    );
    Ok(())
}
