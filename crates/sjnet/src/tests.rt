//! A file over streams, in one process.
use sj_base::{MemSink, MemSource};
use sj_socket::SocketLinks;
use sj_tool::sj;
use sj_work::NoGate;
use std::alloc::Global;
use std::test::Fail;

const AGENCY: [&str; 27] = [
    "protocol cust { begin.![!<String>.?(int)]*.!{ACCEPT: !<String>.?(String), REJECT:} }",
    "protocol agen { begin.?[?(String).!<int>]*.?{ACCEPT: ?(String).!<String>, REJECT:} }",
    "protocol rest { begin.?(String).!<String> }",
    "protocol asks { begin.!{ACCEPT: !<?(String).!<String>>, REJECT:} }",
    "protocol gets { begin.?{ACCEPT: ?(?(String).!<String>), REJECT:} }",
    "party customer {",
    "  let last = 0;",
    "  outwhile x 2 { send x \"Paris\"; recv x last int; }",
    "  if last <= 400 { outbranch x ACCEPT; send x \"1 High Street\"; recv x date String; close x; }",
    "  else { outbranch x REJECT; close x; }",
    "}",
    "party agency {",
    "  let price = 500;",
    "  inwhile y { recv y place String; let price = price - 100; send y price; }",
    "  inbranch y {",
    "    ACCEPT: { outbranch z ACCEPT; delegate z y; close z; }",
    "    REJECT: { close y; outbranch z REJECT; close z; }",
    "  }",
    "}",
    "party supplier {",
    "  inbranch u {",
    "    ACCEPT: { recv u s session rest; close u; recv s street String; send s \"3 May\"; close s; }",
    "    REJECT: { close u; }",
    "  }",
    "}",
    "connect customer x cust to agency y agen;",
    "connect agency z asks to supplier u gets;",
];

const TRANSCRIPT: [&str; 18] = [
    "session 0 customer x agency y",
    "0.0 0 customer agency more",
    "0.0 1 customer agency String \"Paris\"",
    "0.0 2 customer agency more",
    "0.0 3 customer agency String \"Paris\"",
    "0.0 4 customer agency stop",
    "0.0 5 customer agency label ACCEPT",
    "0.0 6 customer supplier String \"1 High Street\"",
    "0.1 0 agency customer int 400",
    "0.1 1 agency customer int 300",
    "0.1 2 supplier customer String \"3 May\"",
    "session 1 agency z supplier u",
    "1.0 0 agency supplier label ACCEPT",
    "1.0 1 agency supplier session 0.1 agency",
    "party customer ended 13",
    "party agency ended 14",
    "party supplier ended 6",
    "done",
];

// The lines, each with its newline.
fn text_of(alloc: Global, lines: &[&str]) -> Result<Vec<u8>, Fail> {
    let mut text = Vec::new(alloc);
    for line in lines {
        text.extend_from_slice(line.as_bytes())?;
        text.push(b'\n')?;
    }
    Ok(text)
}

#[test]
fn the_agency_has_its_transcript_alone(rt: HostRuntime) -> Result<(), Fail> {
    let wanted = text_of(rt.alloc(), &TRANSCRIPT)?;
    for looks in ["0", "1", "1000", "100000"] {
        let mut links = SocketLinks::new(&rt);
        for _ in 0..10 {
            let mut words = Vec::new(rt.alloc());
            for word in ["run", "--looks", looks] {
                words.push(String::from_str(rt.alloc(), word)?)?;
            }
            let mut src = MemSource::new(text_of(rt.alloc(), &AGENCY)?, Vec::new(rt.alloc()));
            let mut out = MemSink::new(rt.alloc(), 100_000, Vec::new(rt.alloc()))?;
            let status = sj(
                &rt,
                rt.alloc(),
                &words,
                &mut src,
                &mut out,
                &mut links,
                &NoGate,
            );
            assert_eq!(rt; out.text(), wanted.as_slice(), "{looks}");
            assert_eq!(rt; status, 0, "{looks}");
        }
    }
    Ok(())
}
