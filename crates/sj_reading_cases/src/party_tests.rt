//! Files as texts, their parts, their canonical texts, and limits that one token passes.

use sj_lang::{File, dual};
use sj_party::{ParseRefusal, Rule, parse_file, print_file, print_protocol_line};
use sj_proto::Tokens;
use std::alloc::Global;
use std::test::Fail;

// The file that the text stands for.
fn read(alloc: Global, text: &[u8]) -> Result<File, Fail> {
    if text.len() > Tokens::MOST_BYTES {
        return Err(Fail::from("too long"));
    }
    Ok(parse_file(alloc, text)?)
}

// The canonical text of the file that the text stands for.
fn printed(alloc: Global, text: &[u8]) -> Result<Vec<u8>, Fail> {
    let file = read(alloc, text)?;
    let mut printed = Vec::from_slice(alloc, b"// as it was\n")?;
    print_file(&mut printed, &file)?;
    Ok(printed)
}

// Statements of each kind and operators of each level, with blanks, comments and parentheses that
// mean nothing.
const WRITTEN: &[u8] = b"protocol p{begin.![ !<int> ]* // turns
.!{ ACCEPT :!<?(String)> ,REJECT: }}
party a { let n=0; outwhile x(2){ send x \"Paris\"; }
  recv\tx y session p;inwhile y { inbranch y { ACCEPT: { delegate x y; close x; } REJECT: { } } }
  if(n<=- 400) { outbranch x ACCEPT; recv y n String; recv y k boolean; }
  else { relay x y { recv y m int; } } }
party b { let s = ((n)) - (100); let s = (a+b)-n+(m); let s = a-(b-n); let s = a-(b*n);
  let s = (a+b)*(n-m); let s = (a*b)*n; let s = a*(b*n); let s = (a<b)==(n<=m);
  let s = not(not(a))*b; let s = not(a==\"3 May\"); let s = 1--9223372036854775808;
  let s = -0*-7; let s = ( true )==false; request
 x p to b;accept y p from  a; }
connect a x p
to b y p;";

const CANONICAL: &str = "// as it was
protocol p { begin.![!<int>]*.!{ACCEPT: !<?(String)>, REJECT:} }
party a {
  let n = 0;
  outwhile x 2 {
    send x \"Paris\";
  }
  recv x y session p;
  inwhile y {
    inbranch y {
      ACCEPT: {
        delegate x y;
        close x;
      }
      REJECT: {
      }
    }
  }
  if n <= -400 {
    outbranch x ACCEPT;
    recv y n String;
    recv y k boolean;
  } else {
    relay x y {
      recv y m int;
    }
  }
}
party b {
  let s = n - 100;
  let s = a + b - n + m;
  let s = a - (b - n);
  let s = a - b * n;
  let s = (a + b) * (n - m);
  let s = a * b * n;
  let s = a * (b * n);
  let s = (a < b) == (n <= m);
  let s = not not a * b;
  let s = not (a == \"3 May\");
  let s = 1 - -9223372036854775808;
  let s = 0 * -7;
  let s = true == false;
  request x p to b;
  accept y p from a;
}
connect a x p to b y p;
";

#[test]
fn a_file_is_printed_behind_what_is_there(rt: HostRuntime) -> Result<(), Fail> {
    let text = printed(rt.alloc(), WRITTEN)?;
    assert_eq!(rt; text.as_slice(), CANONICAL.as_bytes());
    Ok(())
}

#[test]
fn a_dual_has_a_line_of_its_own(rt: HostRuntime) -> Result<(), Fail> {
    let file = read(rt.alloc(), b"protocol p { begin.!<int> }")?;
    let p = file.protocols.first().ok_or("no protocol")?;
    let other = dual(rt.alloc(), &p.body)?;
    let mut text = Vec::new(rt.alloc());
    print_protocol_line(&mut text, &file.names, b"dual", p.name, &other)?;
    assert_eq!(rt; text.as_slice(), b"dual p { begin.?(int) }\n".as_slice());
    Ok(())
}

// The rule and the column of the fault of so many parts, one after the other, with a head and a
// tail; None where there is none.
fn fault_of(
    alloc: Global,
    head: &[u8],
    part: &[u8],
    times: usize,
    tail: &[u8],
) -> Result<Option<(Rule, u32)>, Fail> {
    let mut text = Vec::from_slice(alloc, head)?;
    text.extend_from_slice(&part.repeat(alloc, times)?)?;
    text.extend_from_slice(tail)?;
    if text.len() > Tokens::MOST_BYTES {
        return Err(Fail::from("too long"));
    }
    match parse_file(alloc, &text) {
        Err(ParseRefusal::At(fault)) => Ok(Some((fault.rule, fault.column))),
        _ => Ok(None),
    }
}

// A head, a part, how often it stands, a tail, and the fault.
type Row<'a> = (&'a [u8], &'a [u8], usize, &'a [u8], Option<(Rule, u32)>);

const LIMITS: [Row; 10] = [
    (b"", b"protocol p { begin } ", 256, b"", None),
    (
        b"",
        b"protocol p { begin } ",
        257,
        b"",
        Some((Rule::P4, 5377)),
    ),
    (b"protocol p { begin", b".!<int>", 1024, b" }", None),
    (
        b"protocol p { begin",
        b".!<int>",
        1025,
        b" }",
        Some((Rule::P4, 7188)),
    ),
    // Each protocol has its own items.
    (
        b"protocol p { begin",
        b".!<int>",
        1024,
        b"} protocol q { begin.!<int> }",
        None,
    ),
    // A missing rule comes before the limit.
    (
        b"protocol p { begin",
        b".!<int>",
        1024,
        b".<",
        Some((Rule::P1, 7188)),
    ),
    (b"", b"party a { } ", 17, b"", Some((Rule::P4, 193))),
    (b"", b"connect a x p to b y q; ", 64, b"", None),
    (
        b"",
        b"connect a x p to b y q; ",
        65,
        b"",
        Some((Rule::P4, 1537)),
    ),
    // The largest text.
    (b"", b" ", 65_536, b"", None),
];

#[test]
fn each_limit_is_passed_by_one_token(rt: HostRuntime) -> Result<(), Fail> {
    for (head, part, times, tail, wanted) in LIMITS {
        let found = fault_of(rt.alloc(), head, part, times, tail)?;
        assert_eq!(rt; found, wanted, "{times} parts");
    }
    Ok(())
}
