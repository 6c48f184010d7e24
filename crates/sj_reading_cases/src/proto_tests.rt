//! A protocol, protocols with which a text begins, and tokens.

use sj_lang::Names;
use sj_proto::{Tokens, What, parse_protocol, parse_protocols, print_protocol};
use std::test::Fail;

const BODY: &[u8] = b"begin.![?{A: !<![?(boolean)]*>, B:}.?[!{B: ?(!{A:})}]*]*.?(String)";

#[test]
fn a_protocol_is_printed_as_it_was_read(rt: HostRuntime) -> Result<(), Fail> {
    let mut names = Names::new(rt.alloc());
    let p = parse_protocol(rt.alloc(), BODY, &mut names)?;
    let mut text = Vec::new(rt.alloc());
    print_protocol(&mut text, &names, &p)?;
    assert_eq!(rt; text.as_slice(), BODY);
    Ok(())
}

#[test]
fn protocols_stand_at_the_front(rt: HostRuntime) -> Result<(), Fail> {
    let mut names = Names::new(rt.alloc());
    let mut tokens = Tokens::over(b"protocol p { begin }\nprotocol q { begin }\nparty a { }");
    let list = parse_protocols(rt.alloc(), &mut tokens, &mut names)?;
    let last = list.last().ok_or("none")?;
    assert_eq!(rt; (list.len(), last.line, last.name), (2, 2, 1));
    assert!(rt; tokens.sees(b"party"));
    Ok(())
}

#[test]
fn tokens_come_one_after_the_other_and_then_the_end(rt: HostRuntime) -> Result<(), Fail> {
    let mut tokens = Tokens::over(b" <= \"3 May\" 907 // to the end");
    for (what, from, to) in [
        (What::Symbol, 1, 3),
        (What::Text, 4, 11),
        (What::Number(907), 12, 15),
        (What::End, 29, 29),
        (What::End, 29, 29),
    ] {
        let token = tokens.next().ok().ok_or("refused")?;
        assert_eq!(rt; (token.what, token.from, token.to), (what, from, to));
    }
    Ok(())
}
