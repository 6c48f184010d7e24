//! Words that name parties.
use crate::party_named;
use sj_party::parse_file;
use std::test::Fail;

const FILE: &[u8] = b"party a { }\nparty b { }\n";

const NAMED: [(&[u8], Option<u16>); 7] = [
    (b"a", Some(0)),
    (b"b", Some(1)),
    (b"1", Some(1)),
    (b"2", None),
    (b"01", None),
    (b"15", None),
    (b"c", None),
];

#[test]
fn a_word_names_a_party_or_is_its_number(rt: HostRuntime) -> Result<(), Fail> {
    let file = parse_file(rt.alloc(), FILE)?;
    for (word, party) in NAMED {
        assert_eq!(rt; party_named(&file, word), party, "{word:?}");
    }
    Ok(())
}
