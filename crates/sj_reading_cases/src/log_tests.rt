//! Logs that are read, and what is no log.
use sj_base::{EndId, Msg};
use sj_end::{Entry, Event, Line, Note};
use sj_lang::{File, Names, Party};
use sj_log::{LogRefusal, parted, read_log};
use std::alloc::Global;
use std::test::Fail;

// A file of one party, `a`.
fn one_party(alloc: Global) -> Result<File, Fail> {
    let mut names = Names::new(alloc);
    names.words.add(b"a")?;
    let party = Party {
        line: 1,
        name: 0,
        body: Vec::new(alloc),
    };
    Ok(File {
        names,
        protocols: Vec::new(alloc),
        parties: vec![in alloc; party]?,
        connects: Vec::new(alloc),
    })
}

const END: EndId = EndId { sess: 4, side: 1 };

#[test]
fn an_act_and_a_delivery_are_read(rt: HostRuntime) -> Result<(), Fail> {
    let text = b"3 a take 4.1 more\n5 a from a claim 4.1\n";
    let took = Entry {
        clock: 3,
        event: Event::Act,
        note: Note::Took {
            end: END,
            msg: Msg::More(true),
        },
    };
    let came = Entry {
        clock: 5,
        event: Event::Deliver(0),
        note: Note::Claim { of: END },
    };
    let wanted = [took, came].map(|entry| Line { party: 0, entry });
    let lines = read_log(rt.alloc(), text, &one_party(rt.alloc())?, 1)?;
    assert_eq!(rt; lines.as_slice(), wanted.as_slice());
    Ok(())
}

#[test]
fn a_log_of_version_2_tells_of_openings(rt: HostRuntime) -> Result<(), Fail> {
    let text = b"1 a request 64 a\n2 a from a open 64\n3 a accept 64 a\n";
    let requested = Entry {
        clock: 1,
        event: Event::Act,
        note: Note::Request { sess: 64, to: 0 },
    };
    let came = Entry {
        clock: 2,
        event: Event::Deliver(0),
        note: Note::Open { sess: 64 },
    };
    let accepted = Entry {
        clock: 3,
        event: Event::Act,
        note: Note::Accept { sess: 64, from: 0 },
    };
    let wanted = [requested, came, accepted].map(|entry| Line { party: 0, entry });
    let lines = read_log(rt.alloc(), text, &one_party(rt.alloc())?, 2)?;
    assert_eq!(rt; lines.as_slice(), wanted.as_slice());
    Ok(())
}

// The refusal of the text as a log of one party, in that version.
fn refusal_of(alloc: Global, text: &str, version: u8) -> Result<Option<LogRefusal>, Fail> {
    if text.len() > 100 {
        return Err(Fail::from("too long"));
    }
    if version != 1 && version != 2 {
        return Err(Fail::from("no version"));
    }
    let file = one_party(alloc)?;
    Ok(read_log(alloc, text.as_bytes(), &file, version).err())
}

#[test]
fn a_line_without_its_newline_is_told_as_such(rt: HostRuntime) -> Result<(), Fail> {
    for (text, rule, line) in [
        ("1 a local", 4, 1),
        ("1 a local\n01 e x", 4, 2),
        ("1 e local\n1 a local", 2, 1),
    ] {
        let refusal = refusal_of(rt.alloc(), text, 1)?;
        assert_eq!(rt; refusal, Some(LogRefusal::At { rule, line }), "{text}");
    }
    Ok(())
}

#[test]
fn openings_are_no_form_of_version_1(rt: HostRuntime) -> Result<(), Fail> {
    for (text, version, rule) in [
        ("1 a request 64 a\n", 1, 1),
        ("1 a request 064 a\n", 1, 1),
        ("1 a request 064 a\n", 2, 3),
        ("1 a request 64 e\n", 2, 2),
        ("1 a accept 64 a\n", 1, 1),
        ("1 a accept 64\n", 2, 1),
        ("1 a from a open 64\n", 1, 1),
        ("1 a from a open 64.1\n", 2, 1),
    ] {
        let refusal = refusal_of(rt.alloc(), text, version)?;
        assert_eq!(rt; refusal, Some(LogRefusal::At { rule, line: 1 }), "{text}");
    }
    Ok(())
}

#[test]
fn the_first_line_that_is_a_mark_parts(rt: HostRuntime) {
    let rows: [(&[u8], Option<(&[u8], u8, &[u8])>); 10] = [
        (b"", None),
        (b"%%log", None),
        (b"%%log\n", Some((b"", 1, b""))),
        (b"%%log2\n", Some((b"", 2, b""))),
        (b"a\n%%log3\n", None),
        (b"a%%log\nb\n", None),
        (b"a\n%%log \nb\n", None),
        (b"a\n%%log\r\nb\n", None),
        (b"a\n%%log2\n%%log\nb", Some((b"a\n", 2, b"%%log\nb"))),
        (
            b"a\n%%log\nb\n%%log2\nc\n",
            Some((b"a\n", 1, b"b\n%%log2\nc\n")),
        ),
    ];
    for (source, parts) in rows {
        assert_eq!(rt; parted(source), parts, "{source:?}");
    }
}
