//! A transcript and a line of a log.
use sj_base::{EndId, Msg};
use sj_check::{Accepted, check, is_within_limits};
use sj_end::{Entry, Event, Line, Note};
use sj_lang::{File, Names, Party};
use sj_plain::Plain;
use sj_print::{print_line, print_mark, print_transcript};
use std::alloc::Global;
use std::test::Fail;

// A file of one party, `a`, without statements.
fn one_party(alloc: Global) -> Result<File, Fail> {
    let mut names = Names::new(alloc);
    names.words.add(b"a")?;
    let party = Party {
        line: 1,
        name: 0,
        body: Vec::new(alloc),
    };
    Ok(File {
        names,
        protocols: Vec::new(alloc),
        parties: vec![in alloc; party]?,
        connects: Vec::new(alloc),
    })
}

fn accepted(alloc: Global) -> Result<Accepted, Fail> {
    let file = one_party(alloc)?;
    if !is_within_limits(&file) {
        return Err(Fail::from("too large"));
    }
    check(alloc, file).map_err(|_| Fail::from("refused"))
}

#[test]
fn a_transcript_is_printed_behind_what_is_there(rt: HostRuntime) -> Result<(), Fail> {
    let accepted = accepted(rt.alloc())?;
    let plain = Plain::start(rt.alloc(), &accepted)?;
    let mut text = Vec::from_slice(rt.alloc(), b"> ")?;
    print_transcript(&mut text, accepted.file(), &plain)?;
    assert_eq!(rt; text.as_slice(), b"> party a ended 0\ndone\n".as_slice());
    Ok(())
}

// What is printed of acts of the one party with these notes, after the line before a log of them.
fn printed(alloc: Global, notes: &[Note]) -> Result<Vec<u8>, Fail> {
    let file = one_party(alloc)?;
    let mut lines = Vec::new(alloc);
    for note in notes {
        let entry = Entry {
            clock: 1,
            event: Event::Act,
            note: *note,
        };
        lines.push(Line { party: 0, entry })?;
    }
    let mut text = Vec::new(alloc);
    print_mark(&mut text, &lines)?;
    for line in &lines {
        print_line(&mut text, &file, line)?;
    }
    Ok(text)
}

#[test]
fn openings_make_a_log_of_version_2(rt: HostRuntime) -> Result<(), Fail> {
    let rows: [(&[Note], &[u8]); 5] = [
        (&[], b"%%log\n"),
        (&[Note::Local], b"%%log\n1 a local\n"),
        (
            &[Note::Local, Note::Request { sess: 64, to: 0 }],
            b"%%log2\n1 a local\n1 a request 64 a\n",
        ),
        (
            &[Note::Accept { sess: 64, from: 0 }],
            b"%%log2\n1 a accept 64 a\n",
        ),
        (&[Note::Open { sess: 64 }], b"%%log2\n1 a open 64\n"),
    ];
    for (notes, wanted) in rows {
        let text = printed(rt.alloc(), notes)?;
        assert_eq!(rt; text.as_slice(), wanted);
    }
    Ok(())
}

#[test]
fn a_line_is_printed_behind_what_is_there(rt: HostRuntime) -> Result<(), Fail> {
    let note = Note::Sent {
        end: EndId { sess: 0, side: 1 },
        msg: Msg::Int(i64::MIN),
    };
    let event = Event::Act;
    let entry = Entry {
        clock: 3,
        event,
        note,
    };
    let mut text = Vec::from_slice(rt.alloc(), b"> ")?;
    print_line(
        &mut text,
        &one_party(rt.alloc())?,
        &Line { party: 0, entry },
    )?;
    let wanted = b"> 3 a send 0.1 int -9223372036854775808\n";
    assert_eq!(rt; text.as_slice(), wanted.as_slice());
    Ok(())
}
