//! Accepted files, one for each number.
//!
//! A file is built from its last event to its first: what is ahead of an end is then known wherever
//! the end is delegated.
use rand_core::{Rng, SeedableRng};
use rand_pcg::Pcg32;
use sj_base::NoMemory;
use sj_text::{put, put_number};
use std::alloc::Global;

// The statements of a party, and after the first of them one that takes from an end and may come
// earlier than the file's order of events asks.
#[derive(Drop)]
struct Code {
    text: Vec<u8>,
    late: Option<(usize, Vec<u8>)>,
}

// A file whose last events are there. The end of side s of the session n has the number 2n + s.
#[derive(Drop)]
struct Draft {
    alloc: Global,
    dice: Pcg32,
    // Of each end, what is ahead of it: items, each with a dot before it.
    ahead: Vec<Vec<u8>>,
    // Of each end, the number of its party.
    holders: Vec<usize>,
    // Of each party.
    codes: Vec<Code>,
    // The protocols of the ends that are delegated.
    moved: Vec<u8>,
    moves: u64,
}

// What goes over an end: the items of the sender and of the taker, and their statements, in which
// `@` stands for the end.
const MESSAGES: [(&str, &str, &str, &str); 6] = [
    (".!<int>", ".?(int)", "send @ 5; ", "recv @ n int; "),
    (
        ".!<boolean>",
        ".?(boolean)",
        "send @ 1 < 2; ",
        "recv @ t boolean; ",
    ),
    (
        ".!<String>",
        ".?(String)",
        "send @ \"Paris\"; ",
        "recv @ s String; ",
    ),
    (
        ".![!<int>]*",
        ".?[?(int)]*",
        "outwhile @ 3 { send @ 1; } ",
        "inwhile @ { recv @ n int; } ",
    ),
    (
        ".![!<int>.?(int)]*",
        ".?[?(int).!<int>]*",
        "outwhile @ 2 { send @ 1; recv @ n int; } ",
        "inwhile @ { recv @ n int; send @ n + 1; } ",
    ),
    (
        ".!{YES: !<int>, NO:}",
        ".?{YES: ?(int), NO:}",
        "outbranch @ YES; send @ 2; ",
        "inbranch @ { YES: { recv @ n int; } NO: { } } ",
    ),
];

// The file of that number.
pub(crate) fn generated(alloc: Global, number: u64) -> Result<Vec<u8>, NoMemory> {
    let mut draft = Draft::empty(alloc, number)?;
    let events = draft.thrown(14).wrapping_add(6);
    for _ in 0..events {
        if draft.thrown(3) == 0 {
            draft.hand_on()?;
        } else {
            draft.pass()?;
        }
    }
    draft.finished()
}

// The piece, with the name of an end for each `@`.
fn named(alloc: Global, piece: &str, end: usize) -> Result<Vec<u8>, NoMemory> {
    let mut text = Vec::new(alloc);
    for byte in piece.bytes() {
        if byte == b'@' {
            put(&mut text, b"e")?;
            put_number(&mut text, end as u64)?;
        } else {
            text.push(byte)?;
        }
    }
    Ok(text)
}

// Puts the piece before the text.
fn put_before(alloc: Global, text: &mut Vec<u8>, piece: &[u8]) -> Result<(), NoMemory> {
    let mut whole = Vec::from_slice(alloc, piece)?;
    put(&mut whole, text)?;
    *text = whole;
    Ok(())
}

impl Draft {
    // A file in which all ends are closed.
    fn empty(alloc: Global, number: u64) -> Result<Draft, NoMemory> {
        let mut draft = Draft {
            alloc,
            dice: Pcg32::seed_from_u64(number),
            ahead: Vec::new(alloc),
            holders: Vec::new(alloc),
            codes: Vec::new(alloc),
            moved: Vec::new(alloc),
            moves: 0,
        };
        let parties = draft.thrown(5).wrapping_add(2);
        for _ in 0..parties {
            draft.codes.push(Code {
                text: Vec::new(alloc),
                late: None,
            })?;
        }
        let ends = draft.thrown(5).wrapping_add(1).wrapping_mul(2);
        for end in 0..ends {
            let holder = draft.thrown(parties);
            draft.ahead.push(Vec::new(alloc))?;
            draft.holders.push(holder)?;
            draft.put_statement(holder, (end, end), &named(alloc, "close @; ", end)?)?;
        }
        Ok(draft)
    }

    // A number below that one.
    fn thrown(&mut self, many: usize) -> usize {
        self.dice.next_u32() as usize % many.max(1)
    }

    fn holder(&self, end: usize) -> usize {
        self.holders.get(end).copied().unwrap_or(0)
    }

    // Puts a statement that names these ends before those of the party.
    fn put_statement(
        &mut self,
        party: usize,
        ends: (usize, usize),
        words: &[u8],
    ) -> Result<(), NoMemory> {
        let Some(code) = self.codes.get_mut(party) else {
            return Ok(());
        };
        match code.late.take() {
            None => put_before(self.alloc, &mut code.text, words),
            Some((end, late)) if end == ends.0 || end == ends.1 => {
                put_before(self.alloc, &mut code.text, &late)?;
                put_before(self.alloc, &mut code.text, words)
            }
            Some((_, late)) => {
                put_before(self.alloc, &mut code.text, words)?;
                put_before(self.alloc, &mut code.text, &late)
            }
        }
    }

    // The same of a statement that takes from an end, which may come earlier.
    fn put_take(&mut self, party: usize, end: usize, words: Vec<u8>) -> Result<(), NoMemory> {
        let early = self.thrown(3) == 0;
        self.put_statement(party, (end, end), b"")?;
        if !early {
            return self.put_statement(party, (end, end), &words);
        }
        if let Some(code) = self.codes.get_mut(party) {
            code.late = Some((end, words));
        }
        Ok(())
    }

    fn put_item(&mut self, end: usize, item: &[u8]) -> Result<(), NoMemory> {
        match self.ahead.get_mut(end) {
            Some(ahead) => put_before(self.alloc, ahead, item),
            None => Ok(()),
        }
    }

    // Some message goes over some end.
    fn pass(&mut self) -> Result<(), NoMemory> {
        let ends = self.ahead.len();
        let end = self.thrown(ends);
        let other = end ^ 1;
        let at = self.thrown(MESSAGES.len());
        let Some((sent, taken, sends, takes)) = MESSAGES.get(at) else {
            return Ok(());
        };
        let taking = named(self.alloc, takes, other)?;
        self.put_take(self.holder(other), other, taking)?;
        let sending = named(self.alloc, sends, end)?;
        self.put_statement(self.holder(end), (end, end), &sending)?;
        self.put_item(end, sent.as_bytes())?;
        self.put_item(other, taken.as_bytes())
    }

    // Some end comes to its party over another one, where that can be.
    fn hand_on(&mut self) -> Result<(), NoMemory> {
        let ends = self.ahead.len();
        let carrier = self.thrown(ends);
        let end = self.thrown(ends);
        let taker = self.holder(carrier ^ 1);
        if self.moves >= 5 || end / 2 == carrier / 2 || self.holder(end) != taker {
            return Ok(());
        }
        let Some(kind) = self.ahead.get(end).and_then(|ahead| ahead.get(1..)) else {
            return Ok(());
        };
        let kind = Vec::from_slice(self.alloc, kind)?;
        if kind.is_empty() {
            return Ok(());
        }
        let giver = self.holder(carrier);
        let mut taking = named(self.alloc, "recv @ ", carrier ^ 1)?;
        put(&mut taking, &named(self.alloc, "@ session m", end)?)?;
        put_number(&mut taking, self.moves)?;
        put(&mut taking, b"; ")?;
        self.put_statement(taker, (carrier ^ 1, end), &taking)?;
        let mut giving = named(self.alloc, "delegate @ ", carrier)?;
        put(&mut giving, &named(self.alloc, "@; ", end)?)?;
        self.put_statement(giver, (carrier, end), &giving)?;
        self.put_carried(carrier, b".!<", &kind, b">")?;
        self.put_carried(carrier ^ 1, b".?(", &kind, b")")?;
        self.put_moved(&kind)?;
        if let Some(holder) = self.holders.get_mut(end) {
            *holder = giver;
        }
        Ok(())
    }

    // The protocol of an end that is delegated.
    fn put_moved(&mut self, kind: &[u8]) -> Result<(), NoMemory> {
        put(&mut self.moved, b"protocol m")?;
        put_number(&mut self.moved, self.moves)?;
        put(&mut self.moved, b" { begin.")?;
        put(&mut self.moved, kind)?;
        self.moves = self.moves.wrapping_add(1);
        put(&mut self.moved, b" }\n")
    }

    fn put_carried(
        &mut self,
        carrier: usize,
        open: &[u8],
        kind: &[u8],
        close: &[u8],
    ) -> Result<(), NoMemory> {
        let mut item = Vec::from_slice(self.alloc, open)?;
        put(&mut item, kind)?;
        put(&mut item, close)?;
        self.put_item(carrier, &item)
    }

    // The text, with the protocol p and the number of each end.
    fn finished(mut self) -> Result<Vec<u8>, NoMemory> {
        let mut text = Vec::new(self.alloc);
        for (end, ahead) in self.ahead.iter().enumerate() {
            put(&mut text, b"protocol p")?;
            put_number(&mut text, end as u64)?;
            put(&mut text, b" { begin")?;
            put(&mut text, ahead)?;
            put(&mut text, b" }\n")?;
        }
        put(&mut text, &self.moved)?;
        for party in 0..self.codes.len() {
            // What was late is there now.
            self.put_statement(party, (0, 0), b"")?;
            put(&mut text, b"party w")?;
            put_number(&mut text, party as u64)?;
            put(&mut text, b" { ")?;
            if let Some(code) = self.codes.get(party) {
                put(&mut text, &code.text)?;
            }
            put(&mut text, b"}\n")?;
        }
        for (end, holder) in self.holders.iter().enumerate() {
            put(
                &mut text,
                if end % 2 == 0 { b"connect w" } else { b" to w" },
            )?;
            put_number(&mut text, *holder as u64)?;
            put(&mut text, &named(self.alloc, " @ p", end)?)?;
            put_number(&mut text, end as u64)?;
            put(&mut text, if end % 2 == 0 { b"" } else { b";\n" })?;
        }
        Ok(text)
    }
}
