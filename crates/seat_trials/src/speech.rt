//! Calls as lines of a talk, which plays a party in the plain world.

use crate::deed::Deed;
use crate::ends::is_first_holder;
use crate::said::{end_gone, end_in};
use crate::wild::Asked;
use sj_base::{EndId, Msg, NoMemory};
use sj_lang::File;
use sj_seat::Wish;
use sj_seat_run::Outcome;
use sj_text::{put, put_int, put_number};
use std::alloc::Global;

/// The party of a file whose calls are put, and the ends that it took.
#[derive(Drop)]
pub(crate) struct Speaker<'a> {
    file: &'a File,
    party: u16,
    came: Vec<EndId>,
}

impl<'a> Speaker<'a> {
    /// One that took nothing.
    pub fn new(alloc: Global, file: &'a File, party: u16) -> Speaker<'a> {
        Speaker {
            file,
            party,
            came: Vec::new(alloc),
        }
    }

    // The name of the end. One that came has its numbers in it. One that the party never had has a
    // name that stands for none.
    fn put_end(&self, line: &mut Vec<u8>, end: EndId) -> Result<(), NoMemory> {
        if self.came.contains(&end) {
            return put_came(line, end);
        }
        if !is_first_holder(self.file, self.party, end) || end.side > 1 {
            return put(line, b"nowhere");
        }
        match self.file.connects.get(end.sess as usize) {
            Some(connect) if end.side == 0 => self.put_word(line, connect.first.name),
            Some(connect) => self.put_word(line, connect.second.name),
            None => put(line, b"nowhere"),
        }
    }

    fn put_word(&self, line: &mut Vec<u8>, word: u16) -> Result<(), NoMemory> {
        match self.file.names.words.get(usize::from(word)) {
            Some(word) => put(line, word),
            None => Ok(()),
        }
    }

    // A verb, and an end.
    fn put_use(&self, line: &mut Vec<u8>, verb: &[u8], end: EndId) -> Result<(), NoMemory> {
        put(line, verb)?;
        put(line, b" ")?;
        self.put_end(line, end)
    }

    // What is sent, after its end. Answers whether a line can say so.
    fn put_sending(&self, line: &mut Vec<u8>, end: EndId, msg: Msg) -> Result<bool, NoMemory> {
        match msg {
            Msg::Int(number) => {
                self.put_use(line, b"send", end)?;
                put(line, b" ")?;
                put_int(line, number)?;
            }
            Msg::Bool(value) => {
                self.put_use(line, b"send", end)?;
                put(line, if value { b" true" } else { b" false" })?;
            }
            Msg::Text(number) => return self.put_text(line, end, number),
            Msg::Label(label) => {
                self.put_use(line, b"select", end)?;
                put(line, b" ")?;
                self.put_word(line, label)?;
                return Ok(self.file.names.words.get(usize::from(label)).is_some());
            }
            Msg::More(more) => self.put_use(line, if more { b"more" } else { b"stop" }, end)?,
            Msg::Sess { .. } => return Ok(false),
        }
        Ok(true)
    }

    fn put_text(&self, line: &mut Vec<u8>, end: EndId, number: u32) -> Result<bool, NoMemory> {
        let Some(text) = self.file.names.texts.get(number as usize) else {
            return Ok(false);
        };
        self.put_use(line, b"send", end)?;
        put(line, b" \"")?;
        put(line, text)?;
        put(line, b"\"")?;
        Ok(true)
    }

    /// Puts the line of the call. Answers whether a line can say so. A take from either of two ends is
    /// said where it is done.
    pub fn put_call(&self, line: &mut Vec<u8>, asked: Asked) -> Result<bool, NoMemory> {
        match (asked.deed, asked.answer) {
            (Deed::Step(wish), _) => self.put_step(line, wish, asked),
            (Deed::Either(..), Ok(Outcome::Took { end, .. })) => {
                self.put_use(line, b"take", end)?;
                Ok(true)
            }
            _ => Ok(false),
        }
    }

    fn put_step(&self, line: &mut Vec<u8>, wish: Wish, asked: Asked) -> Result<bool, NoMemory> {
        match wish {
            Wish::Send { end, msg } => return self.put_sending(line, end, msg),
            Wish::Delegate { carrier, end } => {
                self.put_use(line, b"delegate", carrier)?;
                put(line, b" ")?;
                self.put_end(line, end)?;
            }
            Wish::Take { end } => self.put_use(line, b"take", end)?,
            Wish::TakeEnd { end } => {
                self.put_use(line, b"take", end)?;
                put(line, b" ")?;
                match end_in(asked) {
                    Some(end) => put_came(line, end)?,
                    None => put(line, b"fresh")?,
                }
            }
            Wish::Close { end } => self.put_use(line, b"close", end)?,
        }
        Ok(true)
    }

    /// What came and what went by the call.
    pub fn go_on(&mut self, asked: Asked) -> Result<(), NoMemory> {
        if let Some(end) = end_in(asked) {
            self.came.push(end)?;
        }
        if let Some(end) = end_gone(asked) {
            forget(&mut self.came, end);
        }
        Ok(())
    }
}

fn forget(ends: &mut Vec<EndId>, end: EndId) {
    ends.retain(|other| *other != end);
}

// The name of an end that came.
fn put_came(line: &mut Vec<u8>, end: EndId) -> Result<(), NoMemory> {
    put(line, b"came_")?;
    put_number(line, u64::from(end.sess))?;
    put(line, b"_")?;
    put_number(line, u64::from(end.side))
}
