//! A server in memory, which takes one command after another.

use crate::link::{Deed, Link};
use crate::replies::{put_came, put_name};
use crate::standing::Standing;
use crate::words::{number_in, word, word_count, words_from, words_of};
use sj_base::NoMemory;
use sj_grammar::is;
use sj_resp::{Token, put_word};
use sj_text::put;
use std::alloc::Global;
use std::collections::VecDeque;

const NOAUTH: &[u8] = b"-NOAUTH Authentication required.\r\n";

const WRONGPASS: &[u8] = b"-WRONGPASS invalid username-password pair or user is disabled.\r\n";

const NO_PASSWORD: &[u8] =
    b"-ERR AUTH <password> called without any password configured for the default user. Are you sure your configuration is correct?\r\n";

const OOM: &[u8] = b"-OOM command not allowed when used memory > 'maxmemory'.\r\n";

const LATE: &[u8] =
    b"-ERR The ID specified in XADD is equal or smaller than the target stream top item\r\n";

const UNKNOWN: &[u8] = b"-ERR unknown command\r\n";

/// What stands, and the one connection.
#[derive(Drop)]
pub(crate) struct Server {
    alloc: Global,
    pub standing: Standing,
    password: Option<&'static [u8]>,
    link: Link,
}

impl Server {
    /// A server at which nothing stands.
    pub(crate) fn new(alloc: Global, password: Option<&'static [u8]>) -> Server {
        Server {
            alloc,
            standing: Standing::new(alloc),
            password,
            link: Link::new(alloc, None),
        }
    }

    /// A new connection, on which that happens. What came on the last one is lost.
    pub(crate) fn connect(&mut self, due: Option<(u64, Deed)>) {
        self.link = Link::new(self.alloc, due);
    }

    /// Takes bytes that come, and answers each command that is whole then.
    pub(crate) fn take(&mut self, piece: &[u8]) -> Result<(), NoMemory> {
        self.link.hear(piece)?;
        for _ in 0..u64::MAX {
            match self.link.next(self.alloc)? {
                Some(command) => self.run(&command)?,
                None => return Ok(()),
            }
        }
        Ok(())
    }

    /// Gives bytes that are to go out, and answers how many.
    pub(crate) fn give(&mut self, buf: &mut [u8]) -> usize {
        self.link.give(buf)
    }

    /// Does a command, with what else happens then.
    fn run(&mut self, command: &VecDeque<Token>) -> Result<(), NoMemory> {
        if self.link.is_cut {
            return Ok(());
        }
        match self.link.deed() {
            Some(Deed::Says(text)) => put(&mut self.link.out, text),
            Some(Deed::Cuts(most)) => self.cut(command, most),
            Some(deed) => {
                self.happen(deed)?;
                self.answer(command)
            }
            None => self.answer(command),
        }
    }

    /// Does a command, and ends the connection after so many bytes of the reply.
    fn cut(&mut self, command: &VecDeque<Token>, most: usize) -> Result<(), NoMemory> {
        let before = self.link.out.len();
        self.answer(command)?;
        self.link.out.truncate(before.saturating_add(most));
        self.link.is_cut = true;
        Ok(())
    }

    /// What others do before a command.
    fn happen(&mut self, deed: Deed) -> Result<(), NoMemory> {
        match deed {
            Deed::Adds { key, number, words } => self.note(key, number, words),
            Deed::Shares(text) => {
                self.standing.share(b"sj:{r}:file", text)?;
                Ok(())
            }
            _ => {
                self.link.is_full = true;
                Ok(())
            }
        }
    }

    /// Another process adds an entry.
    fn note(&mut self, key: &[u8], number: u64, words: &[&[u8]]) -> Result<(), NoMemory> {
        let words = words_of(self.alloc, words)?;
        self.standing.add(key, number, words)?;
        Ok(())
    }

    /// The reply to a command.
    fn answer(&mut self, command: &VecDeque<Token>) -> Result<(), NoMemory> {
        let name = word(command, 0);
        if is(name, b"AUTH") {
            return self.sign_in(command);
        }
        if self.password.is_some() && !self.link.signed {
            return put(&mut self.link.out, NOAUTH);
        }
        if is(name, b"GET") {
            return self.get(command);
        }
        if is(name, b"XREAD") {
            return put_came(&mut self.link.out, &self.standing, command);
        }
        if self.link.is_full {
            return put(&mut self.link.out, OOM);
        }
        if is(name, b"SETNX") {
            return self.share(command);
        }
        if is(name, b"XADD") {
            return self.add(command);
        }
        put(&mut self.link.out, UNKNOWN)
    }

    /// `AUTH`, with a user or without.
    fn sign_in(&mut self, command: &VecDeque<Token>) -> Result<(), NoMemory> {
        let Some(password) = self.password else {
            return put(&mut self.link.out, NO_PASSWORD);
        };
        let count = word_count(command);
        let is_known = count < 3 || is(word(command, 1), b"default");
        self.link.signed = is_known && is(word(command, count.saturating_sub(1)), password);
        let reply: &[u8] = if self.link.signed {
            b"+OK\r\n"
        } else {
            WRONGPASS
        };
        put(&mut self.link.out, reply)
    }

    /// `GET`.
    fn get(&mut self, command: &VecDeque<Token>) -> Result<(), NoMemory> {
        match self.standing.text(word(command, 1)) {
            Some(text) => put_word(&mut self.link.out, text),
            None => put(&mut self.link.out, b"$-1\r\n"),
        }
    }

    /// `SETNX`.
    fn share(&mut self, command: &VecDeque<Token>) -> Result<(), NoMemory> {
        let is_new = self.standing.share(word(command, 1), word(command, 2))?;
        let reply: &[u8] = if is_new { b":1\r\n" } else { b":0\r\n" };
        put(&mut self.link.out, reply)
    }

    /// `XADD`, with the number of the entry.
    fn add(&mut self, command: &VecDeque<Token>) -> Result<(), NoMemory> {
        let number = number_in(word(command, 2));
        let fields = words_from(self.alloc, command, 3)?;
        if self.standing.add(word(command, 1), number, fields)? {
            put_name(&mut self.link.out, number)
        } else {
            put(&mut self.link.out, LATE)
        }
    }
}
