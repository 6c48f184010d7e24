//! A connection, as the server has it.

use sj_base::NoMemory;
use sj_resp::{Token, TokenDecoder};
use sj_streams::Reply;
use std::alloc::Global;
use std::collections::VecDeque;

/// What else happens when a command comes.
#[derive(Clone, Copy)]
pub(crate) enum Deed {
    /// Another process adds an entry before it.
    Adds {
        key: &'static [u8],
        number: u64,
        words: &'static [&'static [u8]],
    },
    /// Another process leaves this text as the run's file before it.
    Shares(&'static [u8]),
    /// From it on the memory is full.
    Fills,
    /// These bytes come in place of its reply.
    Says(&'static [u8]),
    /// So many bytes of its reply come, and then the end.
    Cuts(usize),
}

/// A connection, as the server has it.
#[derive(Drop)]
pub(crate) struct Link {
    /// What happens at the command of that number, counted on the connection from 0.
    due: Option<(u64, Deed)>,
    commands: u64,
    pub is_full: bool,
    pub signed: bool,
    pub is_cut: bool,
    decoder: TokenDecoder,
    coming: Reply,
    pub out: Vec<u8>,
}

impl Link {
    /// A new connection, on which that happens.
    pub(crate) fn new(alloc: Global, due: Option<(u64, Deed)>) -> Link {
        Link {
            due,
            commands: 0,
            is_full: false,
            signed: false,
            is_cut: false,
            decoder: TokenDecoder::new(alloc),
            coming: Reply::new(alloc),
            out: Vec::new(alloc),
        }
    }

    /// Takes bytes that come.
    pub(crate) fn hear(&mut self, piece: &[u8]) -> Result<(), NoMemory> {
        self.decoder.feed(piece)?;
        Ok(())
    }

    /// The next command that is whole.
    pub(crate) fn next(&mut self, alloc: Global) -> Result<Option<VecDeque<Token>>, NoMemory> {
        match self.coming.gather(&mut self.decoder) {
            Ok(true) => Ok(Some(self.taken(alloc))),
            Ok(false) => Ok(None),
            Err(_) => Err(NoMemory),
        }
    }

    /// The command that came.
    fn taken(&mut self, alloc: Global) -> VecDeque<Token> {
        std::mem::replace(&mut self.coming, Reply::new(alloc)).into_tokens()
    }

    /// Counts a command. Answers what else happens then.
    pub(crate) fn deed(&mut self) -> Option<Deed> {
        let number = self.commands;
        self.commands = number.saturating_add(1);
        match self.due {
            Some((at, deed)) => { if at == number { Some(deed) } else { None } }
            None => None,
        }
    }

    /// Gives bytes that are to go out, and answers how many.
    pub(crate) fn give(&mut self, buf: &mut [u8]) -> usize {
        let n = buf.len().min(self.out.len());
        buf[..n].copy_from_slice(&self.out[..n]);
        let left = self.out.len() - n;
        self.out.copy_within(n.., 0);
        self.out.truncate(left);
        n
    }
}
