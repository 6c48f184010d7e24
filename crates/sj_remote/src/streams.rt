//! The streams of a run, and how far each was read.
ghost use Rattle.std.specs.Prelude.{◌≡◌, ◌<◌, ◌+◌, ◌^◌, ◌++◌, [], get_or, length, set};
ghost use Rattle.std.specs.Prelude.{vec_items, vec_len, IfOk, OnErr, OnOk};
ghost use Rattle.sj_remote.specs.Numbers.{AreUnseen, IsFew, IsNoNumber};
ghost use Rattle.sj_resp.specs.Spelling.{command_text};
ghost use Rattle.sj_streams.specs.Commands.{read_words};
ghost use Rattle.sj_streams.specs.Words.{words_at};

use sj_base::NoMemory;
use sj_streams::{log_key, put_read};
use std::alloc::Global;

/// The most entries of each stream that one read brings.
const PIECE: u64 = 512;

/// The highest number of an entry.
const LAST: u64 = 4_611_686_018_427_387_904;

/// There is no such stream, or no further number.
#[derive(Clone, Copy, Debug, PartialEq, Eq)]
pub struct NoNumber;

/// The streams of all parties, and the number of the last entry that was seen of each.
#[derive(Drop)]
pub struct Streams {
    pub(crate) keys: Vec<Vec<u8>>,
    pub(crate) seen: Vec<u64>,
    ghost same: { vec_len seen ≡ vec_len keys },
    ghost count: { vec_len keys < 2 ^ 16 },
    ghost few: { IsFew (vec_items seen) },
}

impl Streams {
    ghost use Rattle.sj_remote.specs.Streams.{keys_of, log_keys, seen_of};

    /// The streams of the parties of a run, of which nothing was seen.
    #[tactic(auto, using(crate::proofs::StreamLemmas::made))]
    pub fn new(alloc: Global, run: &[u8], parties: u16) -> Result<Streams, NoMemory>
        ensures keys { IfOk result (λ s. words_at (keys_of s) ≡ log_keys run.now parties) }
        ensures seen { IfOk result (λ s. AreUnseen (seen_of s)) }
    {
        let mut keys = Vec::new(alloc);
        let mut seen = Vec::new(alloc);
        for party in 0..parties {
            keys.push(log_key(alloc, run, party)?)?;
            seen.push(0)?;
        }
        Ok(Streams { keys, seen })
    }

    /// How many streams there are.
    pub fn count(&self) -> usize
        ensures { result ≡ length (keys_of self.now) }
    {
        self.keys.len()
    }

    /// The number of the last entry that was seen of that stream.
    pub fn last(&self, stream: usize) -> u64
        ensures last { result ≡ get_or (seen_of self.now) stream 0 }
        ensures few { result + 1 < 2 ^ 63 }
    {
        if stream < self.seen.len() {
            self.seen[stream]
        } else {
            0
        }
    }

    /// The key of that stream.
    pub fn key(&self, stream: usize) -> &[u8]
        requires { stream < length (keys_of self.now) }
        ensures { result.now ≡ get_or (words_at (keys_of self.now)) stream [] }
    {
        &self.keys[stream]
    }

    /// Notes that so many more entries were seen of that stream, or were added to it. A refusal
    /// changes nothing: there is no such stream, or its numbers would end.
    pub fn see(&mut self, stream: usize, more: usize) -> Result<(), NoNumber>
        ensures keys { keys_of self.new ≡ keys_of self.old }
        ensures seen { OnOk result (seen_of self.new
            ≡ set (seen_of self.old) stream (get_or (seen_of self.old) stream 0 + more)) }
        ensures err { OnErr result (seen_of self.new ≡ seen_of self.old) }
        ensures cause { OnErr result (IsNoNumber (seen_of self.old) stream more) }
    {
        if stream >= self.seen.len() {
            return Err(NoNumber);
        }
        let last = self.seen[stream];
        if last >= LAST || more as u64 >= LAST - last {
            return Err(NoNumber);
        }
        self.seen[stream] = last + more as u64;
        Ok(())
    }

    /// Appends the command that reads what comes after what was seen. With `block` the server waits
    /// so many milliseconds until something comes.
    pub fn put_read(&self, text: &mut Vec<u8>, block: Option<u64>) -> Result<(), NoMemory>
        ensures { OnOk result (text.new.items ≡ text.old.items
            ++ command_text (read_words 512 block (words_at (keys_of self.now))
            (seen_of self.now))) }
    {
        put_read(text, PIECE, block, &self.keys, &self.seen)
    }
}
