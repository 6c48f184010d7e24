//! What stands at a server: texts under their keys, and streams of numbered entries.

use sj_base::NoMemory;
use sj_grammar::is;
use std::alloc::Global;

/// A text under its key.
#[derive(Drop)]
pub(crate) struct Text {
    pub key: Vec<u8>,
    pub text: Vec<u8>,
}

/// An entry of a stream: its number, and its words.
#[derive(Drop)]
pub(crate) struct Entry {
    pub number: u64,
    pub words: Vec<Vec<u8>>,
}

/// The entries under a key, with rising numbers.
#[derive(Drop)]
pub(crate) struct Stream {
    pub key: Vec<u8>,
    pub entries: Vec<Entry>,
}

/// All that stands.
#[derive(Drop)]
pub(crate) struct Standing {
    alloc: Global,
    texts: Vec<Text>,
    streams: Vec<Stream>,
}

impl Standing {
    /// Nothing stands.
    pub(crate) fn new(alloc: Global) -> Standing {
        Standing {
            alloc,
            texts: Vec::new(alloc),
            streams: Vec::new(alloc),
        }
    }

    /// The text under that key.
    pub(crate) fn text(&self, key: &[u8]) -> Option<&[u8]> {
        for text in &self.texts {
            if is(&text.key, key) {
                return Some(&text.text);
            }
        }
        None
    }

    /// Puts a text under the key, unless there is one. Answers whether it did.
    pub(crate) fn share(&mut self, key: &[u8], text: &[u8]) -> Result<bool, NoMemory> {
        if self.text(key).is_some() {
            return Ok(false);
        }
        let key = Vec::from_slice(self.alloc, key)?;
        let text = Vec::from_slice(self.alloc, text)?;
        self.texts.push(Text { key, text })?;
        Ok(true)
    }

    /// Where the stream under that key is, or how many there are.
    fn place(&self, key: &[u8]) -> usize {
        for (at, stream) in self.streams.iter().enumerate() {
            if is(&stream.key, key) {
                return at;
            }
        }
        self.streams.len()
    }

    /// The entries under that key; none where there is no stream.
    pub(crate) fn entries(&self, key: &[u8]) -> &[Entry] {
        match self.streams.get(self.place(key)) {
            Some(stream) => &stream.entries,
            None => &[],
        }
    }

    /// The number of the last entry under that key.
    fn last(&self, key: &[u8]) -> u64 {
        match self.entries(key).last() {
            Some(entry) => entry.number,
            None => 0,
        }
    }

    /// A stream under that key, without entries.
    fn open(&mut self, key: &[u8]) -> Result<(), NoMemory> {
        let key = Vec::from_slice(self.alloc, key)?;
        let entries = Vec::new(self.alloc);
        self.streams.push(Stream { key, entries })?;
        Ok(())
    }

    /// Adds an entry under the key where its number is above the last one. Answers whether it did.
    pub(crate) fn add(
        &mut self,
        key: &[u8],
        number: u64,
        words: Vec<Vec<u8>>,
    ) -> Result<bool, NoMemory> {
        if number <= self.last(key) {
            return Ok(false);
        }
        let at = self.place(key);
        if at == self.streams.len() {
            self.open(key)?;
        }
        match self.streams.get_mut(at) {
            Some(stream) => stream.entries.push(Entry { number, words })?,
            None => return Ok(false),
        }
        Ok(true)
    }
}
