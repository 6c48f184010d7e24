//! The texts of a run, each under its number.
ghost use Rattle.std.specs.Prelude.{◌≡◌, [], ◌∷◌, ◌++◌, IfOk, List, OnErr, OnOk, length, nat_lt, slice_get, take, if◌then◌else◌, ℕ};
ghost use Rattle.std.specs.Option.{option_copied};
ghost use Rattle.sj_lang.specs.Words.{IsFirstIndex};
ghost use Rattle.sj_seat_texts.specs.Once.{IsEachOnce, with_words};

use sj_base::NoMemory;
use sj_lang::Words;
use std::alloc::Global;
use std::marker::Model;

/// How many texts a message can name.
const MOST_TEXTS: usize = 1 << 32;

/// The texts of a run: those of its file under their numbers there, and after them those that codes
/// add, in the order in which they come. Each stands once, so texts that are spelled alike have one
/// number. Contracts see them as their list.
#[derive(Drop)]
pub struct Texts {
    all: Words,
    count: usize,
}

impl Model for Texts {
    ghost use Rattle.std.specs.Prelude.{ℕ, List, ◌≡◌, ◌≤◌, ◌^◌, length};
    ghost use Rattle.sj_seat_texts.specs.Once.{IsEachOnce, IsCounted};

    ghost Value = { List (List ℕ) };

    ghost view = { λ t. t.all };

    ghost invariant = { λ t. IsCounted t.all t.count };
}

impl Texts {
    /// So many texts a message can name: enough for whatever a run adds.
    pub const MOST: usize = MOST_TEXTS;

    /// The texts of the file, and none beside them. The table of a file that was read has each text
    /// once; of another table each text stands where it comes first.
    pub fn of(alloc: Global, file: &Words) -> Result<Texts, NoMemory>
        ensures file { IfOk result (λ t. IsEachOnce file.now → t ≡ file.now) }
    {
        let mut texts = empty(alloc);
        for n in 0..MOST_TEXTS {
            let Some(text) = file.get(n) else {
                return Ok(texts);
            };
            let _ = texts.number(text)?;
        }
        // So many texts want more memory than there is.
        Err(NoMemory)
    }

    /// The text of that number.
    pub fn get(&self, number: u32) -> Option<&[u8]>
        ensures { option_copied result ≡ slice_get self.now number }
    {
        self.all.get(number as usize)
    }

    /// The number of the text, which is put after the others where it isn't there yet. A text that is
    /// one too many for the numbers of texts counts as out of memory.
    pub fn number(&mut self, text: &[u8]) -> Result<u32, NoMemory>
        // It stands for the text, wherever it was asked for before.
        ensures number { IfOk result (IsFirstIndex text.now self.new) }

        // Those before keep their numbers.
        ensures kept { IfOk result (λ n. self.new
            ≡ (if nat_lt n (length self.old) then self.old else self.old ++ text.now ∷ [])) }
        ensures err { OnErr result (self.new ≡ self.old) }
    {
        if let Some(n) = self.all.find(text) {
            return Ok(n as u32);
        }
        if self.count >= MOST_TEXTS {
            return Err(NoMemory);
        }
        let n = self.all.add(text)?;
        self.count += 1;
        Ok(n as u32)
    }

    /// The table of all texts.
    pub fn into_words(self) -> Words
        ensures { result ≡ self }
    {
        self.all
    }

    /// Puts the texts after those of a table, but those that are there. In a table that has the first
    /// of them, as that of the file has, each number stands for its text then. Out of memory, the
    /// first of them may be there.
    pub fn add_to(&self, table: &mut Words) -> Result<(), NoMemory>
        ensures ok { OnOk result (table.new ≡ with_words table.old self.now) }
        ensures file { OnOk result ((more : List (List ℕ)) →
            self.now ≡ table.old ++ more → table.new ≡ self.now) }
        ensures err { OnErr result ((n : ℕ) × (table.new ≡ with_words table.old (take n self.now))) }
    {
        for n in 0..self.count {
            if let Some(text) = self.all.get(n) {
                table.add(text)?;
            }
        }
        Ok(())
    }
}

fn empty(alloc: Global) -> Texts
    ensures { result ≡ [] }
{
    Texts {
        all: Words::new(alloc),
        count: 0,
    }
}
