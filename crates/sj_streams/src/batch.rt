//! The words of an entry: the lines of a batch of events, and the frames for each party that is sent some.
ghost use Rattle.std.specs.Prelude.{◌≡◌, ◌<◌, ◌≤◌, ◌++◌, [], ◌∷◌, decimal, codes, drop, length, IfOk, OnErr, OnOk, option_map};
ghost use Rattle.sj_streams.specs.Batch.{frames_named, lines_in};
ghost use Rattle.sj_streams.specs.Words.{words_at};

use sj_base::NoMemory;
use sj_grammar::is;
use sj_text::put_number;
use std::alloc::Global;

/// Words that name the lines of a batch.
pub fn begin_batch(alloc: Global, lines: Vec<u8>) -> Result<Vec<Vec<u8>>, NoMemory>
    ensures { IfOk result (λ words. words_at words.items ≡ codes "e" ∷ lines.items ∷ []) }
{
    let mut words = Vec::new(alloc);
    words.push(Vec::from_slice(alloc, b"e")?)?;
    words.push(lines)?;
    Ok(words)
}

/// Appends the frames for a party, under its number.
pub fn add_frames(words: &mut Vec<Vec<u8>>, party: u16, frames: Vec<u8>) -> Result<(), NoMemory>
    ensures { OnOk result (words_at words.new.items
        ≡ words_at words.old.items ++ decimal party ∷ frames.items ∷ []) }
{
    let mut name = Vec::new(*words.allocator());
    put_number(&mut name, u64::from(party))?;
    words.push(name)?;
    words.push(frames)?;
    Ok(())
}

/// The lines of the batch; none where the words have another form.
pub fn lines_of(words: &[Vec<u8>]) -> Option<&[u8]>
    ensures { option_map (λ l. l.now) result ≡ lines_in (words_at words.now) }
{
    if words.len() < 2 || !is(&words[0], b"e") {
        return None;
    }
    Some(&words[1])
}

/// The frames that come after that name; none where the name doesn't come.
pub fn frames_for<'a>(words: &'a [Vec<u8>], name: &[u8]) -> &'a [u8]
    ensures { result.now ≡ frames_named name.now (drop 2 (words_at words.now)) }
{
    let mut at = 2;
    while at < words.len() && words.len() - at > 1 {
        if is(&words[at], name) {
            return &words[at + 1];
        }
        at += 2;
    }
    &[]
}
