//! Laws of the replies. Each is a function that does nothing.
//!
//! - `what_came_is_spelt_so`: what is read of tokens is what they spell, entry after entry.
//! - `what_is_spelt_comes`: and what they spell is read.
ghost use Rattle.std.specs.Prelude.{◌≡◌, ◌++◌, ℕ, List};
ghost use Rattle.std.specs.List.{AllByRecursion};
ghost use Rattle.sj_resp.specs.Token.{TokenAt};
ghost use Rattle.sj_streams.specs.Reading.{CameAt, Good, came_at};
ghost use Rattle.sj_streams.specs.Replies.{IsNext, came_tokens};

/// What is read is spelt so, whatever follows: each stream is one that was asked for, and its entries
/// have the numbers after the last that was seen, without a gap.
pub fn what_came_is_spelt_so()
    ensures { (keys : List (List ℕ)) (seen : List ℕ) (tokens rest : List TokenAt) (cs : List CameAt) →
        came_at keys seen tokens ≡ Good cs rest →
        (tokens ≡ came_tokens keys cs ++ rest) × AllByRecursion (IsNext keys seen) cs }
{}

/// Streams that were asked for, with entries that go on after the last that was seen, are read as
/// they are spelt, whatever follows.
pub fn what_is_spelt_comes()
    ensures { (keys : List (List ℕ)) (seen : List ℕ) (rest : List TokenAt) (cs : List CameAt) →
        AllByRecursion (IsNext keys seen) cs →
        came_at keys seen (came_tokens keys cs ++ rest) ≡ Good cs rest }
{}
