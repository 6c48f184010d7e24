//! Laws of the tokens. Each is a function that does nothing.
//!
//! - `a_token_stays`, `a_refusal_stays`: further bytes change nothing. So it doesn't matter how a
//!   stream is cut into pieces.
//! - `bytes_are_read`, `a_length_is_read`, `a_command_is_read`: what is put is read.

ghost use Rattle.std.specs.Prelude.{◌≡◌, ◌≤◌, ℕ, List, ◌++◌, ◌∷◌, Some, decimal, length};
ghost use Rattle.std.specs.List.{AllByRecursion};
ghost use Rattle.sj_resp.specs.Bytes.{carriage_return, newline};
ghost use Rattle.sj_resp.specs.Command.{AreRead, command_tokens};
ghost use Rattle.sj_resp.specs.Front.{Refused, Whole, bytes_of, front_of};
ghost use Rattle.sj_resp.specs.Limits.{most_bytes, most_parts};
ghost use Rattle.sj_resp.specs.Numbers.{number_in};
ghost use Rattle.sj_resp.specs.Spelling.{command_text};
ghost use Rattle.sj_resp.specs.Token.{Bulk, TokenAt};
ghost use Rattle.sj_resp.specs.declared.refusal.RespRefusal.{RespRefusal};

/// A token at the front stays there, whatever bytes follow.
pub fn a_token_stays()
    ensures { (bytes more rest : List ℕ) (t : TokenAt) →
        front_of bytes ≡ Whole t rest → front_of (bytes ++ more) ≡ Whole t (rest ++ more) }
{}

/// What is refused stays refused, for the same cause, whatever bytes follow.
pub fn a_refusal_stays()
    ensures { (bytes more : List ℕ) (e : RespRefusal) →
        front_of bytes ≡ Refused e → front_of (bytes ++ more) ≡ Refused e }
{}

/// A bulk with its end of line is read, whatever its bytes are and whatever follows.
pub fn bytes_are_read()
    ensures { (word rest : List ℕ) →
        bytes_of (length word) (word ++ carriage_return ∷ newline ∷ rest) ≡ Whole (Bulk word) rest }
{}

/// A length that is put is read as that length.
pub fn a_length_is_read()
    ensures { (n : ℕ) → n ≤ most_bytes → number_in 0 most_bytes (decimal n) ≡ Some n }
{}

/// A command that is put is read as its tokens: the head of an array, then each word as a bulk.
pub fn a_command_is_read()
    ensures { (words : List (List ℕ)) (rest : List ℕ) →
        length words ≤ most_parts → AllByRecursion (λ w. length w ≤ most_bytes) words →
        AreRead (command_tokens words) (command_text words ++ rest) rest }
{}
