//! Names, and their numbers in the tables.
ghost use Rattle.std.specs.Prelude.{◌≡◌, ◌+◌, ◌<◌, ◌≤◌, [], ◌∷◌, length, get_or, false, IfOk, IfErr};
ghost use Rattle.sj_lang.specs.Words.{IsFirstIndex};
ghost use Rattle.sj_lang.specs.Limits.{limits};
ghost use Rattle.sj_grammar.specs.Tables.{with_entry, IsNamed};
ghost use Rattle.sj_grammar.specs.Refusals.{OnFault};
ghost use Rattle.sj_grammar.specs.Asked.{Refuses, but_name};
ghost use Rattle.sj_proto.specs.Leaves.{Leaves};
ghost use Rattle.sj_proto.specs.Parsed.{standing, Gives, Keeps, HasRoom, limit_of_names};

use crate::tokens::Tokens;
use sj_base::NoMemory;
use sj_grammar::ParseRefusal;
use sj_lang::Names;

// The number of a word.
fn number_of(names: &mut Names, word: &[u8]) -> Result<u16, NoMemory>
    requires { length names.old.words < limit_of_names }
    ensures table { IfOk result (λ _. names.new.words ≡ with_entry names.old.words word.now) }
    ensures there { IfOk result (λ n. n < length names.new.words) }
    ensures here { IfOk result (λ n. get_or names.new.words n [] ≡ word.now) }
    ensures first { IfOk result (λ n. IsFirstIndex word.now names.new.words n) }
    ensures longer { IfOk result (λ _. length names.new.words ≤ length names.old.words + 1) }
    ensures kept { Keeps names.old names.new }
{
    let n = names.words.add(word)?;
    Ok(n as u16)
}

/// Takes the next token, which has to be a name of at most 64 bytes, and answers its number in the
/// table of words. Where there is no room for one more of what it names, it passes a limit.
pub fn take_name(tokens: &mut Tokens, names: &mut Names, full: bool) -> Result<u16, ParseRefusal>
    requires { HasRoom names.old tokens.old }
    ensures reads { IfOk result (λ n.
        Gives (standing tokens.old names.old) (standing tokens.new names.new)
        (λ word. word n ∷ []) (λ word. IsNamed limits word n)) }
    ensures allowed { IfOk result (λ _. full ≡ false) }
    ensures fault { IfErr result (OnFault (Refuses (but_name full) tokens.old)) }
    ensures shorter { IfOk result (λ _. length tokens.new.ahead < length tokens.old.ahead) }
    ensures leaves { Leaves 1 result names.old tokens.old names.new tokens.new }
    // a token that is refused isn't taken
    ensures err { IfErr result (OnFault (λ _. tokens.new ≡ tokens.old)) }
{
    let word = tokens.name(full)?;
    let number = number_of(names, word)?;
    Ok(number)
}
