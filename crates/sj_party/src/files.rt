//! Whole files.
ghost use Rattle.std.specs.Prelude.{◌≡◌, ◌≤◌, [], length, IfOk, IfErr};
ghost use Rattle.sj_lang.specs.FileAt.{FileAt};
ghost use Rattle.sj_lang.specs.FileView.{file_of};
ghost use Rattle.sj_lang.specs.Limits.{limits, IsWithin, file_limit};
ghost use Rattle.sj_grammar.specs.Positions.{start};
ghost use Rattle.sj_grammar.specs.Files.{IsFile};
ghost use Rattle.sj_grammar.specs.FileDues.{file_layer, file_due};
ghost use Rattle.sj_grammar.specs.Faults.{Stuck};
ghost use Rattle.sj_grammar.specs.Refusals.{OnFault};

use crate::connects::parse_connects;
use crate::parties::parse_parties;
use sj_lang::{File, Names};
use sj_proto::{ParseRefusal, Tokens, parse_protocols};
use std::alloc::Global;

/// The file that the bytes spell: protocols, parties and connections, and then blanks and comments
/// alone. Names and texts have their numbers in order of first occurrence.
pub fn parse_file(alloc: Global, bytes: &[u8]) -> Result<File, ParseRefusal>
    requires { length bytes.now ≤ file_limit }

    // the value exactly where the text stands for a file, and that value alone
    ensures found { IfOk result (λ f. IsFile bytes.now (file_of f)) }
    ensures only { IfOk result (λ f. (g : FileAt) → IsFile bytes.now g → g ≡ file_of f) }
    ensures limits { IfOk result (λ f. IsWithin limits (file_of f)) }

    // and else exactly the first fault
    ensures fault { IfErr result (OnFault (λ f. Stuck file_layer limits 0 (start bytes.now [] [])
        file_due f)) }
    ensures none { IfErr result (OnFault (λ _. (g : FileAt) → IsFile bytes.now g → ⊥)) }
{
    let mut names = Names::new(alloc);
    let mut tokens = Tokens::over(bytes);
    let protocols = parse_protocols(alloc, &mut tokens, &mut names)?;
    let parties = parse_parties(alloc, &mut tokens, &mut names)?;
    let connects = parse_connects(alloc, &mut tokens, &mut names)?;
    tokens.finish()?;
    Ok(File {
        names,
        protocols,
        parties,
        connects,
    })
}
