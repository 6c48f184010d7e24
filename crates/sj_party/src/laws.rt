//! Laws of the grammar of statements and files.
//! `statements_are_what_is_due`: the tokens of statements, blocks and arms are what is due there.
//! `no_statement_has_a_fault`: no token of theirs breaks a rule.
//! `statements_are_read_in_one_way`: no two statements, blocks or arms have the same pieces.
//! `files_are_what_is_due`: the tokens of a file are what is due, and after them nothing need be.
//! `no_file_has_a_fault`, `one_file_a_text`: a text that stands for a file has no fault and
//! is that file alone.
//! `no_file_goes_on_there`: at a token that breaks a rule no file goes on, but for limits.
//! `a_file_goes_on_up_to_there`: up to what is due a file can go on so,
//! and at a passed limit with the token too.
//! `first_faults_go_wrong`, `what_goes_wrong_is_the_first_fault`:
//! the first fault in the grammar's own words, but for limits.
ghost use Rattle.std.specs.Prelude.{◌≡◌, ◌≢◌, ℕ, List, [], ◌∷◌, ◌++◌, Some, None, true, false};
ghost use Rattle.sj_lang.specs.Code.{Code, StmtAt, Branches};
ghost use Rattle.sj_lang.specs.FileAt.{FileAt};
ghost use Rattle.sj_grammar.specs.declared.tokens.Rule.{Rule};
ghost use Rattle.sj_grammar.specs.declared.tokens.Rule.TheVariants.{P4};
ghost use Rattle.sj_grammar.specs.declared.tokens.Fault.{Fault};
ghost use Rattle.sj_lang.specs.Limits.{Limits, limits};
ghost use Rattle.sj_grammar.specs.Tables.{Spelling};
ghost use Rattle.sj_grammar.specs.Positions.{Pieces, Piece, spellings, start};
ghost use Rattle.sj_grammar.specs.Layers.{step, may_end, rule_of};
ghost use Rattle.sj_grammar.specs.Faults.{Stuck};
ghost use Rattle.sj_grammar.specs.Statements.{IsStatement, IsCode, IsBlock, AreArms};
ghost use Rattle.sj_grammar.specs.Files.{IsSpelled, IsFile};
ghost use Rattle.sj_grammar.specs.FileDues.{Due, stmts, block, branches, file_layer, file_due};
ghost use Rattle.sj_grammar.specs.Viable.{IsViable};
ghost use Rattle.sj_grammar.specs.Wrong.{GoesWrong};
ghost use Rattle.sj_party.specs.Alike.{AreAlike, EndsCode, EndsArms};
ghost use Rattle.sj_party.specs.Leads.{Leads, LeadsTo, Completes};
ghost use Rattle.sj_party.specs.Viable.{IsSomeFile, IsViableWithin};
ghost use Rattle.sj_party.specs.Wrong.{file_grammar};

pub fn statements_are_what_is_due()
    ensures one { (L : Limits) (names : Spelling) (o n : ℕ) (s : StmtAt) (a : List Piece) (ds : List Due)
        → IsStatement L names o s a → LeadsTo L n (stmts o ∷ ds) a (stmts o ∷ ds) }
    ensures code { (L : Limits) (names : Spelling) (o n : ℕ) (c : Code) (a : List Piece) (ds : List Due)
        → IsCode L names o c a → LeadsTo L n (stmts o ∷ ds) a (stmts o ∷ ds) }
    ensures braced { (L : Limits) (names : Spelling) (o n : ℕ) (c : Code) (a : List Piece)
        (ds : List Due) → IsBlock L names o c a → LeadsTo L n (block o ∷ ds) a ds }
    ensures arms { (L : Limits) (names : Spelling) (o n : ℕ) (b : Branches) (a : List Piece)
        (ds : List Due) → AreArms L names o b a → LeadsTo L n (branches o ∷ ds) a (branches o ∷ ds) }
{}

pub fn no_statement_has_a_fault()
    ensures code { (L : Limits) (names : Spelling) (o n m : ℕ) (c : Code) (a : List Piece)
        (front back : Pieces) (w : List ℕ) (ds due : List Due) → IsCode L names o c a
        → spellings a ≡ front ++ w ∷ back → Leads L n (stmts o ∷ ds) front m due
        → rule_of (step file_layer L m due w) ≡ None }
    ensures braced { (L : Limits) (names : Spelling) (o n m : ℕ) (c : Code) (a : List Piece)
        (front back : Pieces) (w : List ℕ) (ds due : List Due) → IsBlock L names o c a
        → spellings a ≡ front ++ w ∷ back → Leads L n (block o ∷ ds) front m due
        → rule_of (step file_layer L m due w) ≡ None }
    ensures arms { (L : Limits) (names : Spelling) (o n m : ℕ) (b : Branches) (a : List Piece)
        (front back : Pieces) (w : List ℕ) (ds due : List Due) → AreArms L names o b a
        → spellings a ≡ front ++ w ∷ back → Leads L n (branches o ∷ ds) front m due
        → rule_of (step file_layer L m due w) ≡ None }
{}

pub fn statements_are_read_in_one_way()
    ensures one { (L : Limits) (names : Spelling) (o : ℕ) (s t : StmtAt) (a b x y : List Piece)
        → IsStatement L names o s a → IsStatement L names o t b → AreAlike (a ++ x) (b ++ y)
        → (s ≡ t) × AreAlike x y }
    ensures code { (L : Limits) (names : Spelling) (o : ℕ) (c d : Code) (a b x y : List Piece)
        → IsCode L names o c a → IsCode L names o d b → EndsCode x → EndsCode y
        → AreAlike (a ++ x) (b ++ y) → (c ≡ d) × AreAlike x y }
    ensures braced { (L : Limits) (names : Spelling) (o : ℕ) (c d : Code) (a b x y : List Piece)
        → IsBlock L names o c a → IsBlock L names o d b → AreAlike (a ++ x) (b ++ y)
        → (c ≡ d) × AreAlike x y }
    ensures arms { (L : Limits) (names : Spelling) (o : ℕ) (c d : Branches) (a b x y : List Piece)
        → AreArms L names o c a → AreArms L names o d b → EndsArms x → EndsArms y
        → AreAlike (a ++ x) (b ++ y) → (c ≡ d) × AreAlike x y }
{}

pub fn files_are_what_is_due()
    ensures { (L : Limits) (n : ℕ) (f : FileAt) (ps : List Piece) → IsSpelled L f ps
        → Completes L n file_due ps }
{}

/// A text that stands for a file has no fault.
pub fn no_file_has_a_fault()
    ensures { (bytes : List ℕ) (f : FileAt) (g : Fault) → IsFile bytes f
        → Stuck file_layer limits 0 (start bytes [] []) file_due g → ⊥ }
{}

/// A text stands for one file.
pub fn one_file_a_text()
    ensures { (bytes : List ℕ) (f g : FileAt) → IsFile bytes f → IsFile bytes g → f ≡ g }
{}

pub fn no_file_goes_on_there()
    ensures token { (L : Limits) (ps : Pieces) (s : List ℕ) (m : ℕ) (due : List Due) (rule : Rule)
        → Leads L 0 file_due ps m due → rule_of (step file_layer L m due s) ≡ Some rule → rule ≢ P4
        → IsViable IsSomeFile (ps ++ s ∷ []) → ⊥ }
    ensures whole { (L : Limits) (ps : Pieces) (m : ℕ) (due : List Due) → Leads L 0 file_due ps m due
        → may_end file_layer due ≡ false → IsSomeFile ps → ⊥ }
{}

pub fn a_file_goes_on_up_to_there()
    ensures front { (L : Limits) (ps : Pieces) (m : ℕ) (due : List Due) → Leads L 0 file_due ps m due
        → IsViable IsSomeFile ps }
    ensures over { (L : Limits) (ps : Pieces) (m : ℕ) (due : List Due) → Leads L 0 file_due ps m due
        → (s : List ℕ) → rule_of (step file_layer L m due s) ≡ Some P4 → IsViable IsSomeFile (ps ++ s ∷ []) }
    ensures within { (L : Limits) (ps : Pieces) (m : ℕ) (due : List Due)
        → Leads L 0 file_due ps m due → (s : List ℕ) (rule : Rule)
        → rule_of (step file_layer L m due s) ≡ Some rule → IsViableWithin L (ps ++ s ∷ []) → ⊥ }
    ensures whole { (L : Limits) (ps : Pieces) (m : ℕ) (due : List Due) → Leads L 0 file_due ps m due
        → may_end file_layer due ≡ true → IsSomeFile ps }
{}

/// Up to the first fault of a file's text a file can go on so. At P1, and at the P3 of 2^63, none
/// goes on with the next token, or the text isn't whole. At P4 one does, and the limits don't take
/// the token.
pub fn first_faults_go_wrong()
    ensures { (bytes : List ℕ) (f : Fault) → Stuck file_layer limits 0 (start bytes [] []) file_due f
        → GoesWrong file_grammar (start bytes [] []) f }
{}

/// Where a file's text goes wrong so is its first fault.
pub fn what_goes_wrong_is_the_first_fault()
    ensures { (bytes : List ℕ) (f : Fault) → GoesWrong file_grammar (start bytes [] []) f
        → Stuck file_layer limits 0 (start bytes [] []) file_due f }
{}
