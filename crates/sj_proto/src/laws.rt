//! Laws of tokens and of the grammar of protocols. A text has one reading:
//! `only_the_end_is_the_end`, `the_end_comes_again`, `a_fault_comes_again`:
//! what `Tokens::next` answers at the end and at a fault.
//! `what_is_ahead_was_ahead`: a reader that advances has ahead what it had ahead before,
//! but for what it read between.
//! `one_protocol_a_text`, `one_fault_a_text`, `no_protocol_has_a_fault`:
//! a text stands for one protocol, or has one first fault.
//! `first_faults_go_wrong`, `what_goes_wrong_is_the_first_fault`:
//! the first fault in the grammar's own words.
//! `one_list_in_front`, `no_list_in_front_has_a_fault`: the same of the protocols at the
//! start of a text.
ghost use Rattle.std.specs.Prelude.{◌≡◌, ℕ, ◌-◌, List, length, drop, Ok};
ghost use Rattle.sj_lang.specs.declared.file.Names.{Names as NamesAt};
ghost use Rattle.sj_lang.specs.Place.{Place};
ghost use Rattle.sj_lang.specs.FileAt.{ProtocolAt};
ghost use Rattle.sj_grammar.specs.declared.tokens.Fault.{Fault};
ghost use Rattle.sj_grammar.specs.declared.tokens.Rule.{Rule};
ghost use Rattle.sj_grammar.specs.declared.tokens.Token.{Token};
ghost use Rattle.sj_grammar.specs.declared.tokens.What.TheVariants.{End};
ghost use Rattle.sj_grammar.specs.Lexis.{next_of, at_end, bad};
ghost use Rattle.sj_grammar.specs.Reading.{Reading, answer_to, reading_after};
ghost use Rattle.sj_grammar.specs.Positions.{At, start};
ghost use Rattle.sj_grammar.specs.Wrong.{GoesWrong};
ghost use Rattle.sj_proto.specs.Onward.{Advances};
ghost use Rattle.sj_proto.specs.Protocols.{IsProtocol, AreProtocols, IsFirstFault, IsFaultInProtocols};
ghost use Rattle.sj_proto.specs.Wrong.{protocol_grammar};

/// `End` is answered where only blanks and comments are left, and nowhere else.
pub fn only_the_end_is_the_end()
    ensures { (r : Reading) (t : Token) → answer_to r (next_of r.ahead) ≡ Ok t → t.what ≡ End
        → next_of r.ahead ≡ at_end }
{}

/// After the end the same is answered again.
pub fn the_end_comes_again()
    ensures { (r : Reading) → next_of r.ahead ≡ at_end
        → let s = reading_after r at_end in answer_to s (next_of s.ahead) ≡ answer_to r at_end }
{}

/// And so it is at a fault.
pub fn a_fault_comes_again()
    ensures { (r : Reading) (rule : Rule) (rest : List ℕ) → next_of r.ahead ≡ bad rule rest
        → let s = reading_after r (bad rule rest) in
        answer_to s (next_of s.ahead) ≡ answer_to r (bad rule rest) }
{}

/// A reader that stands further on has the same text ahead, but for what it read between.
pub fn what_is_ahead_was_ahead()
    ensures { (r q : Reading) → Advances r q
        → q.ahead ≡ drop (length q.before - length r.before) r.ahead }
{}

/// A text stands for one protocol, with one numbering of its labels.
pub fn one_protocol_a_text()
    ensures { (bytes : List ℕ) (old new other : NamesAt) (p q : Place) → IsProtocol bytes old new p
        → IsProtocol bytes old other q → (p ≡ q) × (new ≡ other) }
{}

/// A text has one first fault.
pub fn one_fault_a_text()
    ensures { (bytes : List ℕ) (names : NamesAt) (f g : Fault) → IsFirstFault bytes names f
        → IsFirstFault bytes names g → f ≡ g }
{}

/// A text that stands for a protocol has no fault.
pub fn no_protocol_has_a_fault()
    ensures { (bytes : List ℕ) (old new : NamesAt) (p : Place) (f : Fault) → IsProtocol bytes old new p
        → IsFirstFault bytes old f → ⊥ }
{}

/// Up to the first fault a protocol can go on so. At P1, and at the P3 of 2^63, none goes on with
/// the next token, or the text isn't whole. At P4 one does, limits aside, and the token passes a
/// limit.
pub fn first_faults_go_wrong()
    ensures { (bytes : List ℕ) (names : NamesAt) (f : Fault) → IsFirstFault bytes names f
        → GoesWrong protocol_grammar (start bytes names.words names.texts) f }
{}

/// Where a text goes wrong so is its first fault.
pub fn what_goes_wrong_is_the_first_fault()
    ensures { (bytes : List ℕ) (names : NamesAt) (f : Fault)
        → GoesWrong protocol_grammar (start bytes names.words names.texts) f
        → IsFirstFault bytes names f }
{}

/// One list of protocols stands at the start of a text, and ends at one position.
pub fn one_list_in_front()
    ensures { (a b c : At) (ps qs : List ProtocolAt) → AreProtocols a ps b → AreProtocols a qs c
        → (ps ≡ qs) × (b ≡ c) }
{}

/// Where protocols stand at the start there is no fault in them.
pub fn no_list_in_front_has_a_fault()
    ensures { (a b : At) (ps : List ProtocolAt) (f : Fault) → AreProtocols a ps b
        → IsFaultInProtocols a f → ⊥ }
{}
