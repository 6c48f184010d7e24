//! Laws of the generated file; each is the one clause of a function that does nothing.
//!
//! - `the_generated_text_is_canonical`: what `make` prints is the canonical text of a file.
//! - `the_generated_text_stands_for_the_file`: that text is read as that file alone.
//! - `the_generated_file_is_accepted`: the checker's rules hold of that file.
//! - `the_generated_file_ends_done`: what is counted at its end.
ghost use Rattle.std.specs.Prelude.{◌≡◌, ◌≤◌, ◌<◌, ℕ};
ghost use Rattle.sj_acceptance.specs.Accepted.{IsAccepted};
ghost use Rattle.sj_grammar.specs.Files.{IsFile};
ghost use Rattle.sj_grammar.specs.Lexis.{most};
ghost use Rattle.sj_lang.specs.FileAt.{FileAt};
ghost use Rattle.sj_party.specs.CanonicalFile.{file_text};
ghost use Rattle.sj_semantics.specs.Run.{end_of};
ghost use Rattle.sj_semantics.specs.State.{verdict_of};
ghost use Rattle.sj_semantics.specs.declared.Verdict.TheVariants.{Done};
ghost use Rattle.sj_semantics.specs.Value.{limit_of_turns};
ghost use Rattle.sj_generator.specs.Generated.{generated};
ghost use Rattle.sj_generator_laws.specs.Counts.{messages_in, steps_in, generated_messages, generated_steps};
ghost use Rattle.sj_generator_laws.specs.GeneratedFile.{generated_file};

/// The generated text is the canonical text of the generated file.
pub fn the_generated_text_is_canonical()
    ensures { (n : ℕ) → generated n ≡ file_text (generated_file n) }
{}

/// The generated text is a file of the grammar, for each number of messages that a file can say: it
/// stands for the generated file, and for no other.
pub fn the_generated_text_stands_for_the_file()
    ensures stands { (n : ℕ) → n < most → IsFile (generated n) (generated_file n) }
    ensures alone { (n : ℕ) (f : FileAt) → n < most → IsFile (generated n) f → f ≡ generated_file n }
{}

/// The generated file is accepted, however many messages its loops send.
pub fn the_generated_file_is_accepted()
    ensures { (n : ℕ) → IsAccepted (generated_file n) }
{}

/// The generated file's loops send up to 1,000 messages each. At its end its parties have sent so
/// many messages and done so many steps, and its verdict is done.
pub fn the_generated_file_ends_done()
    ensures messages { (n : ℕ) → n ≤ limit_of_turns → messages_in (end_of (generated_file n)) ≡ generated_messages n }
    ensures steps { (n : ℕ) → n ≤ limit_of_turns → steps_in (end_of (generated_file n)) ≡ generated_steps n }
    ensures verdict { (n : ℕ) → n ≤ limit_of_turns → verdict_of (end_of (generated_file n)) ≡ Done }
{}
