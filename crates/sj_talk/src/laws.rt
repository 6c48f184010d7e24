//! Laws over talks; each is the one clause of a function that does nothing.
//!
//! - `talks_stay_balanced`, `talks_serve_the_others`: whatever lines are said, no other party meets a
//!   message that its statement can't take.
//! - `lines_are_moves`: the worlds of a talk's text are worlds of such talks.
//! - `lines_fit_their_places`: a line that is done fits what is ahead of its ends.

ghost use Rattle.std.specs.Prelude.{◌≡◌, ◌<◌, ℕ, List, None, Some, length};
ghost use Rattle.sj_acceptance.specs.Accepted.{IsAccepted};
ghost use Rattle.sj_lang.specs.FileAt.{FileAt};
ghost use Rattle.sj_semantics.specs.Balanced.{IsBalanced};
ghost use Rattle.sj_talk.specs.Fits.{FitsForm};
ghost use Rattle.sj_talk.specs.Forms.{FormAt};
ghost use Rattle.sj_talk.specs.Moves.{GoesOn, IsServed, IsTalk, Move};
ghost use Rattle.sj_talk.specs.Output.{after_lines, played_from};
ghost use Rattle.sj_talk.specs.Rules.{refusal_of};
ghost use Rattle.sj_talk.specs.TalkWorld.{TalkWorld};

/// In every talk over an accepted file each session is balanced.
pub fn talks_stay_balanced()
    ensures { (file : FileAt) (p : ℕ) (moves : List Move) (t : TalkWorld) → IsAccepted file →
        p < length file.parties → IsTalk file p moves t → (s : ℕ) → IsBalanced t.world.sessions s }
{}

/// And what comes next for a party that takes is what its statement can take.
pub fn talks_serve_the_others()
    ensures { (file : FileAt) (p : ℕ) (moves : List Move) (t : TalkWorld) → IsAccepted file →
        p < length file.parties → IsTalk file p moves t → IsServed t.world }
{}

/// Moves lead to the world that lines leave, and to the one in which the others have acted then. What
/// a text prints (`talk_text`) is said of such worlds alone.
pub fn lines_are_moves()
    ensures { (t : TalkWorld) (lines : List (List ℕ)) →
        GoesOn t (after_lines t lines) × GoesOn t (played_from t lines) }
{}

/// In every talk over an accepted file what a line says that no rule refuses fits the places of the
/// ends that it uses.
pub fn lines_fit_their_places()
    ensures { (file : FileAt) (p : ℕ) (moves : List Move) (t : TalkWorld) (says : FormAt) →
        IsAccepted file → p < length file.parties → IsTalk file p moves t →
        refusal_of t (Some says) ≡ None → FitsForm t says }
{}
