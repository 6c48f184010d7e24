//! Laws of what a history, and the core world to which it leads, report of the end of a run in
//! which parties of an accepted file are played by code of their own. Each is one clause of a
//! function that does nothing.
//!
//! - `a_seated_history_tells_its_world`: what each end sent, who took it, and how many messages.
//! - `a_quiet_seated_history_tells_its_end`: the same of one that leaves nothing to do, with the
//!   headline, how the parties stand, and which sessions were opened.
//! - `seats_are_judged_by_their_stands`: the verdict, and where it is done.
//! - `a_code_stands_at_its_first_open_end`: which end that is.
//! - `stands_tell_the_transcript`: the transcript, by how the parties stand.
//! - `seats_stand_so`: small runs, computed.

ghost use Rattle.std.specs.Prelude.{◌≡◌, ◌↔◌, ◌++◌, ◌∷◌, [], ℕ, List, None, Some, length, map};
ghost use Rattle.sj_acceptance.specs.Accepted.{IsAccepted};
ghost use Rattle.sj_base.specs.declared.EndId.{EndId};
ghost use Rattle.sj_lang.specs.FileAt.{FileAt};
ghost use Rattle.sj_lang.specs.Place.{Place};
ghost use Rattle.sj_rules.specs.History.{IsQuietAmong};
ghost use Rattle.sj_rules.specs.Log.{LineAt};
ghost use Rattle.sj_rules.specs.Rows.{IsPick};
ghost use Rattle.sj_rules.specs.World.{WorldAt};
ghost use Rattle.sj_rules_laws.specs.TiedNotes.{sent_told, taken_told, told_in};
ghost use Rattle.sj_semantics.specs.Ends.{end_at};
ghost use Rattle.sj_semantics.specs.State.{opened_in};
ghost use Rattle.sj_semantics.specs.Transcript.{line_of, session_lines, verdict_word};
ghost use Rattle.sj_semantics.specs.declared.State.TheVariants.{Ended, Waits};
ghost use Rattle.sj_semantics.specs.declared.Verdict.TheVariants.{Blocked, Done};
ghost use Rattle.sj_semantics_laws.specs.Samples.{greeting};
ghost use Rattle.sj_told.specs.Counts.{messages_sent, sent_count};
ghost use Rattle.sj_told.specs.Standing.{standing_lines};
ghost use Rattle.sj_told.specs.declared.told.Stand.{Stand};
ghost use Rattle.sj_seat_laws.specs.Calls.{SeatedAt};
ghost use Rattle.sj_seat_laws.specs.Resting.{HoldsNoOpenEnd};
ghost use Rattle.sj_seat_laws.specs.SeatSamples.{both, far, first, misled, near, second};
ghost use Rattle.sj_seat_laws.specs.SeatedPlay.{Player, seated_play};
ghost use Rattle.sj_seat_laws.specs.SeatsHeadline.{IsAllDone};
ghost use Rattle.sj_seat_laws.specs.SeatsStart.{Callers, IsSeatsRun, seats_start};
ghost use Rattle.sj_seat_laws.specs.SeatsWorld.{SeatsWorld, seat_of};
ghost use Rattle.sj_seat_told_laws.specs.FirstOpen.{IsFirstOpen, first_open};
ghost use Rattle.sj_seat_told_laws.specs.SeatsEnd.{IsSeatsEnd};
ghost use Rattle.sj_seat_told_laws.specs.SeatsHistory.{IsSeatsHistory, acts_of};
ghost use Rattle.sj_seat_told_laws.specs.SeatsOpened.{opened_ends_lines, sessions_told, unnamed};
ghost use Rattle.sj_seat_told_laws.specs.SeatsStands.{AreSeatsStands, seats_states, seats_verdict, verdict_with};
ghost use Rattle.sj_seat_told_laws.specs.SeatsTranscript.{seats_transcript};
ghost use Rattle.sj_seat_told_laws.specs.StandSamples.{both_text, gone, gone_text};

/// A history of a run with seats reports the plain world to which its acts lead. The Sent notes of
/// each end are what was sent there, with the senders. The Took notes report who took on it. There
/// are as many Sent notes as messages. The Request notes of each party are the sessions that it
/// opened, and the Accept notes report which of them were accepted.
pub fn a_seated_history_tells_its_world()
    ensures sent { (file : FileAt) (calls : Callers) (pick : ℕ → ℕ → ℕ) (lines : List LineAt)
        (core : WorldAt Place Player) (t : SeatsWorld) (e : EndId) → IsAccepted file → IsPick pick →
        IsSeatsHistory pick file calls lines core → IsSeatsRun file calls (acts_of lines) t →
        (end_at t.world.sessions e).sent ≡ told_in (sent_told e) lines }
    ensures takers { (file : FileAt) (calls : Callers) (pick : ℕ → ℕ → ℕ) (lines : List LineAt)
        (core : WorldAt Place Player) (t : SeatsWorld) (e : EndId) → IsAccepted file → IsPick pick →
        IsSeatsHistory pick file calls lines core → IsSeatsRun file calls (acts_of lines) t →
        (end_at t.world.sessions e).takers ≡ map (λ x. x.by) (told_in (taken_told e) lines) }
    ensures count { (file : FileAt) (calls : Callers) (pick : ℕ → ℕ → ℕ) (lines : List LineAt)
        (core : WorldAt Place Player) (t : SeatsWorld) → IsAccepted file → IsPick pick →
        IsSeatsHistory pick file calls lines core → IsSeatsRun file calls (acts_of lines) t →
        messages_sent t.world ≡ sent_count lines }
    ensures opened { (file : FileAt) (calls : Callers) (pick : ℕ → ℕ → ℕ) (lines : List LineAt)
        (core : WorldAt Place Player) (t : SeatsWorld) → IsAccepted file → IsPick pick →
        IsSeatsHistory pick file calls lines core → IsSeatsRun file calls (acts_of lines) t →
        map unnamed (opened_in t.world) ≡ sessions_told lines (length file.parties) 0 }
{}

/// Where it leaves nothing to do, that world has the headline. There each party stands as that of
/// its node: one that goes by the file by its steps and its next one alone, and one that is played
/// by code by its ends and calls alone.
pub fn a_quiet_seated_history_tells_its_end()
    ensures { (file : FileAt) (calls : Callers) (pick : ℕ → ℕ → ℕ) (lines : List LineAt)
        (core : WorldAt Place Player) → IsAccepted file → IsPick pick →
        IsSeatsHistory pick file calls lines core →
        IsQuietAmong (seated_play file) (length file.parties) core →
        (t : SeatsWorld) × IsSeatsEnd file calls lines core t }
{}

/// The verdict by how the parties stand, and by which of the sessions that were opened were accepted,
/// is that of the run. It is done exactly where all is done.
pub fn seats_are_judged_by_their_stands()
    ensures told { (t : SeatsWorld) (stands : List Stand) → AreSeatsStands t stands →
        verdict_with stands (map unnamed (opened_in t.world)) ≡ seats_verdict t }
    ensures done { (file : FileAt) (calls : Callers) (acts : List ℕ) (t : SeatsWorld) →
        IsAccepted file → IsSeatsRun file calls acts t →
        (seats_verdict t ≡ Done) ↔ IsAllDone t }
{}

/// The end at which a code stands that makes no further call is the first by name of its open ends.
pub fn a_code_stands_at_its_first_open_end()
    ensures open { (file : FileAt) (calls : Callers) (acts : List ℕ) (t : SeatsWorld) (q : ℕ)
        (s : SeatedAt) (e : EndId) → IsAccepted file → IsSeatsRun file calls acts t →
        seat_of t.seats q ≡ Some s → first_open s.ends ≡ Some e → IsFirstOpen s.ends e }
    ensures none { (file : FileAt) (calls : Callers) (acts : List ℕ) (t : SeatsWorld) (q : ℕ)
        (s : SeatedAt) → IsAccepted file → IsSeatsRun file calls acts t →
        seat_of t.seats q ≡ Some s → (first_open s.ends ≡ None) ↔ HoldsNoOpenEnd s }
{}

/// The transcript is that of the sessions, those that were opened without names for their ends, with
/// the lines and the verdict by how the parties stand.
pub fn stands_tell_the_transcript()
    ensures { (file : FileAt) (t : SeatsWorld) (stands : List Stand) → AreSeatsStands t stands →
        session_lines file 0 file.connects t.world.sessions
        ++ opened_ends_lines file t.world.sessions (map unnamed (opened_in t.world))
        ++ standing_lines file file.parties (map (λ s. s.steps) stands) (map (λ s. s.state) stands)
        ++ line_of (verdict_word (verdict_with stands (map unnamed (opened_in t.world))) ∷ [])
        ≡ seats_transcript file t }
{}

/// In the runs of the greeting in which parties are played by code both end. A code that takes
/// before anything is there waits at its end, and so does one whose call isn't guarded, or that
/// calls nothing: then the run is blocked.
pub fn seats_stand_so()
    ensures first { (t : SeatsWorld) × IsSeatsRun greeting first (0 ∷ 1 ∷ 0 ∷ 1 ∷ []) t
        × (seats_states t ≡ Ended ∷ Ended ∷ []) × (seats_verdict t ≡ Done) }
    ensures second { (t : SeatsWorld) × IsSeatsRun greeting second (0 ∷ 1 ∷ 1 ∷ 0 ∷ []) t
        × (seats_states t ≡ Ended ∷ Ended ∷ []) × (seats_verdict t ≡ Done) }
    ensures both { (t : SeatsWorld) × IsSeatsRun greeting both (0 ∷ 1 ∷ 0 ∷ 1 ∷ []) t
        × (seats_transcript greeting t ≡ both_text) }
    ensures waits { seats_states (seats_start greeting misled) ≡ Waits near ∷ Waits far ∷ [] }
    ensures blocked { seats_verdict (seats_start greeting misled) ≡ Blocked }
    ensures gone { seats_transcript greeting (seats_start greeting gone) ≡ gone_text }
{}
