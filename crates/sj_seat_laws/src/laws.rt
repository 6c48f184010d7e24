//! Laws of runs in which parties of an accepted file are played by code of their own: each such
//! party q makes the calls `calls q`, and the others go by the file. Each is the one clause of a
//! function that does nothing, or one of several.
//!
//! - `seats_keep_sessions_balanced`, `seats_serve_the_others`: whatever is called, no party that
//!   goes by the file meets a message that its statement can't take.
//! - `settled_seated_runs_have_the_headline`: the end theorem, of plain runs.
//! - `each_seated_core_run_stands_for_a_plain_run`, `each_front_fits_beside_seats`,
//!   `each_party_acts_beside_seats`, `a_quiet_seated_run_has_the_headline`: of core runs.
//! - `joined_logs_are_a_seated_core_run`, `no_worker_is_unfit_beside_seats`: of running parties.
//! - `a_frame_comes_whatever_the_program_is`, `a_call_is_its_row`, `a_log_tells_the_calls`: of a
//!   node that isn't asked for its program, and of its log.
//! - `seats_play_so`: small runs, computed.

ghost use Rattle.std.specs.Prelude.{◌≡◌, ℕ, ◌<◌, List, ◌∷◌, [], None, Option, Some, length, map, option_map, slice_get, true};
ghost use Rattle.sj_acceptance.specs.Accepted.{IsAccepted};
ghost use Rattle.sj_base.specs.declared.EndId.{EndId};
ghost use Rattle.sj_base.specs.declared.Msg.{Msg};
ghost use Rattle.sj_lang.specs.FileAt.{FileAt};
ghost use Rattle.sj_lang.specs.Place.{Place, done};
ghost use Rattle.sj_semantics.specs.declared.Awaits.{Awaits};
ghost use Rattle.sj_semantics.specs.declared.Passed.{Passed};
ghost use Rattle.sj_semantics.specs.declared.Want.TheVariants.{Take};
ghost use Rattle.sj_semantics.specs.Balanced.{IsBalanced};
ghost use Rattle.sj_semantics.specs.Ends.{next_for};
ghost use Rattle.sj_semantics.specs.Fitting.{fits};
ghost use Rattle.sj_semantics.specs.Program.{Program};
ghost use Rattle.sj_semantics.specs.Wants.{want_of};
ghost use Rattle.sj_rules.specs.Events.{acts_in};
ghost use Rattle.sj_rules.specs.Frames.{FrameAt};
ghost use Rattle.sj_rules.specs.Halts.{halt_by, halt_of};
ghost use Rattle.sj_rules.specs.History.{IsLog, IsQuietAmong, turn_of};
ghost use Rattle.sj_rules.specs.Joined.{IsJoinedRun, PartiesWork, WorkerAt};
ghost use Rattle.sj_rules.specs.Log.{IsJoined, LineAt, NoteAt, act_note, logs_below};
ghost use Rattle.sj_rules.specs.Node as wanted;
ghost use Rattle.sj_rules.specs.Node.{NodeAt, act_by, acts, arrives};
ghost use Rattle.sj_rules.specs.NodeRun.{frame_told};
ghost use Rattle.sj_rules.specs.Party.{IsDone};
ghost use Rattle.sj_rules.specs.Reading.{IsOpenKept};
ghost use Rattle.sj_rules.specs.Opened.{opened_number, smallest};
ghost use Rattle.sj_rules.specs.Record.{Held, HeldAt, offered_end, requested_end};
ghost use Rattle.sj_rules.specs.Rows.{IsPick, Worked};
ghost use Rattle.sj_rules.specs.StandsFor.{StandsFor};
ghost use Rattle.sj_rules.specs.World.{Deliver, Turn, WorldAt, happens};
ghost use Rattle.sj_seat_laws.specs.Calls.{Call, SeatedAt};
ghost use Rattle.sj_seat_laws.specs.Guards.{called, opened, seated_want};
ghost use Rattle.sj_seat_laws.specs.SeatRows.{call_act, call_told, with_player, worked_player};
ghost use Rattle.sj_seat_laws.specs.SeatSamples.{accepter, both, both_open, first, misled, opens_wrongly, requester, second};
ghost use Rattle.sj_seat_laws.specs.SeatedPlay.{Player, player_binds, seated, seated_play};
ghost use Rattle.sj_seat_laws.specs.SeatsHeadline.{IsAllDone, IsSeatsHeadline};
ghost use Rattle.sj_seat_laws.specs.SeatsStart.{Callers, IsSeatsCoreRun, IsSeatsRun, seats_core, seats_start};
ghost use Rattle.sj_seat_laws.specs.SeatsWorld.{SeatsWorld, seats_act, seats_seen};
ghost use Rattle.sj_semantics_laws.specs.OpeningSamples.{accepted};
ghost use Rattle.sj_semantics_laws.specs.Samples.{greeting};

/// In every run each session is balanced.
pub fn seats_keep_sessions_balanced()
    ensures { (file : FileAt) (calls : Callers) (done_so : List ℕ) (t : SeatsWorld) →
        IsAccepted file → IsSeatsRun file calls done_so t → (s : ℕ) →
        IsBalanced t.world.sessions s }
{}

/// And what comes next for a party that goes by the file is what its statement can take.
pub fn seats_serve_the_others()
    ensures { (file : FileAt) (calls : Callers) (done_so : List ℕ) (t : SeatsWorld) (q : ℕ)
        (g : Program) (e : EndId) (a : Awaits) (x : Passed) → IsAccepted file →
        IsSeatsRun file calls done_so t → slice_get t.world.parties q ≡ Some g →
        want_of g ≡ Some (Take e a) → next_for t.world.sessions e ≡ Some x →
        fits g x.msg ≡ true }
{}

/// Each run to where nobody can go on has the headline.
pub fn settled_seated_runs_have_the_headline()
    ensures { (file : FileAt) (calls : Callers) (done_so : List ℕ) (t : SeatsWorld) →
        IsAccepted file → IsSeatsRun file calls done_so t → ((q : ℕ) → seats_act t q ≡ None) →
        IsSeatsHeadline file calls done_so t }
{}

/// The acts of a core run are a plain run, and the core world stands for the world that it reaches.
pub fn each_seated_core_run_stands_for_a_plain_run()
    ensures { (file : FileAt) (calls : Callers) (turns : List Turn) (core : WorldAt Place Player) →
        IsAccepted file → IsSeatsCoreRun file calls turns core →
        (t : SeatsWorld) × IsSeatsRun file calls (acts_in turns) t
        × IsOpenKept IsDone player_binds done core (seats_seen t)
        × StandsFor IsDone done core (seats_seen t) }
{}

/// The first frame of each lane fits the row of its party, with the limits of frames too.
pub fn each_front_fits_beside_seats()
    ensures step { (file : FileAt) (calls : Callers) (turns : List Turn)
        (core : WorldAt Place Player) (pick : ℕ → ℕ → ℕ) (q r : ℕ) (f : FrameAt Place)
        (rest : List (FrameAt Place)) → IsAccepted file → IsSeatsCoreRun file calls turns core →
        IsPick pick → core.lanes r q ≡ f ∷ rest → (after : WorldAt Place Player)
        × (happens (seated_play file) pick core q (Deliver r) ≡ Some after) }
    ensures arrives { (file : FileAt) (calls : Callers) (turns : List Turn)
        (core : WorldAt Place Player) (pick : ℕ → ℕ → ℕ) (q r : ℕ) (f : FrameAt Place)
        (rest : List (FrameAt Place)) → IsAccepted file → IsSeatsCoreRun file calls turns core →
        IsPick pick → core.lanes r q ≡ f ∷ rest → (worked : Worked Place (NodeAt Place Player))
        × (arrives done (length file.parties) pick (core.nodes q) r f ≡ Some worked) }
{}

/// A party acts where no cause keeps it from it: nothing is ever unfit, at the others or at a code.
pub fn each_party_acts_beside_seats()
    ensures { (file : FileAt) (calls : Callers) (turns : List Turn) (core : WorldAt Place Player)
        (q : ℕ) → IsAccepted file → IsSeatsCoreRun file calls turns core →
        halt_of (seated_play file) (core.nodes q) ≡ None →
        (worked : Worked Place (NodeAt Place Player))
        × (acts (seated_play file) q (core.nodes q) ≡ Some worked) }
{}

/// A core run that leaves the parties nothing to do stands for a plain run with the headline.
pub fn a_quiet_seated_run_has_the_headline()
    ensures { (file : FileAt) (calls : Callers) (turns : List Turn) (core : WorldAt Place Player) →
        IsAccepted file → IsSeatsCoreRun file calls turns core →
        IsQuietAmong (seated_play file) (length file.parties) core →
        (t : SeatsWorld) × IsSeatsHeadline file calls (acts_in turns) t
        × IsOpenKept IsDone player_binds done core (seats_seen t) }
{}

/// The logs of the parties can be joined, and the joined lines are a core run, which ends in each
/// worker's node.
pub fn joined_logs_are_a_seated_core_run()
    ensures joined { (file : FileAt) (calls : Callers) (pick : ℕ → ℕ → ℕ) (blank : Place)
        (workers : ℕ → WorkerAt Place Player) (lost : ℕ → ℕ → List (FrameAt Place)) →
        PartiesWork (seated_play file) pick blank (length file.parties) (seats_core file calls)
        workers lost → (lines : List LineAt)
        × IsJoined (logs_below (λ q. (workers q).log) (length file.parties)) lines }
    ensures run { (file : FileAt) (calls : Callers) (pick : ℕ → ℕ → ℕ) (blank : Place)
        (workers : ℕ → WorkerAt Place Player) (lost : ℕ → ℕ → List (FrameAt Place))
        (lines : List LineAt) → IsAccepted file → IsPick pick →
        PartiesWork (seated_play file) pick blank (length file.parties) (seats_core file calls)
        workers lost → IsJoined (logs_below (λ q. (workers q).log) (length file.parties)) lines →
        (core : WorldAt Place Player)
        × IsLog (seated_play file) pick (seats_core file calls) lines core
        × IsSeatsCoreRun file calls (map turn_of lines) core
        × IsJoinedRun (seated_play file) pick blank (length file.parties)
        (seats_core file calls) workers lost lines core }
{}

/// A frame that a worker popped and lost fits its row there, and a node that works acts where no
/// cause keeps it from it.
pub fn no_worker_is_unfit_beside_seats()
    ensures frame { (file : FileAt) (calls : Callers) (pick : ℕ → ℕ → ℕ) (blank : Place)
        (workers : ℕ → WorkerAt Place Player) (lost : ℕ → ℕ → List (FrameAt Place)) (r q : ℕ)
        (f : FrameAt Place) → IsAccepted file → IsPick pick →
        PartiesWork (seated_play file) pick blank (length file.parties) (seats_core file calls)
        workers lost → q < length file.parties → lost q r ≡ frame_told blank f ∷ [] →
        (worked : Worked Place (NodeAt Place Player))
        × (arrives done (length file.parties) pick (workers q).node r f ≡ Some worked) }
    ensures act { (file : FileAt) (calls : Callers) (pick : ℕ → ℕ → ℕ) (blank : Place)
        (workers : ℕ → WorkerAt Place Player) (lost : ℕ → ℕ → List (FrameAt Place)) (q : ℕ) →
        IsAccepted file → IsPick pick →
        PartiesWork (seated_play file) pick blank (length file.parties) (seats_core file calls)
        workers lost → q < length file.parties →
        halt_of (seated_play file) (workers q).node ≡ None →
        (worked : Worked Place (NodeAt Place Player))
        × (acts (seated_play file) q (workers q).node ≡ Some worked) }
{}

/// A frame comes to a node as it does to the node with any other program.
pub fn a_frame_comes_whatever_the_program_is()
    ensures { (g : Player) (pick : ℕ → ℕ → ℕ) (n : NodeAt Place Program) (origin parties : ℕ)
        (f : FrameAt Place) → arrives done parties pick (with_player g n) origin f
        ≡ option_map (worked_player g) (arrives done parties pick n origin f) }
{}

/// What a party's code calls is done by the rows of the node, whatever its program is, beside what
/// the party becomes; a take by the message that is there, an accept by the session offered first.
pub fn a_call_is_its_row()
    ensures sends { (file : FileAt) (party : ℕ) (s : SeatedAt) (n : NodeAt Place Program)
        (e : EndId) (m : Msg) →
        act_by (seated_play file) party (with_player (seated s) n) (wanted.sends e m)
        ≡ option_map (worked_player (seated (called s None)))
        (call_act (length file.parties) party n (wanted.sends e m)) }
    ensures delegates { (file : FileAt) (party : ℕ) (s : SeatedAt) (n : NodeAt Place Program)
        (c e : EndId) →
        act_by (seated_play file) party (with_player (seated s) n) (wanted.delegates c e)
        ≡ option_map (worked_player (seated (called s None)))
        (call_act (length file.parties) party n (wanted.delegates c e)) }
    ensures closes { (file : FileAt) (party : ℕ) (s : SeatedAt) (n : NodeAt Place Program)
        (e : EndId) →
        act_by (seated_play file) party (with_player (seated s) n) (wanted.closes e)
        ≡ option_map (worked_player (seated (called s None)))
        (call_act (length file.parties) party n (wanted.closes e)) }
    ensures takes { (file : FileAt) (party : ℕ) (s : SeatedAt) (n : NodeAt Place Program)
        (e : EndId) (place : Place) (h : HeldAt Place) (m : Msg) (rest : List Msg) →
        n.main e ≡ Some (Held h) → h.untaken ≡ m ∷ rest →
        act_by (seated_play file) party (with_player (seated s) n) (wanted.takes e place)
        ≡ option_map (worked_player (seated (called s (Some m))))
        (call_act (length file.parties) party n (wanted.takes e place)) }
    ensures requests { (file : FileAt) (party : ℕ) (s : SeatedAt) (n : NodeAt Place Program)
        (place : Place) (to : ℕ) →
        act_by (seated_play file) party (with_player (seated s) n) (wanted.requests place to)
        ≡ option_map
        (worked_player (seated (opened s (requested_end (opened_number party n.requests)))))
        (call_act (length file.parties) party n (wanted.requests place to)) }
    ensures accepts { (file : FileAt) (party : ℕ) (s : SeatedAt) (n : NodeAt Place Program)
        (place : Place) (from sess : ℕ) → smallest (n.offers from) ≡ Some sess →
        act_by (seated_play file) party (with_player (seated s) n) (wanted.accepts place from)
        ≡ option_map (worked_player (seated (opened s (offered_end sess))))
        (call_act (length file.parties) party n (wanted.accepts place from)) }
    ensures halts { (s : SeatedAt) (n : NodeAt Place Program) (want : wanted.Want Place) →
        halt_by (with_player (seated s) n) want ≡ halt_by n want }
{}

/// The note of an act of such a party names its call, but for the protocol of a session that it
/// opens.
pub fn a_log_tells_the_calls()
    ensures { (party : ℕ) (n : NodeAt Place Player) (s : SeatedAt) (note : NoteAt) →
        act_note party n (seated_want s) ≡ Some note →
        (c : Call) × (later : List Call) × (s.calls ≡ c ∷ later)
        × (protocol : ℕ) × (call_told protocol note ≡ Some c) }
{}

/// Party 0 of the greeting sends another number by code of its own, or party 1 takes so, or both
/// do: they come to where all is done. A truth value isn't sent, and nothing is taken before it is
/// there. So it is where party 0 requests a session, and party 1 accepts it. One of another protocol
/// isn't requested, and nothing is accepted before it is offered.
pub fn seats_play_so()
    ensures first { (t : SeatsWorld) × IsSeatsRun greeting first (0 ∷ 1 ∷ 0 ∷ 1 ∷ []) t
        × IsAllDone t }
    ensures second { (t : SeatsWorld) × IsSeatsRun greeting second (0 ∷ 1 ∷ 1 ∷ 0 ∷ []) t
        × IsAllDone t }
    ensures both { (t : SeatsWorld) × IsSeatsRun greeting both (0 ∷ 1 ∷ 0 ∷ 1 ∷ []) t
        × IsAllDone t }
    ensures unguarded { seats_act (seats_start greeting misled) 0 ≡ None }
    ensures waits { seats_act (seats_start greeting both) 1 ≡ None }
    ensures requester { (t : SeatsWorld)
        × IsSeatsRun accepted requester (0 ∷ 1 ∷ 0 ∷ 1 ∷ 0 ∷ 1 ∷ []) t × IsAllDone t }
    ensures accepter { (t : SeatsWorld)
        × IsSeatsRun accepted accepter (0 ∷ 0 ∷ 1 ∷ 1 ∷ 1 ∷ 0 ∷ []) t × IsAllDone t }
    ensures both_open { (t : SeatsWorld)
        × IsSeatsRun accepted both_open (0 ∷ 0 ∷ 0 ∷ 1 ∷ 1 ∷ 1 ∷ []) t × IsAllDone t }
    ensures other_protocol { seats_act (seats_start accepted opens_wrongly) 0 ≡ None }
    ensures unoffered { seats_act (seats_start accepted both_open) 1 ≡ None }
{}
