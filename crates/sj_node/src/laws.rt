//! Laws of the play of a node: `nodes_play_the_file`, `acts_are_of_the_file`,
//! `known_heads_are_taken_by_the_file`, `nodes_keep_their_play`; of what is unfit:
//! `misfits_have_no_act`, `only_misfits_have_no_act`, `nodes_that_act_agree`; of calls:
//! `calls_are_rows`, `calls_halt_as_the_rules_say`, `heads_are_untaken`, `openings_are_rows`,
//! `openings_halt_as_the_rules_say`.
ghost use Rattle.std.specs.Prelude.{◌≡◌, ◌+◌, ℕ, List, Some, None, IsSome, option_map};
ghost use Rattle.sj_base.specs.declared.EndId.{EndId};
ghost use Rattle.sj_base.specs.declared.Msg.{Msg};
ghost use Rattle.sj_lang.specs.FileAt.{ProtocolAt, body_named};
ghost use Rattle.sj_lang.specs.Place.{Place};
ghost use Rattle.sj_end.specs.declared.note.Event.{Event};
ghost use Rattle.sj_end.specs.declared.note.Event.TheVariants as events;
ghost use Rattle.sj_end.specs.declared.note.Note.{Note};
ghost use Rattle.sj_node.specs.Calls.{call_of};
ghost use Rattle.sj_node.specs.Halts.{accept_stop, request_stop};
ghost use Rattle.sj_node.specs.Node.{Did, Does, act_of, clock_of, next_head, node_at, offers_of, play_here, requests_of, node_halt, wants_of};
ghost use Rattle.sj_node.specs.declared.node.Node.{Node};
ghost use Rattle.sj_node.specs.declared.seats.Call.{Call};
ghost use Rattle.sj_node.specs.Play.{HeadsAre, asking, names_known, play_with};
ghost use Rattle.sj_node.specs.Requests.{accept_note, request_note};
ghost use Rattle.sj_node.specs.Seats.{IsCalled, IsHead, IsRowOf, call_note, call_stop, halt_named, want_at};
ghost use Rattle.sj_node.specs.Unfit.{Agrees, Misfit, misfit_of};
ghost use Rattle.sj_rules.specs.Halts.{halt_by};
ghost use Rattle.sj_rules.specs.Node as wanted;
ghost use Rattle.sj_rules.specs.Node.{NodeAt, acts};
ghost use Rattle.sj_rules.specs.Party as file;
ghost use Rattle.sj_rules.specs.Rows.{Worked};
ghost use Rattle.sj_semantics.specs.Program.{Program};

/// A node plays as the file's protocols say, but takes no session message that names what isn't
/// there.
pub fn nodes_play_the_file()
    ensures { (ps : List ProtocolAt) (connects parties : ℕ) → play_with (body_named ps) connects parties
        ≡ asking (names_known connects parties) (file.play_for parties ps) }
{}

/// What a node's act does is an act of the file's protocols.
pub fn acts_are_of_the_file()
    ensures { (ps : List ProtocolAt) (connects parties party : ℕ) (n : NodeAt Place Program)
        (w : Worked Place (NodeAt Place Program)) →
        acts (play_with (body_named ps) connects parties) party n ≡ Some w →
        acts (file.play_for parties ps) party n ≡ Some w }
{}

/// Where each next message of a held end names what is there, the two act alike.
pub fn known_heads_are_taken_by_the_file()
    ensures { (ps : List ProtocolAt) (connects parties party : ℕ) (n : NodeAt Place Program) →
        HeadsAre (names_known connects parties) n →
        acts (play_with (body_named ps) connects parties) party n ≡ acts (file.play_for parties ps) party n }
{}

/// A node that did something plays as before.
pub fn nodes_keep_their_play()
    ensures { (old new : Node) (left : Worked Place (NodeAt Place Program)) (clock : ℕ) (event : Event)
        (note : Note) → Did old left clock event note new →
        play_here new ≡ play_here old }
{}

/// Where one of the four causes applies, the rules have no act.
pub fn misfits_have_no_act()
    ensures { (n : Node) (x : Misfit) → misfit_of n ≡ Some x → act_of n ≡ None }
{}

/// Where nothing holds the step up, and the places of its ends let it, there is no act for one of
/// the four causes alone.
pub fn only_misfits_have_no_act()
    ensures { (n : Node) → node_halt n ≡ None → Agrees n (wants_of n) → act_of n ≡ None →
        IsSome (misfit_of n) }
{}

/// Where the rules have an act, the places of its ends let it.
pub fn nodes_that_act_agree()
    ensures { (n : Node) (w : Worked Place (NodeAt Place Program)) → act_of n ≡ Some w →
        Agrees n (wants_of n) }
{}

/// A call that is done is done by its row of the rules, and its note is the one that they ask for.
pub fn calls_are_rows()
    ensures { (old new : Node) (call : Call) →
        Does old (call_of old (want_at old call)) (clock_of old + 1) events.Act (call_note old call) new →
        IsCalled old call new }
{}

/// What holds a call up is what holds its step up by the rules.
pub fn calls_halt_as_the_rules_say()
    ensures { (n : Node) (call : Call) →
        call_stop n call ≡ option_map halt_named (halt_by (node_at n) (want_at n call)) }
{}

/// The next message of an end is the first one there that isn't taken.
pub fn heads_are_untaken()
    ensures { (n : Node) (e : EndId) (m : Msg) → next_head n e ≡ Some m → IsHead n e m }
{}

/// The same of a request and of an accept that are done.
pub fn openings_are_rows()
    ensures requests { (old new : Node) (place : Place) (to : ℕ) →
        Does old (call_of old (wanted.requests place to)) (clock_of old + 1) events.Act
        (request_note old to) new →
        IsRowOf old (wanted.requests place to) (request_note old to) new }
    ensures accepts { (old new : Node) (place : Place) (from : ℕ) →
        Does old (call_of old (wanted.accepts place from)) (clock_of old + 1) events.Act
        (accept_note old from) new →
        IsRowOf old (wanted.accepts place from) (accept_note old from) new }
{}

/// What holds a request or an accept up is what holds its step up by the rules.
pub fn openings_halt_as_the_rules_say()
    ensures requests { (n : Node) (place : Place) (to : ℕ) → request_stop (requests_of n)
        ≡ option_map halt_named (halt_by (node_at n) (wanted.requests place to)) }
    ensures accepts { (n : Node) (place : Place) (from : ℕ) → accept_stop (offers_of n) from
        ≡ option_map halt_named (halt_by (node_at n) (wanted.accepts place from)) }
{}
