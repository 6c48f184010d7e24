//! Definitions tried on files whose transcripts are known; each clause computes.
//!
//! - `short_sessions_end_so`, `handovers_end_so`, `agencies_end_so`: whole transcripts.
//! - `openings_end_so`, `widths_end_so`: sessions opened at run time, and
//!   choices of different width.
//! - `opposite_orders_block`: two sessions that are taken in opposite order.
//! - `numbers_wrap`, `loop_counts_are_clamped`: expressions and counts.

ghost use Rattle.std.specs.Prelude.{◌≡◌, Some, negsuc, pos, ◌+◌};
ghost use Rattle.sj_lang.specs.Term as terms;
ghost use Rattle.sj_lang.specs.declared.party.Op.TheVariants.{Add, Mul, Sub};
ghost use Rattle.sj_semantics.specs.Run.{end_of};
ghost use Rattle.sj_semantics.specs.State.{verdict_of};
ghost use Rattle.sj_semantics.specs.Transcript.{transcript_of};
ghost use Rattle.sj_semantics.specs.declared.Value.TheVariants.{Int};
ghost use Rattle.sj_semantics.specs.Value.{no_vars, turns_of, worth, limit_of_turns};
ghost use Rattle.sj_semantics.specs.declared.Verdict.TheVariants.{Blocked};
ghost use Rattle.sj_semantics_laws.specs.AgencySamples.{agency, agency_text, refused_text};
ghost use Rattle.sj_semantics_laws.specs.OpeningSamples.{accepted, accepted_text, unaccepted, unaccepted_text, unrequested, unrequested_text, narrower, narrower_text, standing_in, standing_in_text};
ghost use Rattle.sj_semantics_laws.specs.HandoverSamples.{both_moved, both_moved_text, delegation, delegation_text, returning, returning_text, to_its_peer, to_its_peer_text, to_itself, to_itself_text};
ghost use Rattle.sj_semantics_laws.specs.Samples.{crossed, crossed_text, greeting, greeting_text, silent, silent_text, turning, turnless_text, wrapping, wrapping_text, last_int};
/// A number, a number that wraps, nothing, two sessions that block, and a loop
/// that sends `stop` alone.
pub fn short_sessions_end_so()
    ensures greeting { transcript_of greeting (end_of greeting) ≡ greeting_text }
    ensures wrapping { transcript_of wrapping (end_of wrapping) ≡ wrapping_text }
    ensures silent { transcript_of silent (end_of silent) ≡ silent_text }
    ensures crossed { transcript_of crossed (end_of crossed) ≡ crossed_text }
    ensures turnless { transcript_of (turning 0) (end_of (turning 0)) ≡ turnless_text }
{}

/// Ends that go on, come back, move at once, and go to the other end's holder or to their own.
pub fn handovers_end_so()
    ensures delegation { transcript_of delegation (end_of delegation) ≡ delegation_text }
    ensures returning { transcript_of returning (end_of returning) ≡ returning_text }
    ensures both_moved { transcript_of both_moved (end_of both_moved) ≡ both_moved_text }
    ensures to_its_peer { transcript_of to_its_peer (end_of to_its_peer) ≡ to_its_peer_text }
    ensures to_itself { transcript_of to_itself (end_of to_itself) ≡ to_itself_text }
{}

/// The agency delegates to the supplier where the customer takes at most 400, and not at most 200.
pub fn agencies_end_so()
    ensures agency { transcript_of (agency 400) (end_of (agency 400)) ≡ agency_text }
    ensures refused { transcript_of (agency 200) (end_of (agency 200)) ≡ refused_text }
{}

/// A session that is requested and accepted, one that nobody accepts, and an
/// accept without a request.
pub fn openings_end_so()
    ensures accepted { transcript_of accepted (end_of accepted) ≡ accepted_text }
    ensures unaccepted { transcript_of unaccepted (end_of unaccepted) ≡ unaccepted_text }
    ensures unrequested { transcript_of unrequested (end_of unrequested) ≡ unrequested_text }
{}

/// A selection that is narrower than its branching, and an end that stands for a narrower one.
pub fn widths_end_so()
    ensures narrower { transcript_of narrower (end_of narrower) ≡ narrower_text }
    ensures standing_in { transcript_of standing_in (end_of standing_in) ≡ standing_in_text }
{}

/// Two parties that take two sessions in opposite order wait for each other.
pub fn opposite_orders_block()
    ensures { verdict_of (end_of crossed) ≡ Blocked }
{}

/// A sum, a product and a difference beyond 64 bits wrap.
pub fn numbers_wrap()
    ensures sum { worth no_vars (terms.two Add (terms.int (pos last_int)) (terms.int (pos 1)))
        ≡ Some (Int (negsuc last_int)) }
    ensures product { worth no_vars (terms.two Mul (terms.int (negsuc last_int)) (terms.int (negsuc 0)))
        ≡ Some (Int (negsuc last_int)) }
    ensures difference { worth no_vars (terms.two Sub (terms.int (negsuc last_int)) (terms.int (pos 1)))
        ≡ Some (Int (pos last_int)) }
{}

/// Counts are clamped to 0 to 1,000.
pub fn loop_counts_are_clamped()
    ensures largest { turns_of (Int (pos limit_of_turns)) ≡ Some limit_of_turns }
    ensures above { turns_of (Int (pos (limit_of_turns + 1))) ≡ Some limit_of_turns }
    ensures below { turns_of (Int (negsuc 0)) ≡ Some 0 }
{}
