//! Laws of lines, over definitions alone.
//!
//! - `lines_are_refused_as_in_a_talk`: by the same rules, in the same order.

ghost use Rattle.std.specs.Prelude.{◌≡◌, Some};
ghost use Rattle.sj_seat_lines.specs.Rules.{SeesAlike, Seen, last_rule, rule_of_line, rule_or};
ghost use Rattle.sj_talk.specs.Forms.{FormAt};
ghost use Rattle.sj_talk.specs.Rules.{refusal_of};
ghost use Rattle.sj_talk.specs.TalkWorld.{TalkWorld};

/// What a line says is refused by the rule that refuses it in a talk in which names and places are the
/// same. The rules that no guard knows come last in a talk: nothing is there to take, and the sent end
/// was delegated so often.
pub fn lines_are_refused_as_in_a_talk()
    ensures { (s : Seen) (t : TalkWorld) (says : FormAt) → SeesAlike s t →
        refusal_of t (Some says) ≡ rule_or (rule_of_line s says) (last_rule t says) }
{}
