//! The rules that a file can break, and the refusal that names one.
ghost use Rattle.std.specs.Prelude.{◌≡◌};
ghost use Rattle.sj_check.specs.Rules.{number_of};
ghost use Rattle.sj_check.specs.declared.refusal.CheckRefusal.TheVariants.{At};

use crate::CheckRefusal;

/// A rule that a file can break, in the order of their numbers.
#[derive(Clone, Copy, Debug, PartialEq, Eq)]
pub enum CheckRule {
    /// No protocol of that name.
    NoProtocol,
    /// No party of that name.
    NoParty,
    /// The name is in use, or a choice names a label twice.
    NameInUse,
    /// The protocols of a connection don't meet.
    DoNotMeet,
    /// No live end, or no variable, of that name.
    NotThere,
    /// The place begins with another action, or is empty.
    OtherAction,
    /// Another kind.
    OtherKind,
    /// No arm of the choice has that label.
    NoLabel,
    /// Arms leave different live ends, or places.
    ArmsDiffer,
    /// A loop's body leaves other live ends, or places, than there were before the loop.
    TurnDiffers,
    /// An end is closed before its place is empty.
    ClosedEarly,
    /// An end is live after the party's body.
    LeftOpen,
    /// The carrier itself, or an end whose place is empty, is delegated.
    NotToDelegate,
    /// The arms aren't the labels of the choice, each once, or there are none.
    OtherArms,
    /// An accept and a request between two parties don't meet.
    AcceptUnmet,
}

impl CheckRule {
    /// Its number: that of C1 is 1.
    pub fn number(self) -> u8
        ensures { result ≡ number_of self }
    {
        match self {
            CheckRule::NoProtocol => 1,
            CheckRule::NoParty => 2,
            CheckRule::NameInUse => 3,
            CheckRule::DoNotMeet => 4,
            CheckRule::NotThere => 5,
            CheckRule::OtherAction => 6,
            CheckRule::OtherKind => 7,
            CheckRule::NoLabel => 8,
            CheckRule::ArmsDiffer => 9,
            CheckRule::TurnDiffers => 10,
            CheckRule::ClosedEarly => 11,
            CheckRule::LeftOpen => 12,
            CheckRule::NotToDelegate => 13,
            CheckRule::OtherArms => 14,
            CheckRule::AcceptUnmet => 15,
        }
    }
}

/// The refusal of a file that breaks the rule at that line.
pub fn broken(rule: CheckRule, line: u32) -> CheckRefusal
    ensures { result ≡ At rule line }
{
    CheckRefusal::At { rule, line }
}
