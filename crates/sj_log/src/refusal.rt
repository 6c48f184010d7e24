//! Why bytes are no log.
ghost use Rattle.std.specs.Prelude.{◌≡◌};
ghost use Rattle.sj_log.specs.Rules.{rule_number};

use sj_base::NoMemory;
use std::alloc::AllocFailed;
use thiserror::Error;

/// What a line of a log breaks: of its broken rules the first of L1, L3 and L2.
#[derive(Clone, Copy, Debug, PartialEq, Eq)]
pub(crate) enum LogRule {
    /// No form of a line.
    L1,
    /// A party, a label or a text that the file doesn't have.
    L2,
    /// A number with a needless zero or sign, or out of its range.
    L3,
    /// A last line without its newline, whatever else it breaks.
    L4,
}

/// The number by which a refusal names the rule.
pub(crate) fn number_of(rule: LogRule) -> u8
    ensures { result ≡ rule_number rule }
{
    match rule {
        LogRule::L1 => 1,
        LogRule::L2 => 2,
        LogRule::L3 => 3,
        LogRule::L4 => 4,
    }
}

/// Why bytes aren't read as a log.
#[derive(Clone, Copy, Debug, PartialEq, Eq, Error)]
pub enum LogRefusal {
    /// The first line outside the grammar, by its number from 1 on, and the rule that it breaks.
    /// The rule is 1 for no form of a line, 2 for an unknown name, 3 for a wrong number, 4 for a
    /// line without its newline.
    #[error("L{rule} at {line}")]
    At { rule: u8, line: u32 },
    #[error("no memory")]
    NoMemory,
}

impl From<NoMemory> for LogRefusal {
    ghost use Rattle.std.specs.Prelude.{◌≡◌};
    ghost use Rattle.sj_log.specs.declared.refusal.LogRefusal.TheVariants as refusals;

    ghost from_gives = { λ _ e. e ≡ refusals.NoMemory };

    fn from(_: NoMemory) -> Self {
        LogRefusal::NoMemory
    }
}

impl<T: Drop> From<AllocFailed<T>> for LogRefusal {
    ghost use Rattle.std.specs.Prelude.{◌≡◌};
    ghost use Rattle.sj_log.specs.declared.refusal.LogRefusal.TheVariants as refusals;

    ghost from_gives = { λ _ e. e ≡ refusals.NoMemory };

    fn from(_: AllocFailed<T>) -> Self {
        LogRefusal::NoMemory
    }
}
