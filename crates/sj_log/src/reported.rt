//! Which of the rules that a line breaks is reported.
ghost use Rattle.std.specs.Prelude.{◌≡◌};
ghost use Rattle.sj_log.specs.Fields.{both, ended, first_of, rank};

use crate::refusal::LogRule;
use sj_fields::Fields;

// Which of the rules that one line breaks is reported: the one with the least number.
fn order(rule: LogRule) -> u8
    ensures { result ≡ rank rule }
{
    match rule {
        LogRule::L1 => 0,
        LogRule::L3 => 1,
        LogRule::L2 => 2,
        LogRule::L4 => 3,
    }
}

fn told(r: LogRule, s: LogRule) -> LogRule
    ensures { result ≡ first_of r s }
{
    if order(r) <= order(s) { r } else { s }
}

/// Both values, or the rule that is reported.
#[tactic(auto, unfolding(crate::specs::Fields::both))]
pub(crate) fn together<A: Copy, B: Copy>(
    a: Result<A, LogRule>,
    b: Result<B, LogRule>,
) -> Result<(A, B), LogRule>
    ensures { result ≡ both a b }
{
    match a {
        Ok(a) => match b {
            Ok(b) => Ok((a, b)),
            Err(s) => Err(s),
        },
        Err(r) => match b {
            Ok(_) => Err(r),
            Err(s) => Err(told(r, s)),
        },
    }
}

/// Whether no word is left.
pub(crate) fn ended(fields: &Fields<'_>) -> Result<(), LogRule>
    ensures { result ≡ ended fields.now }
{
    if fields.is_empty() {
        Ok(())
    } else {
        Err(LogRule::L1)
    }
}
