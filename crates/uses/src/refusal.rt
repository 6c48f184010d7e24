//! Why a text has no accepted file.
use porcharnica::{CheckRefusal, CheckRule, Fault, File, NoMemory, ParseRefusal};
use thiserror::Error;

/// Why a text has no accepted file, in the order of refusals.
#[derive(Clone, Copy, Debug, PartialEq, Eq, Error)]
pub enum TextRefusal {
    /// It stands for no file: its first fault.
    #[error("no file: line {}, column {}", .0.line, .0.column)]
    At(Fault),
    /// Its file breaks that rule first, on that line.
    #[error("C{} at {line}", .rule.number())]
    Breaks { rule: CheckRule, line: u32 },
    #[error("no memory")]
    NoMemory,
}

impl From<NoMemory> for TextRefusal {
    ghost use Rattle.std.specs.Prelude.{◌≡◌};
    ghost use Rattle.uses.specs.declared.refusal.TextRefusal.TheVariants as refusals;

    ghost from_gives = { λ _ e. e ≡ refusals.NoMemory };

    fn from(_: NoMemory) -> Self {
        TextRefusal::NoMemory
    }
}

impl From<ParseRefusal> for TextRefusal {
    ghost use Rattle.std.specs.Prelude.{◌≡◌};
    ghost use Rattle.uses.specs.Refusals.{read_refusal};

    ghost from_gives = { λ refusal e. e ≡ read_refusal refusal };

    fn from(refusal: ParseRefusal) -> Self {
        match refusal {
            ParseRefusal::At(fault) => TextRefusal::At(fault),
            ParseRefusal::NoMemory => TextRefusal::NoMemory,
        }
    }
}

impl From<(File, CheckRefusal)> for TextRefusal {
    ghost use Rattle.std.specs.Prelude.{◌≡◌};
    ghost use Rattle.uses.specs.Refusals.{check_refusal};

    ghost from_gives = { λ refused e. e ≡ check_refusal refused.1 };

    fn from(refused: (File, CheckRefusal)) -> Self {
        match refused.1 {
            CheckRefusal::At { rule, line } => TextRefusal::Breaks { rule, line },
            CheckRefusal::NoMemory => TextRefusal::NoMemory,
        }
    }
}
