//! Numbers among the words: decimal digits without a leading zero.
ghost use Rattle.std.specs.Prelude.{◌≡◌, ◌≤◌, ℕ, Option, IfSome, None, decimal, option_map};
ghost use Rattle.sj_command.specs.Task.{IsCount, IsParty, StandsForLooks, StandsForWorkers};

use itoa::Buffer;

/// The most messages in each loop.
const MOST_MESSAGES: u32 = 1000;

/// The highest number of a party.
const LAST_PARTY: u32 = 15;

/// The looks in vain after which a party stops, where no word says how many.
pub const USUAL_LOOKS: u32 = 1000;

/// The most looks.
const MOST_LOOKS: u32 = 1_000_000;

/// The most workers.
const MOST_WORKERS: u32 = 16;

/// The number of messages, from 1 to 1,000, that the text is.
pub(crate) fn count_in(text: &str) -> Option<u16>
    ensures some { IfSome result (λ n. (text.now ≡ decimal n) × IsCount n) }
    ensures none { result ≡ None → (n : ℕ) → IsCount n → text.now ≡ decimal n → ⊥ }
{
    match number_in(text, 1, MOST_MESSAGES) {
        Some(n) => Some(n as u16),
        None => None,
    }
}

/// The number of a party, from 0 to 15, that the text is.
pub(crate) fn party_in(text: &str) -> Option<u16>
    ensures some { IfSome result (λ n. (text.now ≡ decimal n) × IsParty n) }
    ensures none { result ≡ None → (n : ℕ) → IsParty n → text.now ≡ decimal n → ⊥ }
{
    match number_in(text, 0, LAST_PARTY) {
        Some(n) => Some(n as u16),
        None => None,
    }
}

/// The number of looks that the option, or its absence, stands for.
pub(crate) fn looks_in(option: Option<&str>) -> Option<u32>
    ensures some { IfSome result (StandsForLooks (option_map (λ s. s.now) option.entry)) }
    ensures none { result ≡ None → (n : ℕ)
        → StandsForLooks (option_map (λ s. s.now) option.entry) n → ⊥ }
{
    match option {
        None => Some(USUAL_LOOKS),
        Some(text) => number_in(text, 0, MOST_LOOKS),
    }
}

/// The number of workers that the option stands for, and none where there is no option.
pub(crate) fn workers_in(option: Option<&str>) -> Option<Option<u16>>
    ensures some { IfSome result (StandsForWorkers (option_map (λ s. s.now) option.entry)) }
    ensures none { result ≡ None → (n : Option ℕ)
        → StandsForWorkers (option_map (λ s. s.now) option.entry) n → ⊥ }
{
    let Some(text) = option else {
        return Some(None);
    };
    match number_in(text, 1, MOST_WORKERS) {
        Some(n) => Some(Some(n as u16)),
        None => None,
    }
}

// The number within these bounds that the text is.
fn number_in(text: &str, least: u32, most: u32) -> Option<u32>
    ensures some { IfSome result (λ n. (text.now ≡ decimal n) × (least ≤ n) × (n ≤ most)) }
    ensures none { result ≡ None → (n : ℕ) → least ≤ n → n ≤ most → text.now ≡ decimal n → ⊥ }
{
    match text.parse::<u32>() {
        // Other spellings of a number are read too, as `01` and `+1`.
        Ok(n) if least <= n && n <= most && Buffer::new().format(n) == text => Some(n),
        _ => None,
    }
}
