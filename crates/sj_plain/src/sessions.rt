//! The sessions that parties opened, in order of their numbers.
ghost use Rattle.std.specs.Prelude.{◌≡◌, ◌+◌, ◌<◌, ◌≤◌, ℕ, length, OnErr, OnOk};
ghost use Rattle.sj_plain.specs.Opened.{AreInOrder, IsInOrder, before_in, request_of, requests_in};
ghost use Rattle.sj_semantics.specs.Requests.{accepts, first_offer, opened_number, requests, requests_after};

use sj_base::NoMemory;
use sj_semantics::Opened;

/// How many sessions the party opened.
pub fn requests_of(opened: &[Opened], party: u16) -> usize
    requires order { (p : ℕ) × AreInOrder p opened.now }
    ensures { result ≡ length (requests_in opened.now party) }
{
    let (start, end) = own(opened, party);
    end - start
}

/// Of the sessions that the one party opened, the number of the first that is to the other and
/// isn't accepted.
pub fn offer(opened: &[Opened], from: u16, to: u16) -> Option<usize>
    requires order { (p : ℕ) × AreInOrder p opened.now }
    ensures { result ≡ first_offer to (requests_in opened.now from) }
{
    let (start, end) = own(opened, from);
    first_offered(&opened[start..end], from, to)
}

/// Of the sessions that the one party opened, the number of the first that is to the other and
/// isn't accepted.
fn first_offered(opened: &[Opened], from: u16, to: u16) -> Option<usize>
    ensures { result ≡ first_offer to (requests_in opened.now from) }
{
    let mut count = 0;
    for session in opened {
        if session.from == from {
            if session.to == to && session.second.is_none() {
                return Some(count);
            }
            count += 1;
        }
    }
    None
}

/// Where the sessions that the party opened begin, and where they end.
fn own(opened: &[Opened], party: u16) -> (usize, usize)
    requires order { (p : ℕ) × AreInOrder p opened.now }
    ensures start { result.0 ≡ before_in opened.now party }
    ensures end { result.1 ≡ before_in opened.now (party + 1) }
    ensures within { result.0 ≤ result.1 }
    ensures fits { result.1 ≤ length opened.now }
{
    let start = before(opened, u32::from(party));
    let end = before(opened, u32::from(party) + 1);
    (start, end)
}

/// How many sessions were opened by parties of lower numbers than this one.
fn before(opened: &[Opened], party: u32) -> usize
    requires order { (p : ℕ) × AreInOrder p opened.now }
    ensures { result ≡ before_in opened.now party }
{
    let mut low = 0;
    let mut high = opened.len();
    while low < high {
        let middle = low + (high - low) / 2;
        if u32::from(opened[middle].from) < party {
            low = middle + 1;
        } else {
            high = middle;
        }
    }
    low
}

/// Puts a session after the others that its requester opened.
pub fn add(opened: &mut Vec<Opened>, session: Opened) -> Result<(), NoMemory>
    requires order { AreInOrder session.from opened.old.items }
    requires number { session.sess
        ≡ opened_number session.from (length (requests_in opened.old.items session.from)) }
    ensures ok { OnOk result ((p : ℕ) → requests_in opened.new.items p
        ≡ requests_after session.from (requests (request_of session)) p
        (requests_in opened.old.items p)) }
    ensures order { OnOk result ((n : ℕ) → session.from < n →
        IsInOrder n opened.old.items → IsInOrder n opened.new.items) }
    ensures err { OnErr result (opened.new.items ≡ opened.old.items) }
{
    let (_, at) = own(opened, session.from);
    opened.insert(at, session)?;
    Ok(())
}

/// The number of a session: of those that the party opened, the one after so many others.
pub fn session_number(opened: &[Opened], from: u16, number: usize) -> u32
    requires there { number < length (requests_in opened.now from) }
    requires order { (p : ℕ) × AreInOrder p opened.now }
    ensures { result ≡ opened_number from number }
{
    let (start, _) = own(opened, from);
    opened[start + number].sess
}

/// Notes the name under which a session was accepted: of those that the party opened, the one of
/// that number.
pub fn accept(opened: &mut Vec<Opened>, from: u16, number: usize, name: u16)
    requires there { number < length (requests_in opened.old.items from) }
    requires order { (p : ℕ) × AreInOrder p opened.old.items }
    ensures ok { (p q : ℕ) → requests_in opened.new.items p
        ≡ requests_after q (accepts from number name) p (requests_in opened.old.items p) }
    ensures order { (n : ℕ) → IsInOrder n opened.old.items → IsInOrder n opened.new.items }
{
    let (start, _) = own(opened, from);
    let session = &mut opened[start + number];
    session.second = Some(name);
}
