//! The walk through a whole file, up to its first fault.

use crate::context::{Context, Exit, Finding, Seen, Site, stop_with};
use crate::env::Env;
use crate::joins::put_live;
use crate::marks::{Part, Span};
use crate::names::{no_party, no_protocol};
use crate::openings::meet_openings;
use crate::pieces::Piece::{Item as One, Number, Place, Said, Word};
use crate::walk::block;
use sj_base::NoMemory;
use sj_check::{CheckRule, is_same_end};
use sj_lang::{Arms, Connect, EndDecl, File, Item, Kind, Party, Proto, copied, meet_item, meets};
use std::alloc::Global;

/// The first fault of the file, as far as it is one on that line.
pub(crate) fn find_fault(
    alloc: Global,
    file: &File,
    line: u32,
) -> Result<Option<Finding>, NoMemory> {
    let context = Context { alloc, file };
    match walk(context, line) {
        Ok(()) => Ok(None),
        Err(Exit::Found(finding)) => Ok(Some(finding)),
        Err(Exit::NoMemory) => Err(NoMemory),
    }
}

fn walk(context: Context<'_>, line: u32) -> Result<(), Exit> {
    protocols(context, line)?;
    parties(context, line)?;
    connects(context, line)?;
    let mut seen = Seen { line, count: 0 };
    let mut named = Seen { line, count: 0 };
    for party in &context.file.parties {
        let site = named.enter(Part::Party, party.line);
        body(context, &mut seen, site, party)?;
    }
    meet_openings(context, line)
}

fn protocols(context: Context<'_>, line: u32) -> Result<(), Exit> {
    let mut seen = Seen { line, count: 0 };
    for (i, protocol) in context.file.protocols.iter().enumerate() {
        let site = seen.enter(Part::Protocol, protocol.line);
        for earlier in context.file.protocols.iter().take(i) {
            if earlier.name == protocol.name {
                return Err(named_before(context, site, 1, protocol.name, earlier.line));
            }
        }
        let mut labels = 0;
        if let Some(label) = twice(&protocol.body, &mut labels) {
            let what = [
                Word(label),
                Said(b" is the label of an earlier arm of the same choice"),
            ];
            return Err(context.stop(CheckRule::NameInUse, site, Span::Name(2, labels), &what));
        }
    }
    Ok(())
}

fn named_before(context: Context<'_>, site: Site, token: usize, name: u16, line: u32) -> Exit {
    let what = [
        Said(b"the one on line "),
        Number(u64::from(line)),
        Said(b" is named "),
        Word(name),
        Said(b", too"),
    ];
    context.stop(CheckRule::NameInUse, site, Span::Token(token), &what)
}

// The first label that stands twice in one choice; how many labels stand before it.
#[cycle(twice)]
fn twice(place: &Proto, labels: &mut usize) -> Option<u16> {
    for item in &place.items {
        if let Some(label) = twice_in(item, labels) {
            return Some(label);
        }
    }
    None
}

#[cycle(twice)]
fn twice_in(item: &Item, labels: &mut usize) -> Option<u16> {
    match item {
        Item::Send(kind) | Item::Recv(kind) => match kind {
            Kind::Session(place) => twice(place, labels),
            _ => None,
        },
        Item::Select(choice) | Item::Branch(choice) => { twice_among(choice, labels) }
        Item::OutLoop(body) | Item::InLoop(body) => twice(body, labels),
    }
}

#[cycle(twice)]
fn twice_among(choice: &Arms, labels: &mut usize) -> Option<u16> {
    for (i, arm) in choice.arms.iter().enumerate() {
        for earlier in choice.arms.iter().take(i) {
            if earlier.label == arm.label {
                return Some(arm.label);
            }
        }
        *labels = labels.saturating_add(1);
        if let Some(label) = twice(&arm.rest, labels) {
            return Some(label);
        }
    }
    None
}

fn parties(context: Context<'_>, line: u32) -> Result<(), Exit> {
    let mut seen = Seen { line, count: 0 };
    for (i, party) in context.file.parties.iter().enumerate() {
        let site = seen.enter(Part::Party, party.line);
        for earlier in context.file.parties.iter().take(i) {
            if earlier.name == party.name {
                return Err(named_before(context, site, 1, party.name, earlier.line));
            }
        }
    }
    Ok(())
}

fn connects(context: Context<'_>, line: u32) -> Result<(), Exit> {
    let mut seen = Seen { line, count: 0 };
    for (i, connect) in context.file.connects.iter().enumerate() {
        let site = seen.enter(Part::Connection, connect.line);
        let first = protocol_at(context, site, 1, connect.first)?;
        check_unused(context, site, 2, i, connect.first)?;
        let second = protocol_at(context, site, 5, connect.second)?;
        if connect.first.party == connect.second.party
            && connect.first.name == connect.second.name
        {
            let what = [
                Word(connect.second.name),
                Said(b" is the first end of this connection"),
            ];
            return Err(context.stop(CheckRule::NameInUse, site, Span::Token(6), &what));
        }
        check_unused(context, site, 6, i, connect.second)?;
        if !meets(first, second) {
            return Err(tell_unmet(context, site, first, second));
        }
    }
    Ok(())
}

// The end's protocol; its party and its protocol are there.
fn protocol_at<'a>(
    context: Context<'a>,
    site: Site,
    token: usize,
    end: EndDecl,
) -> Result<&'a Proto, Exit> {
    if !context.has_party(end.party) {
        return Err(no_party(context, site, token));
    }
    for protocol in &context.file.protocols {
        if protocol.name == end.protocol {
            return Ok(&protocol.body);
        }
    }
    Err(no_protocol(context, site, token.saturating_add(2)))
}

// No connection before has an end of that name at that party.
fn check_unused(
    context: Context<'_>,
    site: Site,
    token: usize,
    i: usize,
    end: EndDecl,
) -> Result<(), Exit> {
    for earlier in context.file.connects.iter().take(i) {
        if is_same_end(&earlier.first, &end) || is_same_end(&earlier.second, &end) {
            let what = [
                Word(end.party),
                Said(b" has an end of that name by the connection on line "),
                Number(u64::from(earlier.line)),
            ];
            return Err(context.stop(CheckRule::NameInUse, site, Span::Token(token), &what));
        }
    }
    Ok(())
}

// The two protocols of a connection, and where they part.
fn tell_unmet<'x>(context: Context<'_>, site: Site, first: &'x Proto, second: &'x Proto) -> Exit {
    let stop = match first_unmet(first, second) {
        Some((n, one, other)) => parted_items(context, site, n, one, other),
        None => tell_unequal(context, site, first, second),
    };
    match stop {
        Exit::Found(finding) => Exit::Found(Finding {
            rule: finding.rule,
            site: finding.site,
            mark: finding.mark,
            other: Some(Span::Token(7)),
            knew: finding.knew,
        }),
        Exit::NoMemory => Exit::NoMemory,
    }
}

fn parted_items<'x>(
    context: Context<'_>,
    site: Site,
    n: usize,
    one: &'x Item,
    other: &'x Item,
) -> Exit {
    let what = [
        Said(b"item "),
        Number((n as u64).saturating_add(1)),
        Said(b" of the two is "),
        One(one),
        Said(b" and "),
        One(other),
    ];
    context.stop(CheckRule::DoNotMeet, site, Span::Token(3), &what)
}

fn tell_unequal<'x>(context: Context<'_>, site: Site, first: &'x Proto, second: &'x Proto) -> Exit {
    let what = [
        Said(b"they are "),
        Place(first),
        Said(b" and "),
        Place(second),
        Said(b", of which one is longer"),
    ];
    context.stop(CheckRule::DoNotMeet, site, Span::Token(3), &what)
}

/// The first items of the two that don't meet.
fn first_unmet<'a>(first: &'a Proto, second: &'a Proto) -> Option<(usize, &'a Item, &'a Item)> {
    for (i, one) in first.items.iter().enumerate() {
        let other = second.items.get(i)?;
        if !meet_item(one, false, other) {
            return Some((i, one, other));
        }
    }
    None
}

fn body(context: Context<'_>, seen: &mut Seen, site: Site, party: &Party) -> Result<(), Exit> {
    let mut env = Env::new(context.alloc);
    for connect in &context.file.connects {
        put_ends(context, &mut env, party.name, connect)?;
    }
    block(context, &mut env, seen, &party.body)?;
    if env.ends.is_empty() {
        return Ok(());
    }
    let mut knew = Vec::new(context.alloc);
    put_live(context, &mut knew, &env)?;
    Err(stop_with(CheckRule::LeftOpen, site, Span::Token(1), knew))
}

// The ends that a connection gives the party.
fn put_ends(
    context: Context<'_>,
    env: &mut Env,
    party: u16,
    connect: &Connect,
) -> Result<(), NoMemory> {
    for end in [connect.first, connect.second] {
        if end.party == party {
            if let Some(body) = context.body(end.protocol) {
                let place = copied(context.alloc, body)?;
                env.put(end.name, place)?;
            }
        }
    }
    Ok(())
}
