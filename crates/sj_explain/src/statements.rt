//! Statements without blocks: what each does to what is known, or its first fault.

use crate::context::{Context, Exit, Site, stop_with};
use crate::env::Env;
use crate::expressions::{kind_of, want};
use crate::joins::tell_dead;
use crate::marks::Span;
use crate::names::{free, free_of_ends, no_party, no_protocol, same_kind};
use crate::pieces::Piece::{Place, Said, Scalar as KindName, Word};
use crate::pieces::{Piece, put_pieces};
use crate::places::copied_arm;
use crate::scalars::carries;
use sj_check::CheckRule;
use sj_lang::{Expr, Item, Kind, Proto, Scalar, copied, same, stands_for};

/// What is ahead of the end that token of the statement names.
pub(crate) fn live<'a>(
    context: Context<'_>,
    env: &'a Env,
    site: Site,
    token: usize,
    end: u16,
) -> Result<&'a Proto, Exit> {
    match env.place(end) {
        Some(place) => Ok(place),
        None => Err(tell_dead(context, env, CheckRule::NotThere, site, Span::Token(token))),
    }
}

/// The place begins with another item than the statement wants.
pub(crate) fn other_action<'x>(
    context: Context<'_>,
    site: Site,
    token: usize,
    end: u16,
    place: &'x Proto,
    wants: &'x [u8],
) -> Exit {
    context.stop(
        CheckRule::OtherAction,
        site,
        Span::Token(token),
        &[
            Said(b"ahead of "),
            Word(end),
            Said(b" is "),
            Place(place),
            Said(b"; this statement wants "),
            Said(wants),
            Said(b" first"),
        ],
    )
}

// What is of another kind than the item that stands first carries.
fn other_kind(
    context: Context<'_>,
    site: Site,
    mark: Span,
    what: &[Piece<'_>],
    end: u16,
    place: &Proto,
) -> Exit {
    let mut knew = Vec::new(context.alloc);
    let names = &context.file.names;
    let rest = [
        Said(b", and ahead of "),
        Word(end),
        Said(b" is "),
        Place(place),
    ];
    if put_pieces(context.alloc, &mut knew, names, what).is_err()
        || put_pieces(context.alloc, &mut knew, names, &rest).is_err()
    {
        return Exit::NoMemory;
    }
    stop_with(CheckRule::OtherKind, site, mark, knew)
}

pub(crate) fn send(
    context: Context<'_>,
    env: &mut Env,
    site: Site,
    end: u16,
    value: &Expr,
) -> Result<(), Exit> {
    let place = live(context, env, site, 1, end)?;
    let Some(Item::Send(kind)) = place.items.first() else {
        return Err(other_action(context, site, 1, end, place, b"`!<..>`"));
    };
    let sent = kind_of(context, env, site, 2, value)?;
    if !carries(kind, sent) {
        let what = [Said(b"the value is of kind "), KindName(sent)];
        return Err(other_kind(context, site, Span::Value(2), &what, end, place));
    }
    env.pass(context.alloc, end)?;
    Ok(())
}

pub(crate) fn delegate(
    context: Context<'_>,
    env: &mut Env,
    site: Site,
    end: u16,
    sent: u16,
) -> Result<(), Exit> {
    let place = live(context, env, site, 1, end)?;
    let given = live(context, env, site, 2, sent)?;
    if end == sent {
        let what = [Word(sent), Said(b" is the carrier itself")];
        return Err(context.stop(CheckRule::NotToDelegate, site, Span::Token(2), &what));
    }
    let Some(Item::Send(kind)) = place.items.first() else {
        return Err(other_action(context, site, 1, end, place, b"`!<..>`"));
    };
    let what = [Said(b"ahead of "), Word(sent), Said(b" is "), Place(given)];
    let Kind::Session(carried) = kind else {
        return Err(other_kind(context, site, Span::Token(2), &what, end, place));
    };
    if given.items.is_empty() {
        return Err(context.stop(CheckRule::NotToDelegate, site, Span::Token(2), &what));
    }
    if !stands_for(given, carried) {
        return Err(other_kind(context, site, Span::Token(2), &what, end, place));
    }
    env.remove(sent);
    env.pass(context.alloc, end)?;
    Ok(())
}

pub(crate) fn take_value(
    context: Context<'_>,
    env: &mut Env,
    site: Site,
    end: u16,
    into: u16,
    kind: Scalar,
) -> Result<(), Exit> {
    let place = live(context, env, site, 1, end)?;
    let Some(Item::Recv(carried)) = place.items.first() else {
        return Err(other_action(context, site, 1, end, place, b"`?(..)`"));
    };
    if !carries(carried, kind) {
        let what = [
            Said(b"a value of kind "),
            KindName(kind),
            Said(b" is wanted"),
        ];
        return Err(other_kind(context, site, Span::Token(3), &what, end, place));
    }
    free_of_ends(context, env, site, 2, into)?;
    same_kind(context, env, site, 2, into, kind)?;
    env.pass(context.alloc, end)?;
    env.learn(into, kind)?;
    Ok(())
}

pub(crate) fn take_end(
    context: Context<'_>,
    env: &mut Env,
    site: Site,
    end: u16,
    into: u16,
    protocol: u16,
) -> Result<(), Exit> {
    let place = live(context, env, site, 1, end)?;
    let Some(body) = context.body(protocol) else {
        return Err(no_protocol(context, site, 4));
    };
    let Some(Item::Recv(carried)) = place.items.first() else {
        return Err(other_action(context, site, 1, end, place, b"`?(..)`"));
    };
    if !is_session_of(carried, body) {
        return Err(other_session(context, site, protocol, body, end, place));
    }
    free(context, env, site, 2, into)?;
    let taken = copied(context.alloc, body)?;
    env.pass(context.alloc, end)?;
    env.put(into, taken)?;
    Ok(())
}

// The protocol isn't what is carried.
fn other_session(
    context: Context<'_>,
    site: Site,
    protocol: u16,
    body: &Proto,
    end: u16,
    place: &Proto,
) -> Exit {
    let what = [Word(protocol), Said(b" is "), Place(body)];
    other_kind(context, site, Span::Token(4), &what, end, place)
}

fn is_session_of(carried: &Kind, body: &Proto) -> bool {
    match carried {
        Kind::Session(place) => same(place, body),
        _ => false,
    }
}

pub(crate) fn select(
    context: Context<'_>,
    env: &mut Env,
    site: Site,
    end: u16,
    label: u16,
) -> Result<(), Exit> {
    let place = live(context, env, site, 1, end)?;
    let Some(Item::Select(choice)) = place.items.first() else {
        return Err(other_action(context, site, 1, end, place, b"`!{..}`"));
    };
    let Some(arm) = copied_arm(context.alloc, place, choice, label)? else {
        let what = [Said(b"ahead of "), Word(end), Said(b" is "), Place(place)];
        return Err(context.stop(CheckRule::NoLabel, site, Span::Token(2), &what));
    };
    env.put(end, arm)?;
    Ok(())
}

pub(crate) fn let_be(
    context: Context<'_>,
    env: &mut Env,
    site: Site,
    name: u16,
    value: &Expr,
) -> Result<(), Exit> {
    let kind = kind_of(context, env, site, 3, value)?;
    free_of_ends(context, env, site, 1, name)?;
    same_kind(context, env, site, 1, name, kind)?;
    env.learn(name, kind)?;
    Ok(())
}

pub(crate) fn close(context: Context<'_>, env: &mut Env, site: Site, end: u16) -> Result<(), Exit> {
    let place = live(context, env, site, 1, end)?;
    if !place.items.is_empty() {
        let what = [Said(b"ahead of "), Word(end), Said(b" is "), Place(place)];
        return Err(context.stop(CheckRule::ClosedEarly, site, Span::Token(1), &what));
    }
    env.remove(end);
    Ok(())
}

/// A request or an accept.
pub(crate) fn open(
    context: Context<'_>,
    env: &mut Env,
    site: Site,
    end: u16,
    protocol: u16,
    party: u16,
) -> Result<(), Exit> {
    let Some(body) = context.body(protocol) else {
        return Err(no_protocol(context, site, 2));
    };
    if !context.has_party(party) {
        return Err(no_party(context, site, 4));
    }
    free(context, env, site, 1, end)?;
    let place = copied(context.alloc, body)?;
    env.put(end, place)?;
    Ok(())
}
