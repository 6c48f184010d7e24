//! What two ways leave, compared, and what is known put in words.

use crate::context::{Context, Exit, Site, stop_with};
use crate::env::{Env, LiveEnd};
use crate::marks::Span;
use crate::pieces::Piece::{Place, Said, Scalar, Word};
use crate::pieces::{Piece, put_pieces};
use sj_base::NoMemory;
use sj_check::CheckRule;
use sj_lang::{Proto, same};
use sj_text::put;

/// Whether both know the same live ends at the same places; else what differs is said.
pub(crate) fn compare(
    context: Context<'_>,
    rule: CheckRule,
    site: Site,
    one: &Env,
    other: &Env,
) -> Result<(), Exit> {
    for end in &one.ends {
        match other.place(end.name) {
            Some(place) if same(&end.place, place) => {}
            Some(place) => return Err(apart(context, rule, site, end, place)),
            None => return Err(one_sided(context, rule, site, end.name, true)),
        }
    }
    for end in &other.ends {
        if one.place(end.name).is_none() {
            return Err(one_sided(context, rule, site, end.name, false));
        }
    }
    Ok(())
}

fn first_way(rule: CheckRule) -> Piece<'static> {
    if rule == CheckRule::TurnDiffers {
        Said(b" before the loop")
    } else {
        Said(b" after the first block")
    }
}

fn other_way(rule: CheckRule) -> Piece<'static> {
    if rule == CheckRule::TurnDiffers {
        Said(b" after a turn")
    } else {
        Said(b" after a later one")
    }
}

// An end that is at another place on the other way.
fn apart<'x>(
    context: Context<'_>,
    rule: CheckRule,
    site: Site,
    end: &'x LiveEnd,
    place: &'x Proto,
) -> Exit {
    context.stop(
        rule,
        site,
        Span::Token(0),
        &[
            Said(b"ahead of "),
            Word(end.name),
            Said(b" is "),
            Place(&end.place),
            first_way(rule),
            Said(b", and "),
            Place(place),
            other_way(rule),
        ],
    )
}

// An end that is live on one of the two ways alone.
fn one_sided(context: Context<'_>, rule: CheckRule, site: Site, name: u16, first: bool) -> Exit {
    let ways = if first {
        [first_way(rule), other_way(rule)]
    } else {
        [other_way(rule), first_way(rule)]
    };
    context.stop(
        rule,
        site,
        Span::Token(0),
        &[
            Word(name),
            Said(b" is live"),
            ways[0],
            Said(b", and not"),
            ways[1],
        ],
    )
}

/// No end of that name is live: which are, with their places.
pub(crate) fn tell_dead(
    context: Context<'_>,
    env: &Env,
    rule: CheckRule,
    site: Site,
    mark: Span,
) -> Exit {
    let mut knew = Vec::new(context.alloc);
    match put_live(context, &mut knew, env) {
        Ok(()) => stop_with(rule, site, mark, knew),
        Err(NoMemory) => Exit::NoMemory,
    }
}

/// The live ends, each with what is ahead of it.
pub(crate) fn put_live(
    context: Context<'_>,
    text: &mut Vec<u8>,
    env: &Env,
) -> Result<(), NoMemory> {
    if env.ends.is_empty() {
        return put(text, b"no end is live here");
    }
    put(text, b"live here: ")?;
    for (i, end) in env.ends.iter().enumerate() {
        let gap = if i == 0 { Said(b"") } else { Said(b"; ") };
        put_pieces(
            context.alloc,
            text,
            &context.file.names,
            &[
                gap,
                Word(end.name),
                Said(b", ahead of it "),
                Place(&end.place),
            ],
        )?;
    }
    Ok(())
}

/// The variables that are known, and whether that name is one of an end.
pub(crate) fn put_variables(
    context: Context<'_>,
    text: &mut Vec<u8>,
    env: &Env,
    name: u16,
) -> Result<(), NoMemory> {
    let names = &context.file.names;
    if env.place(name).is_some() {
        let pieces = [Word(name), Said(b" is an end; ")];
        put_pieces(context.alloc, text, names, &pieces)?;
    }
    if env.variables.is_empty() {
        return put(text, b"no variable is known here");
    }
    put(text, b"variables that are known here: ")?;
    for (i, variable) in env.variables.iter().enumerate() {
        let gap = if i == 0 { Said(b"") } else { Said(b", ") };
        let pieces = [
            gap,
            Word(variable.name),
            Said(b" of kind "),
            Scalar(variable.kind),
        ];
        put_pieces(context.alloc, text, names, &pieces)?;
    }
    Ok(())
}
