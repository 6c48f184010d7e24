//! Names in statements: that one is free, that a variable keeps its kind, and which protocols and
//! parties there are.

use crate::context::{Context, Exit, Site, stop_with};
use crate::env::Env;
use crate::marks::Span;
use crate::pieces::Piece::{Place, Said, Scalar as KindName, Word};
use crate::pieces::put_pieces;
use sj_base::NoMemory;
use sj_check::CheckRule;
use sj_lang::Scalar;

/// The name is one of no end and of no variable.
pub(crate) fn free(
    context: Context<'_>,
    env: &Env,
    site: Site,
    token: usize,
    name: u16,
) -> Result<(), Exit> {
    free_of_ends(context, env, site, token, name)?;
    match env.kind(name) {
        None => Ok(()),
        Some(kind) => {
            let what = [
                Word(name),
                Said(b" is a variable of kind "),
                KindName(kind),
                Said(b" here"),
            ];
            Err(context.stop(CheckRule::NameInUse, site, Span::Token(token), &what))
        }
    }
}

/// The name is one of no end.
pub(crate) fn free_of_ends(
    context: Context<'_>,
    env: &Env,
    site: Site,
    token: usize,
    name: u16,
) -> Result<(), Exit> {
    match env.place(name) {
        None => Ok(()),
        Some(place) => {
            let what = [
                Word(name),
                Said(b" is a live end here, ahead of it "),
                Place(place),
            ];
            Err(context.stop(CheckRule::NameInUse, site, Span::Token(token), &what))
        }
    }
}

/// A variable keeps its kind.
pub(crate) fn same_kind(
    context: Context<'_>,
    env: &Env,
    site: Site,
    token: usize,
    name: u16,
    kind: Scalar,
) -> Result<(), Exit> {
    match env.kind(name) {
        None => Ok(()),
        Some(old) if old == kind => Ok(()),
        Some(old) => {
            let what = [
                Word(name),
                Said(b" is a variable of kind "),
                KindName(old),
                Said(b" here, and would get kind "),
                KindName(kind),
            ];
            Err(context.stop(CheckRule::OtherKind, site, Span::Token(token), &what))
        }
    }
}

/// No protocol has the name that is that token; which there are.
pub(crate) fn no_protocol(context: Context<'_>, site: Site, token: usize) -> Exit {
    let mut knew = Vec::new(context.alloc);
    for (i, protocol) in context.file.protocols.iter().enumerate() {
        if put_listed(
            context,
            &mut knew,
            b"the file has protocols ",
            i,
            protocol.name,
        )
        .is_err()
        {
            return Exit::NoMemory;
        }
    }
    stop_with(CheckRule::NoProtocol, site, Span::Token(token), knew)
}

/// No party has the name that is that token; which there are.
pub(crate) fn no_party(context: Context<'_>, site: Site, token: usize) -> Exit {
    let mut knew = Vec::new(context.alloc);
    for (i, party) in context.file.parties.iter().enumerate() {
        if put_listed(context, &mut knew, b"the file has parties ", i, party.name).is_err() {
            return Exit::NoMemory;
        }
    }
    stop_with(CheckRule::NoParty, site, Span::Token(token), knew)
}

fn put_listed(
    context: Context<'_>,
    text: &mut Vec<u8>,
    lead: &[u8],
    i: usize,
    name: u16,
) -> Result<(), NoMemory> {
    let gap = if i == 0 { Said(lead) } else { Said(b", ") };
    let pieces = [gap, Word(name)];
    put_pieces(context.alloc, text, &context.file.names, &pieces)
}
