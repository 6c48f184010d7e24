//! Processes of parties, one after another, over a server in memory. They answer none only where the
//! test itself is at fault, or memory is out.

use crate::ends::ends;
use crate::link::Deed;
use crate::server::Server;
use crate::standing::Entry;
use sj_base::NoMemory;
use sj_check::{Accepted, check};
use sj_grammar::is;
use sj_party::parse_file;
use sj_proto::Tokens;
use sj_remote::Conn;
use sj_remote_run::{Outcome, Play, PlayRefusal, play_party};
use sj_streams::lines_of;
use sj_text::put;
use std::alloc::Global;
use std::cell::RefCell;

/// A sends a number to b, and both close.
pub(crate) const FILE: &[u8] =
    b"protocol p { begin.!<int> }\nprotocol q { begin.?(int) }\nparty a { send x 1; close x; }\nparty b { recv y n int; close y; }\nconnect a x p to b y q;\n";

/// The file, where it is accepted.
pub(crate) fn accepted(alloc: Global, text: &[u8]) -> Option<Accepted> {
    if text.len() > Tokens::MOST_BYTES {
        return None;
    }
    match parse_file(alloc, text) {
        Ok(file) => match check(alloc, file) {
            Ok(accepted) => Some(accepted),
            Err(_) => None,
        },
        Err(_) => None,
    }
}

/// A new connection at the server. Answers whether there is one.
fn connect(server: &RefCell<Server>, due: Option<(u64, Deed)>) -> bool {
    match server.try_borrow_mut() {
        Ok(mut server) => {
            server.connect(due);
            true
        }
        Err(_) => false,
    }
}

/// A process of the party: it connects, and plays until there is a cause to stop.
pub(crate) fn process(
    alloc: Global,
    server: &RefCell<Server>,
    accepted: &Accepted,
    party: u16,
    password: Option<&[u8]>,
    due: Option<(u64, Deed)>,
) -> Option<Result<Outcome, PlayRefusal>> {
    if usize::from(party) >= accepted.file().parties.len() || !connect(server, due) {
        return None;
    }
    let how = Play {
        run: b"r",
        party,
        user: None,
        password,
        wait: 1,
    };
    let (from, to) = ends(server);
    match Conn::new(alloc, from, to) {
        Ok(mut conn) => Some(play_party(alloc, &mut conn, accepted, &how)),
        Err(_) => None,
    }
}

/// A process of the file's first party at a server of its own, which wants that password.
pub(crate) fn alone(
    alloc: Global,
    wanted: Option<&'static [u8]>,
    given: Option<&[u8]>,
    due: Option<(u64, Deed)>,
) -> Option<Result<Outcome, PlayRefusal>> {
    let accepted = accepted(alloc, FILE)?;
    let server = RefCell::new(Server::new(alloc, wanted));
    process(alloc, &server, &accepted, 0, given, due)
}

/// The lines of the entries, with a bar after each entry.
fn put_lines(text: &mut Vec<u8>, entries: &[Entry]) -> Result<(), NoMemory> {
    for entry in entries {
        if let Some(lines) = lines_of(&entry.words) {
            put(text, lines)?;
        }
        put(text, b"|")?;
    }
    Ok(())
}

/// Whether the entries have those lines.
fn have_lines(alloc: Global, entries: &[Entry], wanted: &[u8]) -> bool {
    let mut text = Vec::new(alloc);
    put_lines(&mut text, entries).is_ok() && is(&text, wanted)
}

/// Whether those lines, and no more, stand in the stream under that key.
pub(crate) fn stand(alloc: Global, server: &RefCell<Server>, key: &[u8], wanted: &[u8]) -> bool {
    match server.try_borrow() {
        Ok(server) => have_lines(alloc, server.standing.entries(key), wanted),
        Err(_) => false,
    }
}
