//! The two ends of a connection to the server in memory.
ghost use Rattle.std.specs.Prelude.{None};

use crate::server::Server;
use sj_base::{Failed, Sink, Source};
use std::cell::RefCell;

/// What comes from the server. Where nothing is left to come, the end is there.
#[derive(Drop)]
pub(crate) struct FromServer<'a> {
    server: &'a RefCell<Server>,
    at_end: bool,
    faults: u64,
}

/// What goes to the server.
#[derive(Drop)]
pub(crate) struct ToServer<'a> {
    server: &'a RefCell<Server>,
    faults: u64,
}

/// Both ends of a connection.
pub(crate) fn ends(server: &RefCell<Server>) -> (FromServer<'_>, ToServer<'_>) {
    let from = FromServer {
        server,
        at_end: false,
        faults: 0,
    };
    (from, ToServer { server, faults: 0 })
}

impl Source for FromServer<'_> {
    ghost use Rattle.std.specs.Prelude.{IsTrue};

    ghost left = { λ _. None };

    ghost faults = { λ s. s.faults };

    ghost has_ended = { λ s. IsTrue s.at_end };

    fn read(&mut self, buf: &mut [u8]) -> Result<usize, Failed> {
        if self.at_end {
            return Ok(0);
        }
        match self.server.try_borrow_mut() {
            Ok(mut server) => {
                let n = server.give(buf).min(buf.len());
                self.at_end = n == 0;
                Ok(n)
            }
            Err(_) => {
                self.faults = self.faults.saturating_add(1);
                Err(Failed)
            }
        }
    }
}

impl Sink for ToServer<'_> {
    ghost written = { λ _. None };

    ghost faults = { λ s. s.faults };

    fn write(&mut self, piece: &[u8]) -> Result<usize, Failed> {
        let took = match self.server.try_borrow_mut() {
            Ok(mut server) => server.take(piece).is_ok(),
            Err(_) => false,
        };
        if took {
            return Ok(piece.len());
        }
        self.faults = self.faults.saturating_add(1);
        Err(Failed)
    }
}
