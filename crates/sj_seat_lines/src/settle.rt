//! What comes of a line when its call was answered.
ghost use Rattle.std.specs.Prelude.{◌≡◌, IfOk, OnOk, option_map};
ghost use Rattle.sj_seat_lines.specs.Heard.{came};
ghost use Rattle.sj_seat_lines.specs.Names.{named};
ghost use Rattle.sj_seat_lines.specs.Party.{ask_at, party_at, pending_at};
ghost use Rattle.sj_seat_lines.specs.Settled.{done_so, is_waiting, names_left, opened_so, settled_of, taken, undone, waited};

use crate::names::{Name, bind, forget, name_of};
use crate::party::{Heard, Party, Pending};
use crate::replies::{Reply, refused};
use sj_base::{EndId, Msg, NoMemory};
use sj_seat::{Answer, Ask, Outcome, SeatRefusal, Wish};

impl Party<'_> {
    /// What comes of the line that waits, whose call was answered so. Nothing where none waits.
    pub fn settle(&mut self, answer: Answer, text: &mut Vec<u8>) -> Result<Heard, NoMemory>
        ensures { IfOk result (λ h. came h text.new.items (party_at self.new) ≡ settled_of
            (party_at self.old) text.old.items answer (party_at self.old).pending) }
    {
        let Some(pending) = self.pending.take() else {
            return Ok(Heard::Answered);
        };
        match answer {
            Ok(outcome) => self.done(pending, outcome, text),
            Err(refusal) => self.undone(pending, refusal, text),
        }
    }

    fn undone(
        &mut self,
        pending: Pending,
        refusal: SeatRefusal,
        text: &mut Vec<u8>,
    ) -> Result<Heard, NoMemory>
        ensures { IfOk result (λ h. came h text.new.items (party_at self.new)
            ≡ undone (party_at self.old) text.old.items (pending_at pending) refusal) }
    {
        if is_waiting(refusal) {
            self.waited(pending, text)
        } else {
            self.say(text, refused(refusal))
        }
    }

    // It is asked for again, so often as there is patience.
    fn waited(&mut self, pending: Pending, text: &mut Vec<u8>) -> Result<Heard, NoMemory>
        ensures { IfOk result (λ h. came h text.new.items (party_at self.new)
            ≡ waited (party_at self.old) text.old.items (pending_at pending)) }
    {
        let Pending { ask, name, tries } = pending;
        if tries < self.patience {
            Ok(self.ask(ask, name, tries + 1))
        } else {
            self.say(text, Reply::Waiting)
        }
    }

    fn done(
        &mut self,
        pending: Pending,
        outcome: Outcome,
        text: &mut Vec<u8>,
    ) -> Result<Heard, NoMemory>
        ensures { IfOk result (λ h. came h text.new.items (party_at self.new)
            ≡ done_so (party_at self.old) text.old.items (pending_at pending) outcome) }
    {
        match outcome {
            Outcome::Done => {
                let_go(&mut self.names, &pending.ask);
                self.say(text, Reply::Fine)
            }
            Outcome::Took { end, msg } => self.took(&pending.name, end, msg, text),
            Outcome::Opened { end } => self.opened(&pending.name, end, text),
            Outcome::Ready(there) => self.say(text, Reply::Ready(there)),
        }
    }

    fn opened(&mut self, name: &[u8], end: EndId, text: &mut Vec<u8>) -> Result<Heard, NoMemory>
        ensures { IfOk result (λ h. came h text.new.items (party_at self.new)
            ≡ opened_so (party_at self.old) text.old.items name.now end) }
    {
        bind(self.alloc, &mut self.names, name, end)?;
        self.say(text, Reply::Opened(name))
    }

    fn took(
        &mut self,
        name: &[u8],
        end: EndId,
        msg: Msg,
        text: &mut Vec<u8>,
    ) -> Result<Heard, NoMemory>
        ensures { IfOk result (λ h. came h text.new.items (party_at self.new)
            ≡ taken (party_at self.old) text.old.items name.now end msg) }
    {
        match msg {
            Msg::Sess { sess, side, .. } => {
                bind(self.alloc, &mut self.names, name, EndId { sess, side })?;
                let from = name_of(&self.names, end);
                self.say(text, Reply::TookEnd(from, msg, name))
            }
            _ => {
                let from = name_of(&self.names, end);
                self.say(text, Reply::Took(from, msg))
            }
        }
    }
}

fn is_waiting(refusal: SeatRefusal) -> bool
    ensures { result ≡ is_waiting refusal }
{
    matches!(refusal, SeatRefusal::Waiting)
}

// An end that was closed or delegated has no name any more.
fn let_go(names: &mut Vec<Name>, ask: &Ask)
    ensures { named names.new.items ≡ names_left (named names.old.items) (ask_at ask.now) }
{
    match ask {
        Ask::Step(Wish::Close { end }) => forget(names, *end),
        Ask::Step(Wish::Delegate { end, .. }) => forget(names, *end),
        _ => {}
    }
}
