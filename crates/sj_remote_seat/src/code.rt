//! Code that plays a party over a server.
ghost use Rattle.std.specs.Prelude.{⊤};

use sj_end::Note;
use sj_seat::{Answer, Ask, Guard};
use sj_seat_run::Play;

/// Code that plays a party over a server, and may be told of what a process before it did.
pub trait Code {
    /// What the code may be after it was asked once.
    ghost step: { Self → Self → Type 0 };

    /// What the party does next. The answer is that to what it asked for last, and none at first.
    /// With None it is over, and isn't asked again.
    fn next(&mut self, seat: Guard<'_>, answer: Option<Answer>) -> Option<Ask>
        ensures { step self.old self.new };

    /// The same, where the party's next act stands in its stream already, with that note.
    fn again(&mut self, seat: Guard<'_>, answer: Option<Answer>, did: &Note) -> Option<Ask>
        ensures { step self.old self.new };

    /// Whether somebody waits for each answer. Then what is done stands at the server before the code
    /// is told of it, and a call that waits is answered so again once nothing came for long enough.
    fn is_live(&self) -> bool;
}

/// Code that needs to know nothing of a server: what it asks for follows from what it was answered.
#[derive(Drop)]
pub struct Plain<C> {
    pub code: C,
}

impl<C: Play> Code for Plain<C> {
    ghost step = { λ _ _. ⊤ };

    fn next(&mut self, seat: Guard<'_>, answer: Option<Answer>) -> Option<Ask> {
        self.code.next(seat, answer)
    }

    fn again(&mut self, seat: Guard<'_>, answer: Option<Answer>, _did: &Note) -> Option<Ask> {
        self.code.next(seat, answer)
    }

    fn is_live(&self) -> bool {
        false
    }
}
