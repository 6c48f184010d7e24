//! Items of one way or the other.
ghost use Rattle.std.specs.Prelude.{◌≡◌};
ghost use Rattle.sj_lang.specs.Place.{done, message, choice, repeat};
ghost use Rattle.sj_lang.specs.View.{carried_of, followed};

use sj_lang::{Arms, Item, Kind, Proto, Way};

/// An item that sends or takes a message.
pub fn message_item(way: Way, kind: Kind) -> Item
    ensures { followed result done ≡ message way (carried_of kind) done }
{
    match way {
        Way::Out => Item::Send(kind),
        Way::Into => Item::Recv(kind),
    }
}

/// An item that sends or takes a label.
pub fn choice_item(way: Way, arms: Arms) -> Item
    ensures { followed result done ≡ choice way arms done }
{
    match way {
        Way::Out => Item::Select(arms),
        Way::Into => Item::Branch(arms),
    }
}

/// An item that goes round.
pub fn loop_item(way: Way, body: Proto) -> Item
    ensures { followed result done ≡ repeat way body done }
{
    match way {
        Way::Out => Item::OutLoop(body),
        Way::Into => Item::InLoop(body),
    }
}
