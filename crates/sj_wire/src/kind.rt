//! The kinds of frames.
ghost use Rattle.std.specs.Prelude.{◌≡◌};
ghost use Rattle.sj_wire.specs.Kinds.{code, kind_in, kind_named, kind_of, version_of};
ghost use Rattle.sj_end.specs.Bodies.{body_at};

use crate::limits::{OPEN_VERSION, VERSION};
use sj_end::Body;

#[derive(Clone, Copy)]
pub(crate) enum Kind {
    Carry,
    Fin,
    Claim,
    Signal,
    Ack,
    Give,
    Open,
}

impl Kind {
    /// The kind of that byte after that version.
    pub(crate) fn of_bytes(version: u8, byte: u8) -> Option<Kind>
        ensures { result ≡ kind_in version byte }
    {
        match Kind::of_byte(byte) {
            None => None,
            Some(kind) => {
                if kind.version() == version {
                    Some(kind)
                } else {
                    None
                }
            }
        }
    }

    /// The kind of that byte.
    fn of_byte(byte: u8) -> Option<Kind>
        ensures { result ≡ kind_named byte }
    {
        match byte {
            1 => Some(Kind::Carry),
            2 => Some(Kind::Fin),
            3 => Some(Kind::Claim),
            4 => Some(Kind::Signal),
            5 => Some(Kind::Ack),
            6 => Some(Kind::Give),
            7 => Some(Kind::Open),
            _ => None,
        }
    }

    /// Its byte.
    pub(crate) fn code(self) -> u8
        ensures { result ≡ code self }
    {
        match self {
            Kind::Carry => 1,
            Kind::Fin => 2,
            Kind::Claim => 3,
            Kind::Signal => 4,
            Kind::Ack => 5,
            Kind::Give => 6,
            Kind::Open => 7,
        }
    }

    /// The version of its frames.
    pub(crate) fn version(self) -> u8
        ensures { result ≡ version_of self }
    {
        match self {
            Kind::Open => OPEN_VERSION,
            _ => VERSION,
        }
    }

    /// The kind of a body.
    pub(crate) fn of(body: &Body) -> Kind
        ensures { result ≡ kind_of (body_at body.now) }
    {
        match body {
            Body::Carry { .. } => Kind::Carry,
            Body::Fin { .. } => Kind::Fin,
            Body::Claim { .. } => Kind::Claim,
            Body::Signal { .. } => Kind::Signal,
            Body::Ack { .. } => Kind::Ack,
            Body::Give { .. } => Kind::Give,
            Body::Open { .. } => Kind::Open,
        }
    }
}
