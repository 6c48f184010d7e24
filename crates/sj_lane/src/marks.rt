//! The fields of a frame as plain data.
ghost use Rattle.std.specs.Prelude.{◌≡◌, IfOk};
ghost use Rattle.sj_lane.specs.Marks.{body_marked, end_marked, mark_at};
ghost use Rattle.sj_lane.specs.Told.{told_body, told_end, told_frame};

use sj_base::{EndId, Msg, NoMemory};
use sj_end::{Body, End, Frame};

/// The fields of an end, but its place.
#[derive(Drop)]
pub(crate) struct EndFields {
    pub(crate) id: EndId,
    pub(crate) conn: u32,
    pub(crate) peer: u16,
    pub(crate) sent: u32,
    pub(crate) taken: u32,
    pub(crate) base: u32,
    pub(crate) cache: Vec<Msg>,
    pub(crate) hops: u8,
}

/// The fields of a body.
#[derive(Drop)]
pub(crate) enum BodyFields {
    Carry {
        to: EndId,
        conn: u32,
        number: u32,
        taken: u32,
        msg: Msg,
    },
    Fin {
        to: EndId,
        conn: u32,
        number: u32,
    },
    Claim {
        of: EndId,
    },
    Signal {
        to: EndId,
        conn: u32,
        party: u16,
        taken: u32,
    },
    Ack {
        of: EndId,
        conn: u32,
    },
    Give {
        end: EndFields,
        resend: Option<u32>,
    },
    Open {
        sess: u32,
    },
}

/// The fields of a frame.
#[derive(Drop)]
pub(crate) struct FrameFields {
    pub(crate) clock: u64,
    pub(crate) body: BodyFields,
}

fn mark_end(end: &End) -> Result<EndFields, NoMemory>
    ensures { IfOk result (λ m. end_marked m ≡ told_end end.now) }
{
    let alloc = *end.cache.allocator();
    let cache: Vec<Msg> = end.cache.iter().copied().collect(alloc)?;
    Ok(EndFields {
        id: end.id,
        conn: end.conn,
        peer: end.peer,
        sent: end.sent,
        taken: end.taken,
        base: end.base,
        cache,
        hops: end.hops,
    })
}

fn mark_body(body: &Body) -> Result<BodyFields, NoMemory>
    ensures { IfOk result (λ m. body_marked m ≡ told_body body.now) }
{
    match body {
        Body::Carry {
            to,
            conn,
            number,
            taken,
            msg,
        } => Ok(BodyFields::Carry {
            to: *to,
            conn: *conn,
            number: *number,
            taken: *taken,
            msg: *msg,
        }),
        Body::Fin { to, conn, number } => Ok(BodyFields::Fin {
            to: *to,
            conn: *conn,
            number: *number,
        }),
        Body::Claim { of } => Ok(BodyFields::Claim { of: *of }),
        Body::Signal {
            to,
            conn,
            party,
            taken,
        } => Ok(BodyFields::Signal {
            to: *to,
            conn: *conn,
            party: *party,
            taken: *taken,
        }),
        Body::Ack { of, conn } => Ok(BodyFields::Ack {
            of: *of,
            conn: *conn,
        }),
        Body::Give { end, resend } => {
            let end = mark_end(end)?;
            Ok(BodyFields::Give {
                end,
                resend: *resend,
            })
        }
        Body::Open { sess } => Ok(BodyFields::Open { sess: *sess }),
    }
}

/// The fields of the frame, which stays with its owner.
pub(crate) fn mark_of(frame: &Frame) -> Result<FrameFields, NoMemory>
    ensures { IfOk result (λ m. mark_at m ≡ told_frame frame.now) }
{
    let body = mark_body(&frame.body)?;
    Ok(FrameFields {
        clock: frame.clock,
        body,
    })
}
