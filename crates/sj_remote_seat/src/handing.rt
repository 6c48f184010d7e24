//! What a party noted, handed in, and what comes then.
ghost use Rattle.std.specs.Prelude.{◌≡◌, ◌+◌, ◌++◌, List, IfOk, OnOk, Some, get_or};
ghost use Rattle.sj_base.specs.Stream.{put_behind};
ghost use Rattle.sj_lang.specs.FileView.{file_of};
ghost use Rattle.sj_lang.specs.Place.{Place};
ghost use Rattle.sj_node.specs.Node.{log_of};
ghost use Rattle.sj_node.specs.Reading.{party_of};
ghost use Rattle.sj_remote.specs.Conn.{sink_of};
ghost use Rattle.sj_remote.specs.Streams.{keys_of, seen_of};
ghost use Rattle.sj_remote_run.specs.Turns.{added_count};
ghost use Rattle.sj_remote_seat.specs.Handing.{handed_text, seen_then};
ghost use Rattle.sj_remote_seat.specs.Turns.{AreHanded, Goes};
ghost use Rattle.sj_resp.specs.Spelling.{command_text};
ghost use Rattle.sj_rules.specs.Frames.{FrameAt};
ghost use Rattle.sj_seat.specs.Views.{node_of};
ghost use Rattle.sj_streams.specs.Commands.{read_words};
ghost use Rattle.sj_streams.specs.Words.{words_at};

use crate::seat::Seat;
use sj_base::{Sink, Source};
use sj_lang::File;
use sj_remote::{Conn, Streams};
use sj_remote_run::{PlayRefusal, Player, add, exchange, push_all};
use sj_work::Worker;
use std::alloc::Global;

/// Adds what the party noted, where it noted something, and takes what comes. Answers whether
/// something came within so long.
pub(crate) fn hand_in<'a, S: Source, K: Sink>(
    alloc: Global,
    conn: &mut Conn<S, K>,
    file: &File,
    seat: Seat<'a>,
    streams: &mut Streams,
    wait: u64,
) -> Result<(Seat<'a>, bool), PlayRefusal>
    ensures sent { OnOk result ((frames : List (List (FrameAt Place)))
        × AreHanded seat.entry frames × (K.written (sink_of conn.new)
        ≡ put_behind (K.written (sink_of conn.old)) (handed_text (words_at (keys_of streams.old))
        (seen_of streams.old) (file_of file.now) seat.entry frames
        ++ command_text (read_words 512 (Some wait) (words_at (keys_of streams.old))
        (seen_then (seen_of streams.old) seat.entry))))) }
    ensures number { OnOk result (get_or (seen_of streams.new) (party_of (node_of seat.entry)) 0
        ≡ get_or (seen_of streams.old) (party_of (node_of seat.entry)) 0
        + added_count (log_of (node_of seat.entry))) }
    ensures keys { keys_of streams.new ≡ keys_of streams.old }
    ensures goes { IfOk result (λ r. Goes seat.entry r.0) }
{
    let (worker, holdings) = seat.into_parts();
    let (mut lanes, mut node, noted) = worker.into_parts();
    push_all(alloc, &mut node, &mut lanes)?;
    let mut player = Player { node, lanes };
    let came = exchange(alloc, conn, file, &mut player, streams, &noted, wait)?;
    let worker = Worker::new(player.node, player.lanes);
    Ok((holdings.with_worker(worker), came))
}

/// Adds what the party noted last.
pub(crate) fn hand_in_last<S: Source, K: Sink>(
    alloc: Global,
    conn: &mut Conn<S, K>,
    file: &File,
    seat: Seat<'_>,
    streams: &mut Streams,
) -> Result<(), PlayRefusal>
    ensures { OnOk result ((frames : List (List (FrameAt Place)))
        × AreHanded seat.entry frames × (K.written (sink_of conn.new)
        ≡ put_behind (K.written (sink_of conn.old)) (handed_text (words_at (keys_of streams.old))
        (seen_of streams.old) (file_of file.now) seat.entry frames))) }
{
    let (worker, _) = seat.into_parts();
    let (mut lanes, mut node, noted) = worker.into_parts();
    push_all(alloc, &mut node, &mut lanes)?;
    let mut player = Player { node, lanes };
    add(alloc, conn, file, &mut player, streams, &noted)
}
