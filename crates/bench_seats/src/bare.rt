//! Messages between two threads over bare rings, by hand.

use crate::clocks::{nanos_since, now};
use crate::file::{Kind, goes_out};
use crate::timed::Timed;
use rtrb::{Consumer, Producer, PushError, RingBuffer};
use std::alloc::{AllocError, Global};
use std::thread::{self, Threads};
use std::time::Clock;

/// How many numbers a ring has room for, as those of RingLinks.
const ROOM: usize = 64;

/// After how many tries in vain a thread gives its time away.
const TRIES: u64 = 1_000;

/// A thread's ends of two rings, one each way.
#[derive(Drop)]
struct Hand {
    first: bool,
    out: Producer<i64>,
    into: Consumer<i64>,
    count: u64,
    nanos: u64,
}

/// The ends of both threads.
fn hands(alloc: Global) -> Result<Vec<Hand>, AllocError> {
    let (there, from_there) = RingBuffer::new(alloc, ROOM)?;
    let (back, from_back) = RingBuffer::new(alloc, ROOM)?;
    let mut hands = Vec::new(alloc);
    hands.push(Hand {
        first: true,
        out: there,
        into: from_back,
        count: 0,
        nanos: 0,
    })?;
    hands.push(Hand {
        first: false,
        out: back,
        into: from_there,
        count: 0,
        nanos: 0,
    })?;
    Ok(hands)
}

/// Gives the time away after each so many tries in vain.
fn wait(tried: u64) {
    if tried % TRIES == TRIES - 1 {
        thread::yield_now();
    }
}

/// Sends the number, and tries until there is room.
fn send(hand: &mut Hand, number: i64) {
    let mut number = number;
    for tried in 0..u64::MAX {
        match hand.out.push(number) {
            Ok(()) => return,
            Err(PushError::Full(back)) => number = back,
        }
        wait(tried);
    }
}

/// Takes a number, and tries until one is there.
fn take(hand: &mut Hand) {
    for tried in 0..u64::MAX {
        if hand.into.pop().is_ok() {
            hand.count = hand.count.saturating_add(1);
            return;
        }
        wait(tried);
    }
}

/// The thread's part.
fn play<R: Clock>(rt: &R, hand: &mut Hand, kind: Kind, messages: u32) {
    let began = now(rt);
    for number in 0..messages {
        if goes_out(kind, number) == hand.first {
            send(hand, i64::from(number));
        } else {
            take(hand);
        }
    }
    hand.nanos = nanos_since(rt, &began);
}

/// So many messages.
pub(crate) fn by_hand<R: Threads + Clock + Sync>(
    rt: &R,
    alloc: Global,
    kind: Kind,
    messages: u32,
) -> Option<Timed> {
    let began = now(rt);
    let Ok(mut hands) = hands(alloc) else {
        return None;
    };
    thread::for_each_mut(rt, &mut hands, 2, &|_, hand| play(rt, hand, kind, messages));
    let whole = nanos_since(rt, &began);
    match hands.get(1) {
        Some(taker) => Some(Timed {
            messages: u64::from(messages),
            whole,
            played: taker.nanos,
        }),
        None => None,
    }
}
