//! The lane from which a party pops.
ghost use Rattle.std.proofs.Common.{◌∙◌, refl};
ghost use Rattle.std.specs.Prelude.{◌≡◌, ◌≤◌, [], None, IfErr, IfNone, IfOk, IfSome, OnErr, OnOk};
ghost use Rattle.sj_end.specs.Views.{frame_at};
ghost use Rattle.sj_lane.specs.Told.{PopCause, popped_by, told_more, vain_pop};
ghost use Rattle.sj_wire.specs.Front.{Cut, Whole, front_of};
ghost use Rattle.sj_wire.specs.Stream.{IsOver};
ghost use Rattle.sj_socket.specs.Counts.{faults_pop};
ghost use Rattle.sj_socket.specs.Ins.{Comes, FrameComes, GivesNothing, IsAllRead, IsGiven, IsNoFrame, IsOfStream, WayGives, WayIsAllRead, WayIsOfStream, WayReads, address_in, unused, unused_in, way_address, way_unused};

use crate::piece::Piece;
use sj_base::NoMemory;
use sj_end::Frame;
use sj_lane::{InLane, PopRefusal};
use sj_wire::{Decoder, WireRefusal};
use std::alloc::Global;
use std::collections::VecDeque;
use std::io::Read;
use std::net::SocketAddr;

/// A stream, and what came of it.
#[derive(Drop)]
pub(crate) struct Reader<R: Read + Drop> {
    stream: R,
    /// That of its other end.
    address: SocketAddr,
    decoder: Decoder,
    /// Read, and not fed to the decoder yet, as memory was short.
    piece: Piece,
}

/// Where frames come from: from the party itself, or from another one.
#[derive(Drop)]
pub(crate) enum InWay<R: Read + Drop> {
    Own(VecDeque<Frame>),
    Stream(Reader<R>),
}

/// A lane over a stream, or a list of what a party sent to itself.
#[derive(Drop)]
pub struct SocketIn<R: Read + Drop> {
    pub(crate) way: InWay<R>,
    pub(crate) faults: u64,
    pub(crate) vain: u64,
}

/// The first frame of what was fed. Bytes that are no frame are a fault.
fn decode(decoder: &mut Decoder) -> Result<Option<Frame>, PopRefusal>
    ensures frame { IfOk result
        (λ x. IfSome x (λ f. front_of decoder.old ≡ Whole (frame_at f) decoder.new)) }
    ensures none { IfOk result
        (λ x. IfNone x ((front_of decoder.old ≡ Cut) × (decoder.new ≡ decoder.old))) }
    ensures err { OnErr result (decoder.new ≡ decoder.old) }
    ensures fault { IfErr result
        (λ e. e ≡ PopRefusal.Fault → IsNoFrame (front_of decoder.old)) }
{
    match decoder.next() {
        Ok(frame) => Ok(frame),
        Err(WireRefusal::NoMemory) => Err(PopRefusal::NoMemory),
        Err(_) => Err(PopRefusal::Fault),
    }
}

impl<R: Read + Drop> Reader<R> {
    /// It reads as many bytes at once as there is room.
    pub(crate) fn new(alloc: Global, stream: R, address: SocketAddr, room: Vec<u8>) -> Reader<R>
        ensures empty { unused result ≡ [] }
        ensures address { result.address ≡ address }
    {
        Reader {
            stream,
            address,
            decoder: Decoder::new(alloc),
            piece: Piece::new(room),
        }
    }

    /// Feeds what was read before, or a piece that is read now.
    fn feed(&mut self) -> Result<(), PopRefusal>
        ensures came { Comes R.remaining self.old (unused self.new) self.new }
        ensures all { OnOk result (unused self.new ≡ self.new.decoder) }
        ensures fault { IfErr result (λ e. e ≡ PopRefusal.Fault → self.old.piece ≡ []) }
        ensures same { self.new.address ≡ self.old.address }
    {
        if let Err(refusal) = self.piece.read(&mut self.stream) {
            return Err(refusal);
        }
        match self.piece.feed(&mut self.decoder) {
            Ok(()) => Ok(()),
            Err(NoMemory) => Err(PopRefusal::NoMemory),
        }
    }

    /// The next frame, with one try to read where less than a frame is there.
    fn pop(&mut self) -> Result<Option<Frame>, PopRefusal>
        ensures frame { IfOk result
            (λ x. IfSome x (λ f. FrameComes R.remaining self.old f self.new)) }
        ensures none { IfOk result (λ x. IfNone x ((front_of (unused self.new) ≡ Cut)
            × Comes R.remaining self.old (unused self.new) self.new)) }
        ensures err { OnErr result (Comes R.remaining self.old (unused self.new) self.new) }
        ensures whole { IfErr result
            (λ e. e ≡ PopRefusal.Fault → IsOver (front_of (unused self.old))) }
        ensures same { self.new.address ≡ self.old.address }
    {
        match decode(&mut self.decoder) {
            Ok(None) => {}
            Ok(Some(frame)) => return Ok(Some(frame)),
            Err(refusal) => return Err(refusal),
        }
        if let Err(refusal) = self.feed() {
            return Err(refusal);
        }
        decode(&mut self.decoder)
    }
}

impl<R: Read + Drop> InWay<R> {
    /// The next frame, if there is one.
    fn pop(&mut self) -> Result<Option<Frame>, PopRefusal>
        ensures frame { IfOk result
            (λ x. IfSome x (λ f. WayGives R.remaining self.old f self.new)) }
        ensures none { IfOk result
            (λ x. IfNone x (WayIsAllRead self.new × WayReads R.remaining self.old self.new)) }
        ensures err { OnErr result (WayReads R.remaining self.old self.new) }
        ensures whole { IfErr result
            (λ e. e ≡ PopRefusal.Fault → IsOver (front_of (way_unused self.old))) }
        ensures own { IfErr result (λ e. WayIsOfStream self.old) }
        ensures same { way_address self.new ≡ way_address self.old }
    {
        match self {
            InWay::Own(frames) => Ok(frames.pop_front()),
            InWay::Stream(reader) => reader.pop(),
        }
    }
}

impl<R: Read + Drop> SocketIn<R> {
    /// A lane from which nothing was popped.
    pub(crate) fn new(way: InWay<R>) -> SocketIn<R>
        ensures way { result.way ≡ way }
        ensures faults { result.faults ≡ 0 }
        ensures vain { result.vain ≡ 0 }
    {
        SocketIn {
            way,
            faults: 0,
            vain: 0,
        }
    }
}

impl<R: Read + Send + Drop> InLane for SocketIn<R> {
    ghost popped = { λ _. None };

    ghost faults = { λ i. i.faults };

    ghost vain = { λ i. i.vain };

    ghost same = { λ a b. address_in b ≡ address_in a };

    // The trait's clauses, how a refusal counts, and which frame comes.
    fn pop(&mut self) -> Result<Option<Frame>, PopRefusal>
        ensures told { None ≡ told_more None (popped_by result) }
        ensures vain { self.new.vain ≡ vain_pop self.old.vain result }
        ensures faults { (self.old.faults ≤ self.new.faults)
            × PopCause self.old.faults self.new.faults result }
        ensures link { address_in self.new ≡ address_in self.old }
        ensures counts { self.new.faults ≡ faults_pop self.old.faults result }

        // What is taken, and what stays.
        ensures frame { IfOk result
            (λ x. IfSome x (λ f. IsGiven R.remaining self.old f self.new)) }
        ensures none { IfOk result
            (λ x. IfNone x (IsAllRead self.new × GivesNothing R.remaining self.old self.new)) }
        ensures err { OnErr result (GivesNothing R.remaining self.old self.new) }

        // Whose the refusal is.
        ensures whole { IfErr result
            (λ e. e ≡ PopRefusal.Fault → IsOver (front_of (unused_in self.old))) }
        ensures own { IfErr result (λ e. IsOfStream self.old) }
    {
        match self.way.pop() {
            Ok(Some(frame)) => Ok(Some(frame)),
            Ok(None) => {
                self.vain = self.vain.saturating_add(1);
                Ok(None)
            }
            Err(PopRefusal::Fault) => {
                self.faults = self.faults.saturating_add(1);
                Err(PopRefusal::Fault)
            }
            Err(PopRefusal::NoMemory) => Err(PopRefusal::NoMemory),
        }
    }

    ghost same_itself = { λ _. refl };

    ghost same_later = { λ _ _ _ p q. q ∙ p };
}
