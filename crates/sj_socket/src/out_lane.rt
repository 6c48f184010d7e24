//! The lane on which a party pushes.
ghost use Rattle.std.proofs.Common.{◌∙◌, refl};
ghost use Rattle.std.specs.Prelude.{◌≡◌, ◌≤◌, ◌<◌, ◌++◌, [], true, false, length, None, IfErr, IfOk, OnErr, OnOk};
ghost use Rattle.std.specs.Io.KnownBytes.{Appends, Keeps};
ghost use Rattle.sj_end.specs.Views.{frame_at};
ghost use Rattle.sj_lane.specs.Told.{PushCause, pushed_by, told_more, vain_push};
ghost use Rattle.sj_wire.specs.Lawful.{IsLawful};
ghost use Rattle.sj_wire.specs.Spelling.{spelling};
ghost use Rattle.sj_socket.specs.Counts.{faults_push};
ghost use Rattle.sj_socket.specs.Kept.{OutKept};
ghost use Rattle.sj_socket.specs.Outs.{HasLeft, IsOfStream, IsPut, PutsNothing, WayHasLeft, WayIsOfStream, WayPuts, WayWrites, Writes, address_out, unsent, way_address};
ghost use Rattle.sj_socket.specs.Own.{list_out};

use crate::stream::is_in_vain;
use sj_end::Frame;
use sj_lane::{OutLane, PushRefusal};
use sj_wire::{EncodeRefusal, encode, is_lawful};
use std::alloc::Global;
use std::collections::VecDeque;
use std::io::Write;
use std::net::SocketAddr;

/// A stream, and the bytes of the last frame that it didn't take yet.
#[derive(Drop)]
pub(crate) struct Writer<W: Write + Drop> {
    stream: W,
    /// That of this end.
    address: SocketAddr,
    rest: Vec<u8>,
    /// How many of them are gone.
    gone: usize,
}

/// Where frames go: to the party itself, or to another one.
#[derive(Drop)]
pub(crate) enum OutWay<W: Write + Drop> {
    Own(VecDeque<Frame>),
    Stream(Writer<W>),
}

/// A lane over a stream, or a list of what a party sent to itself.
#[derive(Drop)]
pub struct SocketOut<W: Write + Drop> {
    pub(crate) way: OutWay<W>,
    pub(crate) faults: u64,
    pub(crate) vain: u64,
}

impl<W: Write + Drop> Writer<W> {
    pub(crate) fn new(alloc: Global, stream: W, address: SocketAddr) -> Writer<W>
        ensures idle { unsent result ≡ [] }
        ensures address { result.address ≡ address }
    {
        Writer {
            stream,
            address,
            rest: Vec::new(alloc),
            gone: 0,
        }
    }

    /// Writes what is left, as far as the stream takes it now. Answers whether all is gone.
    fn flush(&mut self) -> Result<bool, PushRefusal>
        ensures bytes { Writes W.contents (unsent self.old) self.old self.new }
        ensures all { IfOk result (λ done. done ≡ true → unsent self.new ≡ []) }
        ensures some { IfOk result (λ done. done ≡ false → 0 < length (unsent self.new)) }
        ensures err { OnErr result
            (Keeps (W.contents self.old.stream) (W.contents self.new.stream)) }
        ensures fault { IfErr result (λ e. e ≡ PushRefusal.Fault) }
        ensures same { self.new.address ≡ self.old.address }
    {
        if self.gone >= self.rest.len() {
            return Ok(true);
        }
        match self.stream.write(&self.rest[self.gone..]) {
            Ok(count) => {
                self.gone += count;
                Ok(self.gone >= self.rest.len())
            }
            Err(error) => {
                if is_in_vain(&error) {
                    Ok(false)
                } else {
                    Err(PushRefusal::Fault)
                }
            }
        }
    }

    /// Writes the frame after what is left. What the stream doesn't take of it is left in turn.
    fn push(&mut self, frame: &Frame) -> Result<(), PushRefusal>
        ensures lawful { OnOk result (IsLawful (frame_at frame.now)) }
        ensures ok { OnOk result
            (Writes W.contents (unsent self.old ++ spelling (frame_at frame.now)) self.old self.new) }
        ensures err { OnErr result (Writes W.contents (unsent self.old) self.old self.new) }
        ensures full { IfErr result
            (λ e. e ≡ PushRefusal.Full → 0 < length (unsent self.new)) }
        ensures same { self.new.address ≡ self.old.address }
    {
        if !is_lawful(frame) {
            return Err(PushRefusal::Fault);
        }
        match self.flush() {
            Ok(true) => {}
            Ok(false) => return Err(PushRefusal::Full),
            Err(refusal) => return Err(refusal),
        }
        match encode(*self.rest.allocator(), frame) {
            Ok(bytes) => {
                self.rest = bytes;
                self.gone = 0;
            }
            Err(EncodeRefusal::TooLong) => return Err(PushRefusal::Fault),
            Err(EncodeRefusal::NoMemory) => return Err(PushRefusal::NoMemory),
        }
        match self.flush() {
            Ok(_) => Ok(()),
            Err(refusal) => {
                // The frame goes back, and so nothing of it may be left.
                self.gone = self.rest.len();
                Err(refusal)
            }
        }
    }
}

impl<W: Write + Drop> SocketOut<W> {
    /// A lane on which nothing was pushed.
    pub(crate) fn new(way: OutWay<W>) -> SocketOut<W>
        ensures way { result.way ≡ way }
        ensures faults { result.faults ≡ 0 }
        ensures vain { result.vain ≡ 0 }
    {
        SocketOut {
            way,
            faults: 0,
            vain: 0,
        }
    }

    /// Writes what is left, as far as the stream takes it now.
    pub(crate) fn carry(&mut self)
        ensures kept { OutKept W.contents self.old self.new }
        ensures list { list_out self.new.way ≡ list_out self.old.way }
    {
        if let OutWay::Stream(writer) = &mut self.way {
            let met = u64::from(writer.flush().is_err());
            self.faults = self.faults.saturating_add(met);
        }
    }
}

impl<W: Write + Drop> OutWay<W> {
    /// Puts the frame after those that were pushed, or gives it back.
    fn push(&mut self, frame: Frame) -> Result<(), (Frame, PushRefusal)>
        ensures back { IfErr result (λ e. e.0 ≡ frame) }
        ensures lawful { OnOk result (WayIsOfStream self.old → IsLawful (frame_at frame)) }
        ensures ok { OnOk result (WayPuts W.contents self.old frame self.new) }
        ensures err { OnErr result (WayWrites W.contents self.old self.new) }
        ensures full { IfErr result (λ e. e.1 ≡ PushRefusal.Full → WayHasLeft self.new) }
        ensures own { IfErr result (λ e. e.1 ≡ PushRefusal.Fault → WayIsOfStream self.old) }
        ensures same { way_address self.new ≡ way_address self.old }
    {
        match self {
            OutWay::Own(frames) => {
                if frames.reserve(1).is_err() {
                    return Err((frame, PushRefusal::NoMemory));
                }
                frames.push_back_reserved(frame);
                Ok(())
            }
            OutWay::Stream(writer) => match writer.push(&frame) {
                Ok(()) => Ok(()),
                Err(refusal) => Err((frame, refusal)),
            },
        }
    }
}

impl<W: Write + Send + Drop> OutLane for SocketOut<W> {
    ghost pushed = { λ _. None };

    ghost faults = { λ o. o.faults };

    ghost vain = { λ o. o.vain };

    ghost same = { λ a b. address_out b ≡ address_out a };

    // The trait's clauses, how a refusal counts, and what goes to the stream or the list.
    fn push(&mut self, frame: Frame) -> Result<(), (Frame, PushRefusal)>
        ensures told { None ≡ told_more None (pushed_by frame result) }
        ensures vain { self.new.vain ≡ vain_push self.old.vain result }
        ensures faults { (self.old.faults ≤ self.new.faults)
            × PushCause self.old.faults self.new.faults result }
        ensures back { IfErr result (λ e. e.0 ≡ frame) }
        ensures link { address_out self.new ≡ address_out self.old }
        ensures counts { self.new.faults ≡ faults_push self.old.faults result }

        // What is put, and what stays.
        ensures lawful { OnOk result (IsOfStream self.old → IsLawful (frame_at frame)) }
        ensures put { OnOk result (IsPut W.contents self.old frame self.new) }
        ensures err { OnErr result (PutsNothing W.contents self.old self.new) }
        ensures full { IfErr result (λ e. e.1 ≡ PushRefusal.Full → HasLeft self.new) }
        ensures own { IfErr result (λ e. e.1 ≡ PushRefusal.Fault → IsOfStream self.old) }
    {
        match self.way.push(frame) {
            Ok(()) => Ok(()),
            Err((frame, PushRefusal::Full)) => {
                self.vain = self.vain.saturating_add(1);
                Err((frame, PushRefusal::Full))
            }
            Err((frame, PushRefusal::Fault)) => {
                self.faults = self.faults.saturating_add(1);
                Err((frame, PushRefusal::Fault))
            }
            Err((frame, PushRefusal::NoMemory)) => Err((frame, PushRefusal::NoMemory)),
        }
    }

    ghost same_itself = { λ _. refl };

    ghost same_later = { λ _ _ _ p q. q ∙ p };
}
