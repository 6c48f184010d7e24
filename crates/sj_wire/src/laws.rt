//! Laws of the wire; each is the one clause of a function that does nothing.
//!
//! - `a_spelling_is_read`, `what_is_read_is_spelt_so`: one spelling for each frame, and no other.
//! - `no_spelling_begins_another`: where a frame ends is clear from its bytes.
//! - `a_frame_stays`, `a_refusal_stays`: what comes after changes nothing.
//! - `a_stream_is_its_frames`, `any_pieces_give_the_same_frames`: whole streams.

ghost use Rattle.std.specs.Prelude.{◌≡◌, ℕ, List, [], ◌++◌};
ghost use Rattle.std.specs.List.{flat_map};
ghost use Rattle.sj_rules.specs.Frames.{FrameAt};
ghost use Rattle.sj_table.specs.declared.table.Spot.{Spot};
ghost use Rattle.sj_wire.specs.Front.{Refused, Whole, front_of};
ghost use Rattle.sj_wire.specs.Lawful.{IsSpelt, on_wire};
ghost use Rattle.sj_wire.specs.Spelling.{spelling};
ghost use Rattle.sj_wire.specs.Stream.{Call, IsBytes, IsOver, decoded, fed_in};
ghost use Rattle.sj_wire.specs.declared.refusal.WireRefusal.{WireRefusal};

/// The spelling of a frame is read as the frame without its place, whatever follows it.
pub fn a_spelling_is_read()
    ensures { (f : FrameAt Spot) (behind : List ℕ) → IsSpelt f →
        front_of (spelling f ++ behind) ≡ Whole (on_wire f) behind }
{}

/// A frame that is read keeps the limits and has no place, and the bytes are its spelling.
pub fn what_is_read_is_spelt_so()
    ensures { (bytes behind : List ℕ) (f : FrameAt Spot) → IsBytes bytes →
        front_of bytes ≡ Whole f behind →
        (bytes ≡ spelling f ++ behind) × IsSpelt f × (on_wire f ≡ f) }
{}

/// Where two spellings begin the same bytes, the frames are one, place
/// aside, and so is what follows.
pub fn no_spelling_begins_another()
    ensures { (f g : FrameAt Spot) (x y : List ℕ) → IsSpelt f → IsSpelt g →
        spelling f ++ x ≡ spelling g ++ y → (on_wire f ≡ on_wire g) × (x ≡ y) }
{}

/// A frame at the front stays there, whatever is fed.
pub fn a_frame_stays()
    ensures { (bytes behind more : List ℕ) (f : FrameAt Spot) → IsBytes bytes →
        front_of bytes ≡ Whole f behind → front_of (bytes ++ more) ≡ Whole f (behind ++ more) }
{}

/// What is refused stays refused, for the same cause, whatever is fed.
pub fn a_refusal_stays()
    ensures { (bytes more : List ℕ) (e : WireRefusal) →
        front_of bytes ≡ Refused e → front_of (bytes ++ more) ≡ Refused e }
{}

/// Whatever the calls of a decoder, what was fed is the spellings of the frames that were answered,
/// in order, and what is unused.
pub fn a_stream_is_its_frames()
    ensures { (calls : List Call) → IsBytes (fed_in calls) →
        fed_in calls ≡ flat_map spelling (decoded calls []).0 ++ (decoded calls []).1 }
{}

/// However a stream is cut into pieces, once no frame is left at the front the same frames were
/// answered, and the same bytes are unused.
pub fn any_pieces_give_the_same_frames()
    ensures { (calls others : List Call) → IsBytes (fed_in calls) → fed_in calls ≡ fed_in others →
        IsOver (front_of (decoded calls []).1) → IsOver (front_of (decoded others []).1) →
        decoded calls [] ≡ decoded others [] }
{}
