//! Laws of transcripts.
//!
//! - `a_quiet_world_is_so_under_any_names`: a world keeps no words and no texts of its file.

ghost use Rattle.std.specs.Prelude.{◌≡◌};
ghost use Rattle.sj_lang.specs.FileAt.{FileAt};
ghost use Rattle.sj_plain.specs.SharedFile.{without_words};
ghost use Rattle.sj_seat_told.specs.Quiet.{IsQuietOf};
ghost use Rattle.sj_seats.specs.declared.seated.SeatedWorld.{SeatedWorld};

/// What leaves nothing to do is so whatever the words and the texts of its file are. So its transcript
/// may be put by a file whose texts are those of the run.
pub fn a_quiet_world_is_so_under_any_names()
    ensures { (file named : FileAt) (w : SeatedWorld) → without_words named ≡ without_words file →
        IsQuietOf file w → IsQuietOf named w }
{}
