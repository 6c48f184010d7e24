//! Laws of the canonical text of a file: `printed_file_stands`, `printed_file_is_read_again`,
//! `printed_text_comes_again`.
ghost use Rattle.std.specs.Prelude.{◌≡◌, ℕ, List};
ghost use Rattle.sj_lang.specs.FileAt.{FileAt};
ghost use Rattle.sj_grammar.specs.Files.{IsFile};
ghost use Rattle.sj_party.specs.CanonicalFile.{file_text};
ghost use Rattle.sj_party.specs.Unlined.{StandsButLines, unlined};

/// The canonical text of a file that some text stands for stands for an equal file, lines aside.
pub fn printed_file_stands()
    ensures { (bytes : List ℕ) (f : FileAt) → IsFile bytes f → StandsButLines (file_text f) f }
{}

/// And for no other: what is read of it is the file, lines aside.
pub fn printed_file_is_read_again()
    ensures { (bytes : List ℕ) (f g : FileAt) → IsFile bytes f → IsFile (file_text f) g
        → unlined g ≡ unlined f }
{}

/// What is read of a canonical text is printed as that text.
pub fn printed_text_comes_again()
    ensures { (bytes : List ℕ) (f g : FileAt) → IsFile bytes f → IsFile (file_text f) g
        → file_text g ≡ file_text f }
{}
