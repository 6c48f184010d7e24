//! Laws of the canonical text of a protocol: `printed_text_stands`, `printed_text_is_read_again`.
ghost use Rattle.std.specs.Prelude.{◌≡◌};
ghost use Rattle.sj_lang.specs.Place.{Place};
ghost use Rattle.sj_lang.specs.declared.file.Names.{Names};
ghost use Rattle.sj_lang.specs.Limits.{limits};
ghost use Rattle.sj_grammar.specs.Tables.{entry_of};
ghost use Rattle.sj_grammar.specs.Protocols.{IsBody};
ghost use Rattle.sj_grammar.specs.Canonical.{body_text};
ghost use Rattle.sj_proto.specs.Protocols.{IsProtocol};

/// The canonical text of a protocol that the grammar can give with these names stands for it, and
/// needs no further name.
pub fn printed_text_stands()
    ensures { (names : Names) (p : Place) → IsBody limits (entry_of names.words) p
        → IsProtocol (body_text (entry_of names.words) p) names names p }
{}

/// With the same names it stands for that protocol alone.
pub fn printed_text_is_read_again()
    ensures { (names new : Names) (p q : Place) → IsBody limits (entry_of names.words) p
        → IsProtocol (body_text (entry_of names.words) p) names new q → (q ≡ p) × (new ≡ names) }
{}
