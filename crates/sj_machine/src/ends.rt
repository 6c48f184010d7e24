//! Ends under names, in the order of binding, in room that was taken before.
ghost use Rattle.std.specs.Prelude.{◌≡◌, ◌<◌, ◌≤◌, length, vec_capacity};
ghost use Rattle.sj_lang.specs.FileAt.{named};
ghost use Rattle.sj_semantics.specs.Program.{ends_with, ends_without};

use sj_base::EndId;

/// The end under a name.
pub fn end_named(ends: &[(u16, EndId)], name: u16) -> Option<EndId>
    ensures { result ≡ named ends.now name }
{
    for entry in ends {
        if entry.0 == name {
            return Some(entry.1);
        }
    }
    None
}

/// Frees a name.
pub fn unbind(ends: &mut Vec<(u16, EndId)>, name: u16)
    ensures items { ends.new.items ≡ ends_without ends.old.items name }
    ensures room { vec_capacity ends.new ≡ vec_capacity ends.old }
{
    ends.retain(|entry| entry.0 != name);
}

/// Binds an end to a name.
pub fn bind(ends: &mut Vec<(u16, EndId)>, name: u16, end: EndId)
    requires { length (ends_without ends.old.items name) < vec_capacity ends.old }
    ensures items { ends.new.items ≡ ends_with ends.old.items name end }
    ensures room { vec_capacity ends.old ≤ vec_capacity ends.new }
{
    unbind(ends, name);
    ends.push_reserved((name, end));
}
