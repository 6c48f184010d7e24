//! Protocols and their duals.
ghost use Rattle.std.specs.Prelude.{◌≡◌, IfOk, OnOk, ◌++◌};
ghost use Rattle.sj_lang.specs.FileView.{file_of, protocol_of};
ghost use Rattle.sj_grammar.specs.Tables.{entry_of};
ghost use Rattle.sj_tool.specs.Shown.{shown, shown_protocol};

use sj_base::NoMemory;
use sj_lang::{File, Names, ProtocolDef, dual};
use sj_party::print_protocol_line;
use std::alloc::Global;

/// The canonical line of each protocol of the file, and the line of its dual.
pub(crate) fn shown_text(alloc: Global, file: &File) -> Result<Vec<u8>, NoMemory>
    ensures { IfOk result (λ text. text.items ≡ shown (file_of file.now)) }
{
    let mut text = Vec::new(alloc);
    for protocol in &file.protocols {
        put_shown(alloc, &mut text, &file.names, protocol)?;
    }
    Ok(text)
}

fn put_shown(
    alloc: Global,
    text: &mut Vec<u8>,
    names: &Names,
    protocol: &ProtocolDef,
) -> Result<(), NoMemory>
    ensures { OnOk result (text.new.items ≡ text.old.items
        ++ shown_protocol (entry_of names.now.words) (protocol_of protocol.now)) }
{
    print_protocol_line(text, names, b"protocol", protocol.name, &protocol.body)?;
    let other = dual(alloc, &protocol.body)?;
    print_protocol_line(text, names, b"dual", protocol.name, &other)
}
