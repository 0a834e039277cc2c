//! Names by themselves.
ghost use Rattle.std.specs.Prelude.{◌≡◌, ◌↔◌, IfOk, IsTrue};
ghost use Rattle.nxf_tree.specs.declared.profile.Profile.{Profile};
ghost use Rattle.nxf_base.specs.Bytes.{is_printable_text};
ghost use Rattle.printed_text_laws.specs.SpelledNames.{SpellsName};
ghost use Rattle.nxf_tree.specs.Text as spec;
ghost use Rattle.nxf_tree.specs.Text.{name_text};

use nxf_base::{Memory, Text};
use std::alloc::Global;
use text_writer::write_name;

/// The spelling of a name: bare exactly where it is a word of a letter from `a` to `z`, then letters, digits and `_`; else in
/// single quotes, with `\` before `'` and `\`. Where the name has one byte or more, all from 32 to 126, the spelling is one token,
/// which the grammar reads as this name. There is no other error than want of memory.
pub fn print_name(alloc: Global, name: &Text) -> Result<Vec<u8>, Memory>
    ensures text { IfOk result (λ text. text.items ≡ name_text name.now) }
    ensures bare { IfOk result (λ text. (text.items ≡ name.now) ↔ IsTrue (spec.is_bare name.now)) }
    ensures spells { (p : Profile) → IsTrue (is_printable_text name.now) → IfOk result (λ text. SpellsName p text.items name.now) }
{
    let mut out = Vec::new(alloc);
    write_name(&mut out, name)?;
    Ok(out)
}
