//! What stands before the body of a statement.
ghost use Rattle.std.specs.Prelude.{◌≡◌, ◌++◌, OnOk, OnErr};
ghost use Rattle.std.specs.Io.{StartsWith};
ghost use Rattle.nxf_tree.specs.Text.{suffix_text};
ghost use Rattle.text_writer.specs.Front.{front_text};

use crate::bytes::put;
use crate::name::write_name;
use nxf_base::{Memory, Text};
use nxf_tree::Role;

/// Appends what stands before the body of a statement with this name and role, with the comma behind the role. Where there is
/// no memory, what the buffer held stays at its front.
#[tactic(auto, using(crate::proofs::Starts::starts_after, crate::proofs::Starts::starts_same))]
pub fn write_front(out: &mut Vec<u8>, name: &Text, role: &Role) -> Result<(), Memory>
    ensures text { OnOk result (out.new.items ≡ out.old.items ++ front_text name.now role.now) }
    ensures kept { OnErr result (StartsWith out.new.items out.old.items) }
{
    put(out, b"tff(")?;
    write_name(out, name)?;
    put(out, b",")?;
    put(out, role.word.bytes())?;
    write_suffix(out, &role.suffix)?;
    put(out, b",")
}

#[tactic(auto, using(crate::proofs::Starts::starts_after, crate::proofs::Starts::starts_same))]
fn write_suffix(out: &mut Vec<u8>, suffix: &Option<Text>) -> Result<(), Memory>
    ensures text { OnOk result (out.new.items ≡ out.old.items ++ suffix_text suffix.now) }
    ensures kept { OnErr result (StartsWith out.new.items out.old.items) }
{
    match suffix {
        None => Ok(()),
        Some(suffix) => {
            put(out, b"-")?;
            put(out, suffix.bytes())
        }
    }
}
