//! Bytes, variables and numerals.
ghost use Rattle.std.specs.Prelude.{◌≡◌, ◌++◌, OnOk, OnErr};
ghost use Rattle.nxf_tree.specs.Names.{numeral};
ghost use Rattle.text_writer.specs.Members.{before_member};

use itoa::Buffer;
use nxf_base::{Memory, Text};

/// Appends these bytes, or nothing where there is no memory.
pub fn put(out: &mut Vec<u8>, bytes: &[u8]) -> Result<(), Memory>
    ensures text { OnOk result (out.new.items ≡ out.old.items ++ bytes.now) }
    ensures kept { OnErr result (out.new.items ≡ out.old.items) }
{
    out.extend_from_slice(bytes)?;
    Ok(())
}

/// Appends the separator before the member of a list at a place counted from 0: before each but the first. Where there is no
/// memory, nothing is appended.
pub fn put_between(out: &mut Vec<u8>, separator: &[u8], at: usize) -> Result<(), Memory>
    ensures text { OnOk result (out.new.items ≡ out.old.items ++ before_member separator.now at) }
    ensures kept { OnErr result (out.new.items ≡ out.old.items) }
{
    if at > 0 { put(out, separator) } else { Ok(()) }
}

/// Appends a variable, which is written as it stands, or nothing where there is no memory.
pub fn write_variable(out: &mut Vec<u8>, variable: &Text) -> Result<(), Memory>
    ensures text { OnOk result (out.new.items ≡ out.old.items ++ variable.now) }
    ensures kept { OnErr result (out.new.items ≡ out.old.items) }
{
    put(out, variable.bytes())
}

/// Appends a number in decimal digits, or nothing where there is no memory.
#[tactic(auto, using(crate::proofs::Numerals::numeral_decimal))]
pub fn write_numeral(out: &mut Vec<u8>, number: u64) -> Result<(), Memory>
    ensures text { OnOk result (out.new.items ≡ out.old.items ++ numeral number) }
    ensures kept { OnErr result (out.new.items ≡ out.old.items) }
{
    let mut buffer = Buffer::new();
    put(out, buffer.format(number).as_bytes())
}
