//! Distinct objects.
ghost use Rattle.std.specs.Prelude.{◌≡◌, ◌++◌, flat_map, OnOk};
ghost use Rattle.nxf_tree.specs.Names.{numeral};
ghost use Rattle.plain_tokens.specs.Marks.{object_text, escaped_in_object};

use nxf_base::Memory;
use text_writer::{put, write_numeral};

/// Appends the front and the number as a distinct object.
pub fn write_object(out: &mut Vec<u8>, front: &[u8], number: u32) -> Result<(), Memory>
    ensures { OnOk result (out.new.items ≡ out.old.items ++ object_text (front.now ++ numeral number)) }
{
    put(out, b"\"")?;
    write_escaped(out, front)?;
    write_numeral(out, u64::from(number))?;
    put(out, b"\"")
}

// The bytes of an object, as they stand between quotes.
fn write_escaped(out: &mut Vec<u8>, bytes: &[u8]) -> Result<(), Memory>
    ensures { OnOk result (out.new.items ≡ out.old.items ++ flat_map escaped_in_object bytes.now) }
{
    for byte in bytes {
        write_escaped_byte(out, *byte)?;
    }
    Ok(())
}

fn write_escaped_byte(out: &mut Vec<u8>, byte: u8) -> Result<(), Memory>
    ensures { OnOk result (out.new.items ≡ out.old.items ++ escaped_in_object byte) }
{
    if byte == b'"' || byte == b'\\' {
        out.push(b'\\')?;
    }
    out.push(byte)?;
    Ok(())
}
