//! Names, bare or in quotes, and sorts.
ghost use Rattle.std.specs.Prelude.{◌≡◌, ◌++◌, flat_map, OnOk, OnErr};
ghost use Rattle.std.specs.Io.{StartsWith};
ghost use Rattle.std.specs.List.{list_all};
ghost use Rattle.nxf_tree.specs.Text as spec;
ghost use Rattle.nxf_tree.specs.Text.{name_text, sort_text, escaped_byte};

use crate::bytes::put;
use nxf_base::{Memory, Text};
use nxf_tree::SortName;

/// Appends a name: bare exactly where it is a word of a letter from `a` to `z`, then letters, digits and `_`; else in single
/// quotes, with `\` before `'` and `\`. Where there is no memory, what the buffer held stays at its front.
pub fn write_name(out: &mut Vec<u8>, name: &Text) -> Result<(), Memory>
    ensures text { OnOk result (out.new.items ≡ out.old.items ++ name_text name.now) }
    ensures kept { OnErr result (StartsWith out.new.items out.old.items) }
{
    write_name_bytes(out, name.bytes())
}

/// The same for the bytes of a name.
#[tactic(auto, using(crate::proofs::Starts::starts_after, crate::proofs::Starts::starts_same))]
pub fn write_name_bytes(out: &mut Vec<u8>, name: &[u8]) -> Result<(), Memory>
    ensures text { OnOk result (out.new.items ≡ out.old.items ++ name_text name.now) }
    ensures kept { OnErr result (StartsWith out.new.items out.old.items) }
{
    if is_bare(name) {
        return put(out, name);
    }
    put(out, b"'")?;
    write_escaped(out, name)?;
    put(out, b"'")
}

// The bytes of a name, as they stand between quotes.
#[tactic(auto, using(crate::proofs::Starts::starts_after, crate::proofs::Starts::starts_same))]
fn write_escaped(out: &mut Vec<u8>, bytes: &[u8]) -> Result<(), Memory>
    ensures text { OnOk result (out.new.items ≡ out.old.items ++ flat_map escaped_byte bytes.now) }
    ensures kept { OnErr result (StartsWith out.new.items out.old.items) }
{
    for byte in bytes {
        write_escaped_byte(out, *byte)?;
    }
    Ok(())
}

#[tactic(auto, using(crate::proofs::Starts::starts_after, crate::proofs::Starts::starts_same))]
fn write_escaped_byte(out: &mut Vec<u8>, byte: u8) -> Result<(), Memory>
    ensures text { OnOk result (out.new.items ≡ out.old.items ++ escaped_byte byte) }
    ensures kept { OnErr result (StartsWith out.new.items out.old.items) }
{
    if byte == b'\'' || byte == b'\\' {
        out.push(b'\\')?;
    }
    out.push(byte)?;
    Ok(())
}

fn is_bare(name: &[u8]) -> bool
    ensures { result ≡ spec.is_bare name.now }
{
    match name {
        [] => false,
        [first, rest @ ..] => first.is_ascii_lowercase() && all_bare(rest),
    }
}

fn all_bare(bytes: &[u8]) -> bool
    ensures { result ≡ list_all spec.is_bare_byte bytes.now }
{
    bytes.iter().all(|byte| is_bare_byte(*byte))
}

fn is_bare_byte(byte: u8) -> bool
    ensures { result ≡ spec.is_bare_byte byte }
{
    byte.is_ascii_alphanumeric() || byte == b'_'
}

/// Appends a sort: `$i`, or the name of a user's sort. Where there is no memory, what the buffer held stays at its front.
#[tactic(auto, using(crate::proofs::Starts::starts_same))]
pub fn write_sort(out: &mut Vec<u8>, sort: &SortName) -> Result<(), Memory>
    ensures text { OnOk result (out.new.items ≡ out.old.items ++ sort_text sort.now) }
    ensures kept { OnErr result (StartsWith out.new.items out.old.items) }
{
    match sort {
        SortName::Individual => put(out, b"$i"),
        SortName::User(name) => write_name(out, name),
    }
}
