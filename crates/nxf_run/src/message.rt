//! The line that tells a status.
ghost use Rattle.std.specs.Prelude.{◌≡◌, ◌++◌, ◌∷◌, IfOk, OnOk, decimal};
ghost use Rattle.nxf_base.specs.Message as spec;

use itoa::Buffer;
use nxf_base::{Fails, InterpKind, Memory, RoleKind, SortKind, SpecKind, Status};
use std::alloc::Global;

/// The line of a status, ended by a line feed, and nothing for `Ok`. There is no other error than want of memory.
pub fn message(alloc: Global, status: &Status) -> Result<Vec<u8>, Memory>
    ensures { IfOk result (λ line. line.items ≡ spec.message_of status.now) }
{
    let mut line = Vec::new(alloc);
    if matches!(status, Status::Ok) {
        return Ok(line);
    }
    add_words(&mut line, status)?;
    line.push(b'\n')?;
    Ok(line)
}

/// Adds the words of a status.
fn add_words(line: &mut Vec<u8>, status: &Status) -> Result<(), Memory>
    ensures { OnOk result (line.new.items ≡ line.old.items ++ spec.words_of status.now) }
{
    match status {
        Status::Ok => Ok(()),
        Status::Usage => add(
            line,
            b"usage: nxf embed FILE, lift FILE INTERP, lower FILE KRIPKE, check FILE KRIPKE, gen NUMBER",
        ),
        Status::NoFile(name) => add_after(line, b"no file", name.bytes()),
        Status::ReadFault => add(line, b"read fault"),
        Status::TooLong(name) => add_after(line, b"too long", name.bytes()),
        Status::TooMuch => add(line, b"too much input"),
        Status::Deep(name) => add_after(line, b"too deep", name.bytes()),
        Status::Lex(name, offset) => {
            add_after(line, b"lex", name.bytes())?;
            add_number(line, *offset)
        }
        Status::Syntax(name, place) => {
            add_after(line, b"syntax", name.bytes())?;
            add_number(line, u64::from(*place))
        }
        Status::NoSuchName(file, name) => add_no_such_name(line, file.bytes(), name.bytes()),
        Status::Role(kind, place) => add_role(line, *kind, *place),
        Status::Spec(kind) => add_spec(line, kind),
        Status::Sort(kind, place, name) => {
            add_after(line, b"sort", sort_word(*kind))?;
            add_number(line, u64::from(*place))?;
            add_next(line, name.bytes())
        }
        Status::Interp(kind) => add_interp(line, kind),
        Status::KripkeText(place) => add_numbered(line, b"kripke", *place),
        Status::TooBig(cells) => add_numbered(line, b"too big", *cells),
        Status::TooManyWorlds(worlds) => add_numbered(line, b"too many worlds", *worlds),
        Status::NotCountermodel(fault) => add_fails(line, fault),
        Status::WriteFault => add(line, b"write fault"),
        Status::Memory => add(line, b"no memory"),
        Status::NotYet => add(line, b"not yet"),
    }
}

fn add(line: &mut Vec<u8>, word: &[u8]) -> Result<(), Memory>
    ensures { OnOk result (line.new.items ≡ line.old.items ++ word.now) }
{
    line.extend_from_slice(word)?;
    Ok(())
}

/// Adds a word, a blank and another.
fn add_after(line: &mut Vec<u8>, front: &[u8], back: &[u8]) -> Result<(), Memory>
    ensures { OnOk result (line.new.items ≡ line.old.items ++ front.now ++ 32 ∷ back.now) }
{
    line.extend_from_slice(front)?;
    line.push(b' ')?;
    line.extend_from_slice(back)?;
    Ok(())
}

/// Adds a blank and a word.
fn add_next(line: &mut Vec<u8>, word: &[u8]) -> Result<(), Memory>
    ensures { OnOk result (line.new.items ≡ line.old.items ++ 32 ∷ word.now) }
{
    line.push(b' ')?;
    line.extend_from_slice(word)?;
    Ok(())
}

/// Adds a blank and a number.
fn add_number(line: &mut Vec<u8>, number: u64) -> Result<(), Memory>
    ensures { OnOk result (line.new.items ≡ line.old.items ++ 32 ∷ decimal number) }
{
    let mut buffer = Buffer::new();
    add_next(line, buffer.format(number).as_bytes())
}

fn add_numbered(line: &mut Vec<u8>, word: &[u8], number: u64) -> Result<(), Memory>
    ensures { OnOk result (line.new.items ≡ line.old.items ++ word.now ++ 32 ∷ decimal number) }
{
    add(line, word)?;
    add_number(line, number)
}

fn add_no_such_name(line: &mut Vec<u8>, file: &[u8], name: &[u8]) -> Result<(), Memory>
    ensures { OnOk result (line.new.items ≡ line.old.items ++ spec.words_of (Status.NoSuchName file.now name.now)) }
{
    add_after(line, b"no such name", file)?;
    add_next(line, name)
}

fn add_role(line: &mut Vec<u8>, kind: RoleKind, place: u32) -> Result<(), Memory>
    ensures { OnOk result (line.new.items ≡ line.old.items ++ spec.words_of (Status.Role kind place)) }
{
    match kind {
        RoleKind::Unknown => add_numbered(line, b"role unknown", u64::from(place)),
        RoleKind::TwoConjectures => add_numbered(line, b"role two-conjectures", u64::from(place)),
    }
}

fn add_spec(line: &mut Vec<u8>, kind: &SpecKind) -> Result<(), Memory>
    ensures { OnOk result (line.new.items ≡ line.old.items ++ spec.words_of (Status.Spec kind.now)) }
{
    match kind {
        SpecKind::Absent => add(line, b"spec none"),
        SpecKind::Two(place) => add_numbered(line, b"spec two", u64::from(*place)),
        SpecKind::NotModal => add(line, b"spec not-modal"),
        SpecKind::UnknownKey(key) => add_after(line, b"spec unknown-key", key.bytes()),
        SpecKind::DuplicateKey(key) => add_after(line, b"spec duplicate-key", key.bytes()),
        SpecKind::UnknownValue(key) => add_after(line, b"spec unknown-value", key.bytes()),
        SpecKind::NoModalities => add(line, b"spec no-modalities"),
    }
}

fn sort_word(kind: SortKind) -> &'static [u8]
    ensures { result.now ≡ spec.sort_word kind }
{
    match kind {
        SortKind::DoubleName => b"double-name",
        SortKind::UnknownSort => b"unknown-sort",
        SortKind::Mismatch => b"mismatch",
        SortKind::FreeVariable => b"free-variable",
        SortKind::UnknownOverride => b"unknown-override",
    }
}

fn add_interp(line: &mut Vec<u8>, kind: &InterpKind) -> Result<(), Memory>
    ensures { OnOk result (line.new.items ≡ line.old.items ++ spec.words_of (Status.Interp kind.now)) }
{
    match kind {
        InterpKind::Form(place) => add_numbered(line, b"interp form", u64::from(*place)),
        InterpKind::UnknownElement(place) => {
            add_numbered(line, b"interp unknown-element", u64::from(*place))
        }
        InterpKind::UnknownSymbol(place) => {
            add_numbered(line, b"interp unknown-symbol", u64::from(*place))
        }
        InterpKind::Clash(place) => add_numbered(line, b"interp clash", u64::from(*place)),
        InterpKind::Incomplete(symbol) => add_after(line, b"interp incomplete", symbol.bytes()),
    }
}

fn add_fails(line: &mut Vec<u8>, fault: &Fails) -> Result<(), Memory>
    ensures { OnOk result (line.new.items ≡ line.old.items ++ spec.words_of (Status.NotCountermodel fault.now)) }
{
    match fault {
        Fails::Frame(index, scheme) => {
            add_after(line, b"fails frame", index.bytes())?;
            add_next(line, scheme.bytes())
        }
        Fails::Empty(sort) => add_after(line, b"fails empty", sort.bytes()),
        Fails::Union(sort) => add_after(line, b"fails union", sort.bytes()),
        Fails::Monotone(sort, index) => {
            add_after(line, b"fails monotone", sort.bytes())?;
            add_next(line, index.bytes())
        }
        Fails::Local(symbol) => add_after(line, b"fails local", symbol.bytes()),
        Fails::Premise(place) => add_numbered(line, b"fails statement", u64::from(*place)),
        Fails::Conjecture(place) => add_numbered(line, b"fails conjecture", u64::from(*place)),
    }
}
