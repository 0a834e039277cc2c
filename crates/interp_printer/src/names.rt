//! The names of elements.
ghost use Rattle.std.specs.Prelude.{◌≡◌, ◌<◌, ◌++◌, length, IfOk, OnOk};
ghost use Rattle.nxf_tree.specs.Problem.{classical_sort_at, role_named};
ghost use Rattle.nxf_tree.specs.Text.{term_text};
ghost use Rattle.text_writer.specs.Front.{front_text};
ghost use Rattle.interpretation_text_definitions.specs.ElementNames as spelled;
ghost use Rattle.interpretation_text_definitions.specs.InterpretationText.{element};

use itoa::Buffer;
use nxf_base::{Memory, Text};
use nxf_tree::{Role, SortName};
use std::alloc::Global;
use text_writer::{write_front, write_name};

/// The name of the sort with the number, counted from 0.
#[tactic(auto, using(crate::proofs::SortPlaces::classical_sort_is))]
pub fn sort_at(sorts: &[SortName], number: usize) -> &SortName
    requires { number < length sorts.now }
    ensures { result.now ≡ classical_sort_at sorts.now number }
{
    &sorts[number]
}

/// What the names of a sort's elements begin with.
fn stem(alloc: Global, sorts: &[SortName], sort: usize) -> Result<Text, Memory>
    requires { sort < length sorts.now }
    ensures { IfOk result (λ stem. stem ≡ spelled.stem_of sort (classical_sort_at sorts.now sort)) }
{
    if sort == 0 {
        return Text::from_bytes(alloc, b"mk_w_");
    }
    match sort_at(sorts, sort) {
        SortName::Individual => Text::from_bytes(alloc, b"mk_i_"),
        SortName::User(name) => {
            let front = Text::joined(alloc, b"mk_e_", name.bytes())?;
            Text::joined(alloc, front.bytes(), b"_")
        }
    }
}

/// The name of an element of a sort.
#[tactic(auto, using(text_writer::proofs::CallerLemmas::numeral_decimal), unfolding(interpretation_text_definitions::specs::ElementNames::element_name))]
pub fn element_name(
    alloc: Global,
    sorts: &[SortName],
    sort: usize,
    number: u32,
) -> Result<Text, Memory>
    requires { sort < length sorts.now }
    ensures { IfOk result (λ name. name ≡ spelled.element_name sorts.now sort number) }
{
    let stem = stem(alloc, sorts, sort)?;
    let mut buffer = Buffer::new();
    Text::joined(
        alloc,
        stem.bytes(),
        buffer.format(u64::from(number)).as_bytes(),
    )
}

/// An element of a sort.
pub fn write_element(
    alloc: Global,
    out: &mut Vec<u8>,
    sorts: &[SortName],
    sort: usize,
    number: u32,
) -> Result<(), Memory>
    requires { sort < length sorts.now }
    ensures { OnOk result (out.new.items ≡ out.old.items ++ term_text (element sorts.now sort number)) }
{
    let name = element_name(alloc, sorts, sort, number)?;
    write_name(out, &name)
}

/// What stands before the body of a statement with this name and a role of one word.
pub fn open_statement(
    alloc: Global,
    out: &mut Vec<u8>,
    name: &Text,
    word: &[u8],
) -> Result<(), Memory>
    ensures { OnOk result (out.new.items ≡ out.old.items ++ front_text name.now (role_named word.now)) }
{
    let word = Text::from_bytes(alloc, word)?;
    write_front(out, name, &Role { word, suffix: None })
}
