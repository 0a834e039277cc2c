//! The names of the printed problem.
ghost use Rattle.std.specs.Prelude.{◌≡◌, IfOk};
ghost use Rattle.nxf_tree.specs.Names as spelled;

use itoa::Buffer;
use nxf_base::{Memory, Text};
use nxf_tree::{IndexName, SortName};
use std::alloc::Global;

/// The printed name of a user's sort or symbol: `mk_u_` stands before a name that begins with `mk_`.
#[tactic(auto, using(crate::proofs::Fronts::starts_with_begins), unfolding(nxf_tree::specs::Names::user_name))]
pub fn user_name(alloc: Global, name: &Text) -> Result<Text, Memory>
    ensures { IfOk result (λ t. t ≡ spelled.user_name name.now) }
{
    if name.bytes().starts_with(b"mk_") {
        Text::joined(alloc, b"mk_u_", name.bytes())
    } else {
        name.copy(alloc)
    }
}

/// The printed name of a user's variable: `W_` stands before a name that begins with `W_`.
#[tactic(auto, using(crate::proofs::Fronts::starts_with_begins), unfolding(nxf_tree::specs::Names::user_variable))]
pub fn user_variable(alloc: Global, name: &Text) -> Result<Text, Memory>
    ensures { IfOk result (λ t. t ≡ spelled.user_variable name.now) }
{
    if name.bytes().starts_with(b"W_") {
        Text::joined(alloc, b"W_", name.bytes())
    } else {
        name.copy(alloc)
    }
}

/// The printed name of a sort: `$i` stays, and a user's sort is named as its symbols are.
pub fn user_sort(alloc: Global, sort: &SortName) -> Result<SortName, Memory>
    ensures { IfOk result (λ s. s ≡ spelled.user_sort sort.now) }
{
    match sort {
        SortName::Individual => Ok(SortName::Individual),
        SortName::User(name) => Ok(SortName::User(user_name(alloc, name)?)),
    }
}

/// The printed name of the relation of an index: `mk_acc` without an index, `mk_acc_a` for the index `a`.
#[tactic(auto, unfolding(nxf_tree::specs::Names::relation_name))]
pub fn relation_name(alloc: Global, index: &IndexName) -> Result<Text, Memory>
    ensures { IfOk result (λ t. t ≡ spelled.relation_name index.now) }
{
    match index {
        IndexName::Plain => Text::from_bytes(alloc, b"mk_acc"),
        IndexName::Named(name) => Text::joined(alloc, b"mk_acc_", name.bytes()),
    }
}

/// The printed name of existence in a sort: `mk_in` for `$i`, `mk_in_s` for the user's sort `s`.
#[tactic(auto, unfolding(nxf_tree::specs::Names::existence_name))]
pub fn existence_name(alloc: Global, sort: &SortName) -> Result<Text, Memory>
    ensures { IfOk result (λ t. t ≡ spelled.existence_name sort.now) }
{
    match sort {
        SortName::Individual => Text::from_bytes(alloc, b"mk_in"),
        SortName::User(name) => Text::joined(alloc, b"mk_in_", name.bytes()),
    }
}

/// The variable of a world, `W_0` for number 0.
#[tactic(auto, using(crate::proofs::Numerals::numeral_decimal), unfolding(nxf_tree::specs::Names::world_variable))]
pub fn world_variable(alloc: Global, number: u64) -> Result<Text, Memory>
    ensures { IfOk result (λ t. t ≡ spelled.world_variable number) }
{
    let mut buffer = Buffer::new();
    Text::joined(alloc, b"W_", buffer.format(number).as_bytes())
}

/// The variable of an element in an added axiom, `X_0` for number 0.
#[tactic(auto, using(crate::proofs::Numerals::numeral_decimal), unfolding(nxf_tree::specs::Names::element_variable))]
pub fn element_variable(alloc: Global, number: u64) -> Result<Text, Memory>
    ensures { IfOk result (λ t. t ≡ spelled.element_variable number) }
{
    let mut buffer = Buffer::new();
    Text::joined(alloc, b"X_", buffer.format(number).as_bytes())
}

/// The name of an added axiom, `mk_ax_1` for number 1.
#[tactic(auto, using(crate::proofs::Numerals::numeral_decimal))]
pub fn axiom_name(alloc: Global, number: u64) -> Result<Text, Memory>
    ensures { IfOk result (λ t. t ≡ spelled.axiom_name number) }
{
    let mut buffer = Buffer::new();
    Text::joined(alloc, b"mk_ax_", buffer.format(number).as_bytes())
}

/// The name of the actual world, `mk_actual`.
#[tactic(auto, unfolding(nxf_tree::specs::Names::actual_name))]
pub fn actual_name(alloc: Global) -> Result<Text, Memory>
    ensures { IfOk result (λ t. t ≡ spelled.actual_name) }
{
    Text::from_bytes(alloc, b"mk_actual")
}

/// The name of the sort of worlds, `mk_world`.
#[tactic(auto, unfolding(nxf_tree::specs::Names::world_name))]
pub fn world_name(alloc: Global) -> Result<Text, Memory>
    ensures { IfOk result (λ t. t ≡ spelled.world_name) }
{
    Text::from_bytes(alloc, b"mk_world")
}

/// The sort of worlds, `mk_world`.
pub fn world_sort(alloc: Global) -> Result<SortName, Memory>
    ensures { IfOk result (λ s. s ≡ SortName.User spelled.world_name) }
{
    Ok(SortName::User(world_name(alloc)?))
}
