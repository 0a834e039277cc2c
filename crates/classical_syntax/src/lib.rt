//! The parts that printed problems are made of: the printed names, small formulas about worlds and elements, and what a
//! signature says of its sorts and symbols by their numbers. There is no other error than want of memory.
#![tactic(auto)]

mod build;
mod names;
mod questions;

pub use build::{
    both, element, exists_at, for_each_element, for_each_world, for_some_element, for_some_world,
    implies, reaches, same_worlds, two_terms, world,
};
pub use names::{
    actual_name, axiom_name, element_variable, existence_name, relation_name, user_name, user_sort,
    user_variable, world_name, world_sort, world_variable,
};
pub use questions::{is_constant, is_constant_regime, is_flexible_designation, sort_at};
