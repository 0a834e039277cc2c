//! The world that a formula is translated at.
ghost use Rattle.std.specs.Prelude.{◌≡◌, IfOk};
ghost use Rattle.nxf_translate.specs.steps.Place.{term_of};

use classical_syntax::{actual_name, world_variable};
use nxf_base::{List, Memory};
use nxf_tree::Term;
use std::alloc::Global;

/// The world at which a formula is translated.
#[derive(Clone, Copy, Debug, PartialEq, Eq)]
pub enum Place {
    /// The actual world.
    Actual,
    /// The world of the variable with this number, which a quantifier over worlds binds.
    Reached(u64),
}

/// The term for a world.
#[tactic(auto, using(nxf_tree::specs::Shapes::Name_is))]
pub(crate) fn place_term(alloc: Global, place: Place) -> Result<Term, Memory>
    ensures { IfOk result (λ t. t ≡ term_of place) }
{
    match place {
        Place::Actual => Ok(Term::App(actual_name(alloc)?, List::new(alloc))),
        Place::Reached(number) => Ok(Term::Var(world_variable(alloc, number)?)),
    }
}
