//! Whether the elements of a sort exist as its regime asks. Each loop stands for one quantifier, and leaves off as soon as
//! it is decided.
ghost use Rattle.std.specs.Prelude.{◌≡◌, ◌<◌, length};
ghost use Rattle.nxf_tree.specs.Counting.{any_below};
ghost use Rattle.nxf_tree.specs.Conditions as meant;
ghost use Rattle.nxf_tree.specs.Rows.{size_at};
ghost use Rattle.fin_struct.specs.KripkeTables.{exists_in};
ghost use Rattle.domains.specs.steps.WorldTests as steps;

use fin_struct::Kripke;
use nxf_tree::Regime;

/// Whether at each world some element of the sort exists.
pub fn someone_exists(kripke: &Kripke, sort: u32) -> bool
    requires { sort < length kripke.now.existence }
    ensures { result ≡ meant.someone_exists kripke.now.worlds (size_at kripke.now.sizes sort) (exists_in kripke.now sort) }
{
    for world in 0..kripke.worlds() {
        if !someone_at(kripke, sort, world) {
            return false;
        }
    }
    true
}

/// Whether some element of the sort exists at the world.
fn someone_at(kripke: &Kripke, sort: u32, world: u32) -> bool
    requires sort_in { sort < length kripke.now.existence }
    requires world_in { world < kripke.now.worlds }
    ensures { result ≡ any_below (size_at kripke.now.sizes sort) (λ a. exists_in kripke.now sort world a) }
{
    for element in 0..kripke.size(sort) {
        if kripke.exists(sort, world, element) {
            return true;
        }
    }
    false
}

/// Whether each element of the sort exists at some world.
pub fn everyone_exists(kripke: &Kripke, sort: u32) -> bool
    requires { sort < length kripke.now.existence }
    ensures { result ≡ meant.everyone_exists kripke.now.worlds (size_at kripke.now.sizes sort) (exists_in kripke.now sort) }
{
    for element in 0..kripke.size(sort) {
        if !is_somewhere(kripke, sort, element) {
            return false;
        }
    }
    true
}

/// Whether the element exists at some world.
fn is_somewhere(kripke: &Kripke, sort: u32, element: u32) -> bool
    requires sort_in { sort < length kripke.now.existence }
    requires element_in { element < size_at kripke.now.sizes sort }
    ensures { result ≡ any_below kripke.now.worlds (λ w. exists_in kripke.now sort w element) }
{
    for world in 0..kripke.worlds() {
        if kripke.exists(sort, world, element) {
            return true;
        }
    }
    false
}

/// Whether the elements of the sort go along the relation of the index as the regime asks.
pub fn goes_along(kripke: &Kripke, sort: u32, regime: Regime, index: u32) -> bool
    requires sort_in { sort < length kripke.now.existence }
    requires index_in { index < kripke.now.indexes }
    ensures { result ≡ steps.goes_along_in kripke.now regime sort index }
{
    for from in 0..kripke.worlds() {
        if !steps_meet(kripke, sort, regime, index, from) {
            return false;
        }
    }
    true
}

/// Whether the elements go along each step from the world.
fn steps_meet(kripke: &Kripke, sort: u32, regime: Regime, index: u32, from: u32) -> bool
    requires sort_in { sort < length kripke.now.existence }
    requires index_in { index < kripke.now.indexes }
    requires from_in { from < kripke.now.worlds }
    ensures { result ≡ steps.steps_meet kripke.now regime sort index from }
{
    for to in 0..kripke.worlds() {
        if kripke.related(index, from, to) && !meets_step(kripke, sort, regime, from, to) {
            return false;
        }
    }
    true
}

/// Whether the elements go along a step.
fn meets_step(kripke: &Kripke, sort: u32, regime: Regime, from: u32, to: u32) -> bool
    requires sort_in { sort < length kripke.now.existence }
    requires from_in { from < kripke.now.worlds }
    requires to_in { to < kripke.now.worlds }
    ensures { result ≡ steps.meets_step kripke.now regime sort from to }
{
    match regime {
        Regime::Constant | Regime::Varying => true,
        Regime::Cumulative => keeps(kripke, sort, from, to),
        Regime::Decreasing => keeps(kripke, sort, to, from),
    }
}

/// Whether what exists at the first world exists at the second.
fn keeps(kripke: &Kripke, sort: u32, first: u32, second: u32) -> bool
    requires sort_in { sort < length kripke.now.existence }
    requires first_in { first < kripke.now.worlds }
    requires second_in { second < kripke.now.worlds }
    ensures { result ≡ steps.keeps kripke.now sort first second }
{
    for element in 0..kripke.size(sort) {
        if kripke.exists(sort, first, element) && !kripke.exists(sort, second, element) {
            return false;
        }
    }
    true
}
