//! Whether the relation of an index meets a scheme. Each loop stands for one quantifier, and leaves off as soon as it is decided.
ghost use Rattle.std.specs.Prelude.{◌≡◌, ◌<◌, ◌&&◌, nat_eq};
ghost use Rattle.nxf_tree.specs.Counting.{all_below, any_below, implies};
ghost use Rattle.nxf_tree.specs.Conditions.{meets_scheme};
ghost use Rattle.fin_struct.specs.KripkeTables.{related_in};
ghost use Rattle.frames.specs.steps.WorldTests as steps;

use fin_struct::Kripke;
use nxf_tree::Scheme;

/// Whether the relation of the index meets the scheme.
pub fn meets(kripke: &Kripke, index: u32, scheme: Scheme) -> bool
    requires { index < kripke.now.indexes }
    ensures { result ≡ meets_scheme scheme kripke.now.worlds (related_in kripke.now index) }
{
    for from in 0..kripke.worlds() {
        if !meets_at(kripke, index, scheme, from) {
            return false;
        }
    }
    true
}

/// Whether the worlds that are reached from `from` meet the scheme.
fn meets_at(kripke: &Kripke, index: u32, scheme: Scheme, from: u32) -> bool
    requires index_in { index < kripke.now.indexes }
    requires from_in { from < kripke.now.worlds }
    ensures { result ≡ steps.meets_at scheme kripke.now.worlds (related_in kripke.now index) from }
{
    match scheme {
        Scheme::T => kripke.related(index, from, from),
        Scheme::D => reaches_some(kripke, index, from),
        Scheme::U => reaches_all(kripke, index, from),
        Scheme::B
        | Scheme::Four
        | Scheme::Five
        | Scheme::CD
        | Scheme::BoxM
        | Scheme::C4
        | Scheme::C => steps_meet(kripke, index, scheme, from),
    }
}

/// Whether some world is reached.
fn reaches_some(kripke: &Kripke, index: u32, from: u32) -> bool
    requires index_in { index < kripke.now.indexes }
    requires from_in { from < kripke.now.worlds }
    ensures { result ≡ any_below kripke.now.worlds (λ v. related_in kripke.now index from v) }
{
    for to in 0..kripke.worlds() {
        if kripke.related(index, from, to) {
            return true;
        }
    }
    false
}

/// Whether each world is reached.
fn reaches_all(kripke: &Kripke, index: u32, from: u32) -> bool
    requires index_in { index < kripke.now.indexes }
    requires from_in { from < kripke.now.worlds }
    ensures { result ≡ all_below kripke.now.worlds (λ v. related_in kripke.now index from v) }
{
    for to in 0..kripke.worlds() {
        if !kripke.related(index, from, to) {
            return false;
        }
    }
    true
}

/// Whether each step from the world meets the scheme.
fn steps_meet(kripke: &Kripke, index: u32, scheme: Scheme, from: u32) -> bool
    requires index_in { index < kripke.now.indexes }
    requires from_in { from < kripke.now.worlds }
    ensures { result ≡ steps.steps_meet scheme kripke.now.worlds (related_in kripke.now index) from }
{
    for to in 0..kripke.worlds() {
        if kripke.related(index, from, to) && !meets_step(kripke, index, scheme, from, to) {
            return false;
        }
    }
    true
}

/// Whether a step meets the scheme.
fn meets_step(kripke: &Kripke, index: u32, scheme: Scheme, from: u32, to: u32) -> bool
    requires index_in { index < kripke.now.indexes }
    requires from_in { from < kripke.now.worlds }
    requires to_in { to < kripke.now.worlds }
    ensures { result ≡ steps.meets_step scheme kripke.now.worlds (related_in kripke.now index) from to }
{
    match scheme {
        Scheme::T | Scheme::D | Scheme::U => true,
        Scheme::B => kripke.related(index, to, from),
        Scheme::Four => reaches_what(kripke, index, from, to),
        Scheme::Five => reaches_what(kripke, index, to, from),
        Scheme::CD => reaches_only(kripke, index, from, to),
        Scheme::BoxM => kripke.related(index, to, to),
        Scheme::C4 => reaches_over_some(kripke, index, from, to),
        Scheme::C => meets_each(kripke, index, from, to),
    }
}

/// Whether each world that is reached from `other` is reached from `from`.
fn reaches_what(kripke: &Kripke, index: u32, from: u32, other: u32) -> bool
    requires index_in { index < kripke.now.indexes }
    requires from_in { from < kripke.now.worlds }
    requires other_in { other < kripke.now.worlds }
    ensures { result ≡ steps.reaches_what kripke.now.worlds (related_in kripke.now index) from other }
{
    for to in 0..kripke.worlds() {
        if kripke.related(index, other, to) && !kripke.related(index, from, to) {
            return false;
        }
    }
    true
}

/// Whether no world but `only` is reached from `from`.
fn reaches_only(kripke: &Kripke, index: u32, from: u32, only: u32) -> bool
    requires index_in { index < kripke.now.indexes }
    requires from_in { from < kripke.now.worlds }
    requires only_in { only < kripke.now.worlds }
    ensures { result ≡ all_below kripke.now.worlds (λ u. implies (related_in kripke.now index from u) (nat_eq only u)) }
{
    for to in 0..kripke.worlds() {
        if kripke.related(index, from, to) && only != to {
            return false;
        }
    }
    true
}

/// Whether `to` is reached from `from` over some world.
fn reaches_over_some(kripke: &Kripke, index: u32, from: u32, to: u32) -> bool
    requires index_in { index < kripke.now.indexes }
    requires from_in { from < kripke.now.worlds }
    requires to_in { to < kripke.now.worlds }
    ensures { result ≡ any_below kripke.now.worlds (λ u. related_in kripke.now index from u && related_in kripke.now index u to) }
{
    for over in 0..kripke.worlds() {
        if kripke.related(index, from, over) && kripke.related(index, over, to) {
            return true;
        }
    }
    false
}

/// Whether each world that is reached from `from` reaches some world that `other` reaches.
fn meets_each(kripke: &Kripke, index: u32, from: u32, other: u32) -> bool
    requires index_in { index < kripke.now.indexes }
    requires from_in { from < kripke.now.worlds }
    requires other_in { other < kripke.now.worlds }
    ensures { result ≡ steps.meets_each kripke.now.worlds (related_in kripke.now index) from other }
{
    for to in 0..kripke.worlds() {
        if kripke.related(index, from, to) && !meet_somewhere(kripke, index, other, to) {
            return false;
        }
    }
    true
}

/// Whether both worlds reach some world.
fn meet_somewhere(kripke: &Kripke, index: u32, left: u32, right: u32) -> bool
    requires index_in { index < kripke.now.indexes }
    requires left_in { left < kripke.now.worlds }
    requires right_in { right < kripke.now.worlds }
    ensures { result ≡ any_below kripke.now.worlds (λ x. related_in kripke.now index left x && related_in kripke.now index right x) }
{
    for to in 0..kripke.worlds() {
        if kripke.related(index, left, to) && kripke.related(index, right, to) {
            return true;
        }
    }
    false
}
