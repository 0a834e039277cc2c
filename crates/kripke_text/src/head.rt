//! The statements for the worlds, the actual world and the elements of a sort.
ghost use Rattle.std.specs.Prelude.{◌≡◌, OnOk};
ghost use Rattle.std.specs.List.{fold};
ghost use Rattle.kripke_text_definitions.specs.KripkeText as text;
ghost use Rattle.kripke_text.specs.steps.Taking.{numbered, bar_marks, binder_front, binder_back, bracket_end, members_marks, rest_marks, local_marks};

use crate::pieces::{close_statement, equals, open_statement, prefix, world};
use crate::taker::Taker;
use nxf_base::Memory;
use nxf_tree::SortName;

/// ` | `, where something stands before it.
fn bar<M: Taker>(out: &mut M, is_behind: bool) -> Result<(), Memory>
    ensures { OnOk result (out.new ≡ fold M.takes out.old (bar_marks is_behind)) }
{
    if !is_behind {
        return Ok(());
    }
    out.blank()?;
    out.sign(b"|")?;
    out.blank()
}

/// `X = "s0"`
fn member<M: Taker>(out: &mut M, variable: &[u8], front: &[u8], n: u32) -> Result<(), Memory>
    ensures { OnOk result (out.new ≡ fold M.takes out.old (text.member variable.now (numbered front.now) n)) }
{
    out.variable(variable)?;
    equals(out)?;
    out.object(front, n)
}

/// `X = "s0" | X = "s1"`, for so many objects.
fn members<M: Taker>(out: &mut M, variable: &[u8], front: &[u8], count: u32) -> Result<(), Memory>
    ensures { OnOk result (out.new ≡ fold M.takes out.old (members_marks variable.now front.now count)) }
{
    for n in 0..count {
        bar(out, n > 0)?;
        member(out, variable, front, n)?;
    }
    Ok(())
}

/// `! [X: `
fn open_binder<M: Taker>(out: &mut M, variable: &[u8]) -> Result<(), Memory>
    ensures { OnOk result (out.new ≡ fold M.takes out.old (binder_front variable.now)) }
{
    out.sign(b"!")?;
    out.blank()?;
    out.sign(b"[")?;
    out.variable(variable)?;
    out.sign(b":")?;
    out.blank()
}

/// `] : ( `
fn close_binder<M: Taker>(out: &mut M) -> Result<(), Memory>
    ensures { OnOk result (out.new ≡ fold M.takes out.old binder_back) }
{
    out.sign(b"]")?;
    out.blank()?;
    out.sign(b":")?;
    out.blank()?;
    out.sign(b"(")?;
    out.blank()
}

/// ` )`
fn close_bracket<M: Taker>(out: &mut M) -> Result<(), Memory>
    ensures { OnOk result (out.new ≡ fold M.takes out.old bracket_end) }
{
    out.blank()?;
    out.sign(b")")
}

/// `] : ( X = "s0" | X = "s1" )`
#[tactic(auto, using(crate::proofs::Folds::fold_more))]
fn listed_members<M: Taker>(
    out: &mut M,
    variable: &[u8],
    front: &[u8],
    count: u32,
) -> Result<(), Memory>
    ensures { OnOk result (out.new ≡ fold M.takes out.old (rest_marks variable.now front.now count)) }
{
    close_binder(out)?;
    members(out, variable, front, count)?;
    close_bracket(out)
}

/// The statement for so many worlds.
pub fn worlds_statement<M: Taker>(out: &mut M, count: u32) -> Result<(), Memory>
    ensures { OnOk result (out.new ≡ fold M.takes out.old (text.worlds_statement count)) }
{
    open_statement(out, b"worlds")?;
    open_binder(out, b"W")?;
    out.dollar(b"$world")?;
    listed_members(out, b"W", b"w", count)?;
    close_statement(out)
}

/// `tff(local,interpretation,$local_world = `
pub fn local_front<M: Taker>(out: &mut M) -> Result<(), Memory>
    ensures { OnOk result (out.new ≡ fold M.takes out.old local_marks) }
{
    open_statement(out, b"local")?;
    out.dollar(b"$local_world")?;
    equals(out)
}

/// The statement for the actual world.
pub fn local_statement<M: Taker>(out: &mut M, actual: u32) -> Result<(), Memory>
    ensures { OnOk result (out.new ≡ fold M.takes out.old (text.local_statement actual)) }
{
    local_front(out)?;
    world(out, actual)?;
    close_statement(out)
}

/// A sort as it stands behind a variable.
fn sort_mark<M: Taker>(out: &mut M, sort: &SortName) -> Result<(), Memory>
    ensures { OnOk result (out.new ≡ M.takes out.old (text.sort_mark sort.now)) }
{
    match sort {
        SortName::Individual => out.dollar(b"$i"),
        SortName::User(name) => out.name(name.bytes()),
    }
}

/// The statement for so many elements of a sort.
pub fn domain_statement<M: Taker>(out: &mut M, sort: &SortName, count: u32) -> Result<(), Memory>
    ensures { OnOk result (out.new ≡ fold M.takes out.old (text.domain_statement sort.now count)) }
{
    open_statement(out, b"domain")?;
    open_binder(out, b"X")?;
    sort_mark(out, sort)?;
    listed_members(out, b"X", prefix(sort), count)?;
    close_statement(out)
}
