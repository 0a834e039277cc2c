//! The marks of the pieces of a text, for whatever takes them.
ghost use Rattle.std.specs.Prelude.{◌≡◌, ◌<◌, ◌++◌, codes, length, OnOk, All, IsTrue, true, map, ◌∷◌, []};
ghost use Rattle.std.specs.List.{fold};
ghost use Rattle.nxf_tree.specs.Sorting.{in_range, gives_in_range};
ghost use Rattle.nxf_tree.specs.Signature as named;
ghost use Rattle.std.specs.Option.{option_map};
ghost use Rattle.plain_tokens.specs.Marks.{Dollar, Name};
ghost use Rattle.kripke_text_definitions.specs.KripkeText as text;
ghost use Rattle.kripke_text.specs.steps.Taking.{comma_marks, lead_marks, opening_marks, closing_marks, truth_marks, place_marks, place_end};
ghost use Rattle.kripke_text.specs.steps.Written.{application_of};

use crate::taker::Taker;
use classical_syntax::sort_at;
use nxf_base::{Memory, Text};
use nxf_tree::{IndexName, Signature, SortName};

#[tactic(auto, unfolding(kripke_text_definitions::specs::KripkeText::interpretation_word))]
fn interpretation_word<M: Taker>(out: &mut M) -> Result<(), Memory>
    ensures { OnOk result (out.new ≡ M.takes out.old (Name text.interpretation_word)) }
{
    out.name(b"interpretation")
}

/// `tff(NAME,interpretation,`
pub fn open_statement<M: Taker>(out: &mut M, name: &[u8]) -> Result<(), Memory>
    ensures { OnOk result (out.new ≡ fold M.takes out.old (opening_marks name.now)) }
{
    out.name(b"tff")?;
    out.sign(b"(")?;
    out.name(name)?;
    out.sign(b",")?;
    interpretation_word(out)?;
    out.sign(b",")
}

/// `).` and the end of the line.
pub fn close_statement<M: Taker>(out: &mut M) -> Result<(), Memory>
    ensures { OnOk result (out.new ≡ fold M.takes out.old closing_marks) }
{
    out.sign(b")")?;
    out.sign(b".")?;
    out.line()
}

#[tactic(auto, unfolding(kripke_text_definitions::specs::KripkeText::true_word))]
fn true_word<M: Taker>(out: &mut M) -> Result<(), Memory>
    ensures { OnOk result (out.new ≡ M.takes out.old (Dollar text.true_word)) }
{
    out.dollar(b"$true")
}

/// `$true`, where there was no literal.
pub fn truth<M: Taker>(out: &mut M, none: bool) -> Result<(), Memory>
    ensures { OnOk result (out.new ≡ fold M.takes out.old (truth_marks none)) }
{
    if none {
        return true_word(out);
    }
    Ok(())
}

/// ` & `
pub fn and_sign<M: Taker>(out: &mut M) -> Result<(), Memory>
    ensures { OnOk result (out.new ≡ fold M.takes out.old text.and_sign) }
{
    out.blank()?;
    out.sign(b"&")?;
    out.blank()
}

/// `&` before a literal that isn't the first.
pub fn lead<M: Taker>(out: &mut M, none: bool) -> Result<(), Memory>
    ensures { OnOk result (out.new ≡ fold M.takes out.old (lead_marks none)) }
{
    if none {
        return Ok(());
    }
    and_sign(out)
}

/// ` = `
pub fn equals<M: Taker>(out: &mut M) -> Result<(), Memory>
    ensures { OnOk result (out.new ≡ fold M.takes out.old text.equals) }
{
    out.blank()?;
    out.sign(b"=")?;
    out.blank()
}

/// World `n`.
pub fn world<M: Taker>(out: &mut M, n: u32) -> Result<(), Memory>
    ensures { OnOk result (out.new ≡ M.takes out.old (text.world n)) }
{
    out.object(b"w", n)
}

/// What the elements of a sort begin with.
pub fn prefix(sort: &SortName) -> &[u8]
    ensures { result.now ≡ text.prefix sort.now }
{
    match sort {
        SortName::Individual => b"$i",
        SortName::User(name) => name.bytes(),
    }
}

/// Element `n` of a sort.
pub fn element<M: Taker>(out: &mut M, sort: &SortName, n: u32) -> Result<(), Memory>
    ensures { OnOk result (out.new ≡ M.takes out.old (text.element sort.now n)) }
{
    out.object(prefix(sort), n)
}

#[tactic(auto, unfolding(kripke_text_definitions::specs::KripkeText::access_word))]
fn access_word<M: Taker>(out: &mut M) -> Result<(), Memory>
    ensures { OnOk result (out.new ≡ M.takes out.old (Dollar text.access_word)) }
{
    out.dollar(b"$accessible_world")
}

fn plain_access<M: Taker>(out: &mut M) -> Result<(), Memory>
    ensures { OnOk result (out.new ≡ fold M.takes out.old (text.access_front IndexName.Plain)) }
{
    access_word(out)?;
    out.sign(b"(")
}

fn named_access<M: Taker>(out: &mut M, name: &Text) -> Result<(), Memory>
    ensures { OnOk result (out.new ≡ fold M.takes out.old (text.access_front (IndexName.Named name.now))) }
{
    access_word(out)?;
    out.sign(b"(")?;
    out.sign(b"#")?;
    out.name(name.bytes())?;
    out.sign(b",")
}

/// `$accessible_world(`, and the index where it has a name.
fn access_front<M: Taker>(out: &mut M, index: &IndexName) -> Result<(), Memory>
    ensures { OnOk result (out.new ≡ fold M.takes out.old (text.access_front index.now)) }
{
    match index {
        IndexName::Plain => plain_access(out),
        IndexName::Named(name) => named_access(out, name),
    }
}

/// `$accessible_world("w0","w1"`, with the index where it has a name.
#[tactic(auto, using(crate::proofs::Folds::fold_more))]
pub fn access<M: Taker>(out: &mut M, index: &IndexName, from: u32, to: u32) -> Result<(), Memory>
    ensures { OnOk result (out.new ≡ fold M.takes out.old (text.front (text.Access index.now) (from ∷ to ∷ []))) }
{
    access_front(out, index)?;
    world(out, from)?;
    out.sign(b",")?;
    world(out, to)
}

#[tactic(auto, unfolding(kripke_text_definitions::specs::KripkeText::exists_word))]
fn exists_word<M: Taker>(out: &mut M) -> Result<(), Memory>
    ensures { OnOk result (out.new ≡ M.takes out.old (Dollar text.exists_word)) }
{
    out.dollar(b"$exists_in_world")
}

/// `$exists_in_world("w0","s0"`
pub fn existence<M: Taker>(out: &mut M, sort: &SortName, at: u32, member: u32) -> Result<(), Memory>
    ensures { OnOk result (out.new ≡ fold M.takes out.old (text.front (text.Exists sort.now) (at ∷ member ∷ []))) }
{
    exists_word(out)?;
    out.sign(b"(")?;
    world(out, at)?;
    out.sign(b",")?;
    element(out, sort, member)
}

/// A comma, where something stands before it.
fn comma<M: Taker>(out: &mut M, is_behind: bool) -> Result<(), Memory>
    ensures { OnOk result (out.new ≡ fold M.takes out.old (comma_marks is_behind)) }
{
    if is_behind {
        return out.sign(b",");
    }
    Ok(())
}

/// Elements of the sorts with these numbers, between commas.
fn elements<M: Taker>(
    out: &mut M,
    over: &Signature,
    args: &[u32],
    row: &[u32],
) -> Result<(), Memory>
    requires long { length args.now ≡ length row.now }
    requires in_range { All (λ n. IsTrue (in_range over.now.sorts n)) args.now }
    ensures { OnOk result (out.new ≡ fold M.takes out.old (text.elements (map (named.sort_at over.now.sorts) args.now) row.now)) }
{
    for i in 0..row.len() {
        comma(out, i > 0)?;
        element(out, sort_at(over, args[i]), row[i])?;
    }
    Ok(())
}

/// A symbol with its arguments in brackets, if it has any.
pub fn application<M: Taker>(
    out: &mut M,
    over: &Signature,
    name: &Text,
    args: &[u32],
    row: &[u32],
) -> Result<(), Memory>
    requires long { length args.now ≡ length row.now }
    requires in_range { All (λ n. IsTrue (in_range over.now.sorts n)) args.now }
    ensures { OnOk result (out.new ≡ fold M.takes out.old (application_of over.now name.now args.now row.now)) }
{
    out.name(name.bytes())?;
    if row.is_empty() {
        return Ok(());
    }
    out.sign(b"(")?;
    elements(out, over, args, row)?;
    out.sign(b")")
}

/// ` = "s0"`, the value of a function's row.
pub fn value_of<M: Taker>(
    out: &mut M,
    over: &Signature,
    gives: Option<u32>,
    value: u32,
) -> Result<(), Memory>
    requires { IsTrue (gives_in_range over.now.sorts gives) }
    ensures { OnOk result (out.new ≡ fold M.takes out.old (text.value_of (option_map (named.sort_at over.now.sorts) gives) value)) }
{
    match gives {
        None => Ok(()),
        Some(sort) => {
            equals(out)?;
            element(out, sort_at(over, sort), value)
        }
    }
}

#[tactic(auto, unfolding(kripke_text_definitions::specs::KripkeText::world_word))]
fn world_word<M: Taker>(out: &mut M) -> Result<(), Memory>
    ensures { OnOk result (out.new ≡ M.takes out.old (Dollar text.world_word)) }
{
    out.dollar(b"$in_world")
}

/// `$in_world("w0",`
fn at_world<M: Taker>(out: &mut M, n: u32) -> Result<(), Memory>
    ensures { OnOk result (out.new ≡ fold M.takes out.old (place_marks true n)) }
{
    world_word(out)?;
    out.sign(b"(")?;
    world(out, n)?;
    out.sign(b",")
}

/// `$in_world("w0",`, where a literal has a world.
pub fn place<M: Taker>(out: &mut M, with_world: bool, n: u32) -> Result<(), Memory>
    ensures { OnOk result (out.new ≡ fold M.takes out.old (place_marks with_world n)) }
{
    if with_world {
        return at_world(out, n);
    }
    Ok(())
}

/// `)`, where a literal has a world.
pub fn end_place<M: Taker>(out: &mut M, with_world: bool) -> Result<(), Memory>
    ensures { OnOk result (out.new ≡ fold M.takes out.old (place_end with_world)) }
{
    if with_world {
        return out.sign(b")");
    }
    Ok(())
}
