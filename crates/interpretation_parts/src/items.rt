//! The parts of a file, each with the number of its statement.
ghost use Rattle.std.specs.Prelude.{◌≡◌, ◌++◌, [], ◌∷◌, ◌<◌, ◌^◌, length, flat_map, OnOk, IfOk, None};
ghost use Rattle.nxf_tree.specs.Names.{same_text};
ghost use Rattle.interpretation_definitions.specs.Parts.{parts_in, parts_of, has_role};
ghost use Rattle.interpretation_parts.specs.steps.Items.{conjuncts, items_in, numbered, numbered_parts};

use nxf_base::{List, Memory};
use nxf_tree::{Body, Formula, Role, Statement, Typing};
use std::alloc::Global;

/// What a part is read from: nothing that has a form, a typing, or a formula that is no conjunction.
#[derive(Clone, Copy)]
pub enum Said<'a> {
    Nothing,
    Typing(&'a Typing),
    Formula(&'a Formula),
}

/// A part, with the number of its statement.
#[derive(Clone, Copy)]
pub struct Item<'a> {
    pub statement: u32,
    pub said: Said<'a>,
}

/// Adds the one part of a formula that is no conjunction.
fn single<'a>(statement: u32, formula: &'a Formula, items: &mut Vec<Item<'a>>) -> Result<(), Memory>
    requires { conjuncts formula.now ≡ None }
    ensures { OnOk result (items_in items.new.items ≡ items_in items.old.items ++ numbered statement (parts_in formula.now)) }
{
    put(items, statement, Said::Formula(formula))?;
    Ok(())
}

/// Adds the parts of a formula.
#[cycle(leaves)]
fn leaves<'a>(statement: u32, formula: &'a Formula, items: &mut Vec<Item<'a>>) -> Result<(), Memory>
    ensures { OnOk result (items_in items.new.items ≡ items_in items.old.items ++ numbered statement (parts_in formula.now)) }
{
    match formula {
        Formula::True => single(statement, formula, items),
        Formula::False => single(statement, formula, items),
        Formula::Atom(_, _) => single(statement, formula, items),
        Formula::Same(_, _) => single(statement, formula, items),
        Formula::Differ(_, _) => single(statement, formula, items),
        Formula::Not(_) => single(statement, formula, items),
        Formula::And(parts) => all_leaves(statement, parts, items),
        Formula::Or(_) => single(statement, formula, items),
        Formula::Pair(_, _, _) => single(statement, formula, items),
        Formula::Quant(_, _, _, _) => single(statement, formula, items),
        Formula::Modal(_, _, _) => single(statement, formula, items),
        Formula::Distinct(_) => single(statement, formula, items),
    }
}

#[cycle(leaves)]
fn all_leaves<'a>(
    statement: u32,
    formulas: &'a List<Formula>,
    items: &mut Vec<Item<'a>>,
) -> Result<(), Memory>
    ensures { OnOk result (items_in items.new.items ≡ items_in items.old.items ++ numbered statement (flat_map parts_in formulas.now)) }
{
    for formula in formulas.as_slice() {
        leaves(statement, formula, items)?;
    }
    Ok(())
}

fn is_word(role: &Role, word: &[u8]) -> bool
    ensures { result ≡ same_text word.now role.now.word }
{
    word == role.word.bytes()
}

/// Whether a formula may have the role.
fn may_have(role: &Role) -> bool
    ensures { result ≡ has_role role.now }
{
    is_word(role, b"axiom") || is_word(role, b"interpretation")
}

/// Adds the parts of a statement.
fn statement_items<'a>(
    number: u32,
    statement: &'a Statement,
    items: &mut Vec<Item<'a>>,
) -> Result<(), Memory>
    ensures { OnOk result (items_in items.new.items ≡ items_in items.old.items ++ numbered number (parts_of statement.now)) }
{
    match statement {
        Statement::Annotated {
            name: _,
            role,
            body,
        } => match body {
            Body::Formula(formula) => {
                if !may_have(role) {
                    put(items, number, Said::Nothing)?;
                }
                leaves(number, formula, items)
            }
            Body::Typing(typing) => put(items, number, Said::Typing(typing)),
            Body::Logic(_) => put(items, number, Said::Nothing),
        },
        Statement::Include { file: _, names: _ } => put(items, number, Said::Nothing),
    }
}

fn put<'a>(items: &mut Vec<Item<'a>>, statement: u32, said: Said<'a>) -> Result<(), Memory>
    ensures { OnOk result (items.new.items ≡ items.old.items ++ record { statement = statement; said = said.entry } ∷ []) }
{
    items.push(Item { statement, said })?;
    Ok(())
}

/// The parts of the statements, numbered from 1.
pub fn items_of(alloc: Global, statements: &[Statement]) -> Result<Vec<Item>, Memory>
    requires { length statements.now < 2 ^ 31 }
    ensures { IfOk result (λ items. items_in items.items ≡ numbered_parts 1 statements.now) }
{
    let mut items = Vec::new(alloc);
    let mut number: u32 = 0;
    for statement in statements {
        number += 1;
        statement_items(number, statement, &mut items)?;
    }
    Ok(items)
}
