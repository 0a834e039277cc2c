//! Formulas.
ghost use Rattle.std.specs.Prelude.{◌≡◌, ◌++◌, codes, OnOk};
ghost use Rattle.std.specs.List.{join_by};
ghost use Rattle.nxf_tree.specs.Text as spec;
ghost use Rattle.nxf_tree.specs.Text.{formula_text, unit_text, operator_text, quantifier_text, modality_text, name_text, sort_text, term_text};

use crate::term::{write_application, write_term, write_terms};
use nxf_base::{Memory, Text};
use nxf_tree::{Formula, IndexName, Mode, Op, Quantifier, SortName, Term};
use sqlite_items::Boxed;
use text_writer::{put, put_between, write_name, write_sort, write_variable};

#[cycle(formula)]
pub fn write_formula(out: &mut Vec<u8>, formula: &Formula) -> Result<(), Memory>
    ensures { OnOk result (out.new.items ≡ out.old.items ++ formula_text formula.now) }
{
    match formula {
        Formula::True => put(out, b"$true"),
        Formula::False => put(out, b"$false"),
        Formula::Atom(name, terms) => write_application(out, name, terms.as_slice()),
        Formula::Same(left, right) => write_equation(out, left, b" = ", right),
        Formula::Differ(left, right) => write_equation(out, left, b" != ", right),
        Formula::Not(part) => {
            put(out, b"~ ")?;
            write_unit(out, part.get())
        }
        Formula::And(parts) => write_members(out, b" & ", parts.as_slice()),
        Formula::Or(parts) => write_members(out, b" | ", parts.as_slice()),
        Formula::Pair(op, left, right) => {
            write_unit(out, left.get())?;
            put(out, operator(*op))?;
            write_unit(out, right.get())
        }
        Formula::Quant(quantifier, variable, sort, body) => {
            write_binder(out, *quantifier, variable, sort)?;
            write_unit(out, body.get())
        }
        Formula::Modal(mode, index, body) => {
            write_modality(out, *mode, index)?;
            write_unit(out, body.get())
        }
        Formula::Distinct(terms) => write_distinct(out, terms.as_slice()),
    }
}

/// A formula as a part of another: in brackets where it is a conjunction, a disjunction or a pair.
#[cycle(formula)]
fn write_unit(out: &mut Vec<u8>, formula: &Formula) -> Result<(), Memory>
    ensures { OnOk result (out.new.items ≡ out.old.items ++ unit_text formula.now) }
{
    if !has_brackets(formula) {
        return write_formula(out, formula);
    }
    put(out, b"( ")?;
    write_formula(out, formula)?;
    put(out, b" )")
}

/// Formulas joined by an operator.
#[cycle(formula)]
fn write_members(out: &mut Vec<u8>, operator: &[u8], formulas: &[Formula]) -> Result<(), Memory>
    ensures { OnOk result (out.new.items ≡ out.old.items ++ join_by unit_text operator.now formulas.now) }
{
    for (at, formula) in formulas.iter().enumerate() {
        put_between(out, operator, at)?;
        write_unit(out, formula)?;
    }
    Ok(())
}

fn write_equation(
    out: &mut Vec<u8>,
    left: &Boxed<Term>,
    sign: &[u8],
    right: &Boxed<Term>,
) -> Result<(), Memory>
    ensures { OnOk result (out.new.items ≡ out.old.items ++ (term_text left.now ++ sign.now ++ term_text right.now)) }
{
    write_term(out, left.get())?;
    put(out, sign)?;
    write_term(out, right.get())
}

/// A quantifier with its variable and its sort.
fn write_binder(
    out: &mut Vec<u8>,
    quantifier: Quantifier,
    variable: &Text,
    sort: &SortName,
) -> Result<(), Memory>
    ensures { OnOk result (out.new.items ≡ out.old.items ++ (quantifier_text quantifier ++ variable.now ++ codes ": " ++ sort_text sort.now ++ codes "] : ")) }
{
    match quantifier {
        Quantifier::All => put(out, b"! [")?,
        Quantifier::Exists => put(out, b"? [")?,
    }
    write_variable(out, variable)?;
    put(out, b": ")?;
    write_sort(out, sort)?;
    put(out, b"] : ")
}

/// A box or a diamond, with its index if it has one.
fn write_modality(out: &mut Vec<u8>, mode: Mode, index: &IndexName) -> Result<(), Memory>
    ensures { OnOk result (out.new.items ≡ out.old.items ++ modality_text mode index.now) }
{
    match index {
        IndexName::Plain => match mode {
            Mode::Box => put(out, b"[.] "),
            Mode::Dia => put(out, b"<.> "),
        },
        IndexName::Named(name) => match mode {
            Mode::Box => write_named_modality(out, b"[#", name, b"] "),
            Mode::Dia => write_named_modality(out, b"<#", name, b"> "),
        },
    }
}

fn write_named_modality(
    out: &mut Vec<u8>,
    front: &[u8],
    name: &Text,
    back: &[u8],
) -> Result<(), Memory>
    ensures { OnOk result (out.new.items ≡ out.old.items ++ (front.now ++ name_text name.now ++ back.now)) }
{
    put(out, front)?;
    write_name(out, name)?;
    put(out, back)
}

fn write_distinct(out: &mut Vec<u8>, terms: &[Term]) -> Result<(), Memory>
    ensures { OnOk result (out.new.items ≡ out.old.items ++ (codes "$distinct(" ++ spec.terms_text terms.now ++ codes ")")) }
{
    put(out, b"$distinct(")?;
    write_terms(out, terms)?;
    put(out, b")")
}

fn operator(op: Op) -> &'static [u8]
    ensures { result.now ≡ operator_text op }
{
    match op {
        Op::Implies => b" => ",
        Op::ImpliedBy => b" <= ",
        Op::Iff => b" <=> ",
        Op::Xor => b" <~> ",
        Op::Nor => b" ~| ",
        Op::Nand => b" ~& ",
    }
}

fn has_brackets(formula: &Formula) -> bool
    ensures { result ≡ spec.has_brackets formula.now }
{
    match formula {
        Formula::And(_) => true,
        Formula::Or(_) => true,
        Formula::Pair(_, _, _) => true,
        Formula::True => false,
        Formula::False => false,
        Formula::Atom(_, _) => false,
        Formula::Same(_, _) => false,
        Formula::Differ(_, _) => false,
        Formula::Not(_) => false,
        Formula::Quant(_, _, _, _) => false,
        Formula::Modal(_, _, _) => false,
        Formula::Distinct(_) => false,
    }
}
