//! What a part of an interpretation says.
ghost use Rattle.std.specs.Prelude.{◌≡◌, [], IfOk, Some};
ghost use Rattle.std.specs.Option.{option_copied, option_map};
ghost use Rattle.interpretation_definitions.specs.Parts as parts;
ghost use Rattle.interpretation_definitions.specs.Parts.{argument, named_by, member_of, closed_names, negated_part, equation_part, quantified_part};
ghost use Rattle.interpretation_parts.specs.steps.Readings.{reading_part, names_in, member_list};
ghost use Rattle.interpretation_parts.specs.steps.Items.{said_part, leaf};

use crate::argument::plain;
use crate::items::Said;
use nxf_base::{Memory, Text};
use nxf_tree::{Formula, Quantifier, SortName, Term, Typing};
use std::alloc::Global;

/// A part: of no form; a declaration; a closure; a predicate, as it stands or after `~`; a function with its value; `!=`;
/// `$distinct`; or `$true`.
#[derive(Drop)]
pub enum Reading<'a> {
    Formless,
    Declares(&'a Typing),
    Closes(&'a SortName, Vec<&'a Text>),
    Applies(bool, &'a Text, &'a [Term]),
    Equates(&'a Text, &'a [Term], &'a Term),
    Differs(&'a Term, &'a Term),
    AllDiffer(&'a [Term]),
    SaysNothing,
}

/// The name that a term equal to the variable of a closure is.
fn named<'a>(x: &Text, left: &Term, right: &'a Term) -> Option<&'a Text>
    ensures { option_copied result ≡ named_by x.now left.now (argument right.now) }
{
    match left {
        Term::Var(y) => { if x == y { plain(right) } else { None } }
        Term::App(_, _) => None,
    }
}

/// The name that a member of a closure lists.
fn member<'a>(x: &Text, formula: &'a Formula) -> Option<&'a Text>
    ensures { option_copied result ≡ member_of x.now formula.now }
{
    match formula {
        Formula::True => None,
        Formula::False => None,
        Formula::Atom(_, _) => None,
        Formula::Same(left, right) => named(x, left.get(), right.get()),
        Formula::Differ(_, _) => None,
        Formula::Not(_) => None,
        Formula::And(_) => None,
        Formula::Or(_) => None,
        Formula::Pair(_, _, _) => None,
        Formula::Quant(_, _, _, _) => None,
        Formula::Modal(_, _, _) => None,
        Formula::Distinct(_) => None,
    }
}

/// The names that the members of a closure list, where each lists one.
fn member_names<'a>(
    alloc: Global,
    x: &Text,
    formulas: &'a [Formula],
) -> Result<Option<Vec<&'a Text>>, Memory>
    ensures { IfOk result (λ names. option_map names_in names ≡ member_list x.now formulas.now) }
{
    let mut names = Vec::new(alloc);
    for formula in formulas {
        match member(x, formula) {
            Some(name) => names.push(name)?,
            None => return Ok(None),
        }
    }
    Ok(Some(names))
}

/// The names that the body of a closure lists.
fn names_of<'a>(alloc: Global, x: &Text, body: &'a Formula) -> Result<Option<Vec<&'a Text>>, Memory>
    ensures { IfOk result (λ names. option_map names_in names ≡ closed_names x.now body.now) }
{
    match body {
        Formula::True => Ok(None),
        Formula::False => Ok(None),
        Formula::Atom(_, _) => Ok(None),
        Formula::Same(left, right) => one_name(alloc, named(x, left.get(), right.get())),
        Formula::Differ(_, _) => Ok(None),
        Formula::Not(_) => Ok(None),
        Formula::And(_) => Ok(None),
        Formula::Or(parts) => member_names(alloc, x, parts.as_slice()),
        Formula::Pair(_, _, _) => Ok(None),
        Formula::Quant(_, _, _, _) => Ok(None),
        Formula::Modal(_, _, _) => Ok(None),
        Formula::Distinct(_) => Ok(None),
    }
}

/// The name alone, if there is one.
fn one_name<'a>(alloc: Global, name: Option<&'a Text>) -> Result<Option<Vec<&'a Text>>, Memory>
    ensures { IfOk result (λ names. option_map names_in names ≡ parts.and_name (option_copied name.entry) (Some [])) }
{
    match name {
        Some(name) => {
            let mut names = Vec::new(alloc);
            names.push(name)?;
            Ok(Some(names))
        }
        None => Ok(None),
    }
}

/// What a quantified formula says.
fn quantified<'a>(
    alloc: Global,
    quantifier: Quantifier,
    x: &Text,
    sort: &'a SortName,
    body: &'a Formula,
) -> Result<Reading<'a>, Memory>
    ensures { IfOk result (λ r. reading_part r ≡ quantified_part quantifier x.now sort.now body.now) }
{
    match quantifier {
        Quantifier::All => match names_of(alloc, x, body)? {
            Some(names) => Ok(Reading::Closes(sort, names)),
            None => Ok(Reading::Formless),
        },
        Quantifier::Exists => Ok(Reading::Formless),
    }
}

/// What stands after `~`.
fn negated<'a>(formula: &'a Formula) -> Reading<'a>
    ensures { reading_part result ≡ negated_part formula.now }
{
    match formula {
        Formula::True => Reading::Formless,
        Formula::False => Reading::Formless,
        Formula::Atom(name, terms) => Reading::Applies(false, name, terms.as_slice()),
        Formula::Same(_, _) => Reading::Formless,
        Formula::Differ(_, _) => Reading::Formless,
        Formula::Not(_) => Reading::Formless,
        Formula::And(_) => Reading::Formless,
        Formula::Or(_) => Reading::Formless,
        Formula::Pair(_, _, _) => Reading::Formless,
        Formula::Quant(_, _, _, _) => Reading::Formless,
        Formula::Modal(_, _, _) => Reading::Formless,
        Formula::Distinct(_) => Reading::Formless,
    }
}

/// What an equation says.
fn equation<'a>(left: &'a Term, right: &'a Term) -> Reading<'a>
    ensures { reading_part result ≡ equation_part left.now (argument right.now) }
{
    match left {
        Term::Var(_) => Reading::Formless,
        Term::App(name, terms) => Reading::Equates(name, terms.as_slice(), right),
    }
}

/// What a formula says that is no conjunction.
fn single<'a>(alloc: Global, formula: &'a Formula) -> Result<Reading<'a>, Memory>
    ensures { IfOk result (λ r. reading_part r ≡ leaf formula.now) }
{
    match formula {
        Formula::True => Ok(Reading::SaysNothing),
        Formula::False => Ok(Reading::Formless),
        Formula::Atom(name, terms) => Ok(Reading::Applies(true, name, terms.as_slice())),
        Formula::Same(left, right) => Ok(equation(left.get(), right.get())),
        Formula::Differ(left, right) => Ok(Reading::Differs(left.get(), right.get())),
        Formula::Not(part) => Ok(negated(part.get())),
        Formula::And(_) => Ok(Reading::Formless),
        Formula::Or(_) => Ok(Reading::Formless),
        Formula::Pair(_, _, _) => Ok(Reading::Formless),
        Formula::Quant(quantifier, x, sort, body) => {
            quantified(alloc, *quantifier, x, sort, body.get())
        }
        Formula::Modal(_, _, _) => Ok(Reading::Formless),
        Formula::Distinct(terms) => Ok(Reading::AllDiffer(terms.as_slice())),
    }
}

/// What an item says.
pub fn read_item<'a>(alloc: Global, said: Said<'a>) -> Result<Reading<'a>, Memory>
    ensures { IfOk result (λ r. reading_part r ≡ said_part said.entry) }
{
    match said {
        Said::Nothing => Ok(Reading::Formless),
        Said::Typing(typing) => Ok(Reading::Declares(typing)),
        Said::Formula(formula) => single(alloc, formula),
    }
}
