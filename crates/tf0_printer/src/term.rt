//! Terms.
ghost use Rattle.std.specs.Prelude.{◌≡◌, ◌++◌, OnOk};
ghost use Rattle.nxf_tree.specs.Text.{term_text, terms_text, application_text};

use nxf_base::{Memory, Text};
use nxf_tree::Term;
use text_writer::{put, put_between, write_name, write_variable};

#[cycle(term)]
pub fn write_term(out: &mut Vec<u8>, term: &Term) -> Result<(), Memory>
    ensures { OnOk result (out.new.items ≡ out.old.items ++ term_text term.now) }
{
    match term {
        Term::Var(name) => write_variable(out, name),
        Term::App(name, terms) => write_application(out, name, terms.as_slice()),
    }
}

/// A symbol, with its arguments in brackets if it has any.
#[cycle(term)]
pub fn write_application(out: &mut Vec<u8>, name: &Text, terms: &[Term]) -> Result<(), Memory>
    ensures { OnOk result (out.new.items ≡ out.old.items ++ application_text name.now terms.now) }
{
    write_name(out, name)?;
    if terms.is_empty() {
        return Ok(());
    }
    put(out, b"(")?;
    write_terms(out, terms)?;
    put(out, b")")
}

/// Terms between commas.
#[cycle(term)]
pub fn write_terms(out: &mut Vec<u8>, terms: &[Term]) -> Result<(), Memory>
    ensures { OnOk result (out.new.items ≡ out.old.items ++ terms_text terms.now) }
{
    for (at, term) in terms.iter().enumerate() {
        put_between(out, b",", at)?;
        write_term(out, term)?;
    }
    Ok(())
}
