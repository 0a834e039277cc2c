//! Statements, and whole files.
ghost use Rattle.std.specs.Prelude.{◌≡◌, ◌++◌, flat_map, codes, IfOk, OnOk, IsTrue};
ghost use Rattle.std.specs.List.{join_by, list_all};
ghost use Rattle.nxf_tree.specs.declared.profile.Profile.{Profile};
ghost use Rattle.syntax_definitions.specs.Levels.{Fits};
ghost use Rattle.syntax_definitions.specs.Spells.{Spells};
ghost use Rattle.nxf_tree.specs.Text.{text_of, is_printable, has_text, body_has_text, statement_text, chosen_text, body_text, name_text};

use crate::formula::write_formula;
use nxf_base::{List, Memory, Text};
use nxf_tree::{Body, File, Statement};
use std::alloc::Global;
use text_writer::{put, put_between, write_front, write_name, write_typing};

/// The text of a file without logic statements: a line for each statement, in the syntax of TPTP's TF0; modalities and includes
/// have the text that NXF has for them. In a profile without modalities in which the file is regular, and which has the levels
/// that the file needs, the text spells the file. There is no other error than want of memory.
pub fn print_file(alloc: Global, file: &File) -> Result<Vec<u8>, Memory>
    requires printable { IsTrue (is_printable file.now) }
    ensures text { IfOk result (λ text. text.items ≡ text_of file.now) }
    ensures spells { (p : Profile) → Fits p file.now → IfOk result (λ text. Spells p text.items file.now) }
{
    let mut out = Vec::new(alloc);
    write_statements(&mut out, file.statements.as_slice())?;
    Ok(out)
}

fn write_statements(out: &mut Vec<u8>, statements: &[Statement]) -> Result<(), Memory>
    requires { IsTrue (list_all has_text statements.now) }
    ensures { OnOk result (out.new.items ≡ out.old.items ++ flat_map statement_text statements.now) }
{
    for statement in statements {
        write_statement(out, statement)?;
    }
    Ok(())
}

fn write_statement(out: &mut Vec<u8>, statement: &Statement) -> Result<(), Memory>
    requires { IsTrue (has_text statement.now) }
    ensures { OnOk result (out.new.items ≡ out.old.items ++ statement_text statement.now) }
{
    match statement {
        Statement::Annotated { name, role, body } => {
            write_front(out, name, role)?;
            write_body(out, body)?;
            put(out, b").\n")
        }
        Statement::Include { file, names } => {
            put(out, b"include(")?;
            write_name(out, file)?;
            write_chosen(out, names)?;
            put(out, b").\n")
        }
    }
}

fn write_body(out: &mut Vec<u8>, body: &Body) -> Result<(), Memory>
    requires { IsTrue (body_has_text body.now) }
    ensures { OnOk result (out.new.items ≡ out.old.items ++ body_text body.now) }
{
    match body {
        Body::Formula(formula) => write_formula(out, formula),
        Body::Typing(typing) => write_typing(out, typing),
        Body::Logic(_) => unreachable!(),
    }
}

/// The names that an include statement chooses.
fn write_chosen(out: &mut Vec<u8>, names: &Option<List<Text>>) -> Result<(), Memory>
    ensures { OnOk result (out.new.items ≡ out.old.items ++ chosen_text names.now) }
{
    match names {
        None => Ok(()),
        Some(names) => {
            put(out, b",[")?;
            write_names(out, names.as_slice())?;
            put(out, b"]")
        }
    }
}

fn write_names(out: &mut Vec<u8>, names: &[Text]) -> Result<(), Memory>
    ensures { OnOk result (out.new.items ≡ out.old.items ++ join_by name_text (codes ",") names.now) }
{
    for (at, name) in names.iter().enumerate() {
        put_between(out, b",", at)?;
        write_name(out, name)?;
    }
    Ok(())
}
