//! Prints a Kripke structure.
ghost use Rattle.std.specs.Prelude.{◌≡◌, ◌++◌, flat_map, IfOk, OnOk};
ghost use Rattle.nxf_tree.specs.WellFormed.{IsWellFormed};
ghost use Rattle.fin_struct.specs.KripkeTables.{IsKripke, IsKripkeFor, kripke_structure};
ghost use Rattle.plain_tokens.specs.Marks.{spelled};
ghost use Rattle.kripke_text_definitions.specs.KripkeText as text;
ghost use Rattle.kripke_text.specs.steps.Written.{head_marks, domains_marks, tables_marks};

use crate::head::{domain_statement, local_statement, worlds_statement};
use crate::page::Page;
use crate::subject::subjects;
use crate::table::table_statement;
use fin_struct::Kripke;
use nxf_base::Memory;
use nxf_tree::Signature;
use std::alloc::Global;

/// The text of a Kripke structure over the signature. There is no other error than want of memory.
pub fn print(alloc: Global, over: &Signature, kripke: &Kripke) -> Result<Vec<u8>, Memory>
    requires well_formed { IsWellFormed over.now }
    requires over { IsKripkeFor over.now kripke.now }
    ensures { IfOk result (λ bytes. bytes.items ≡ text.ktext over.now (kripke_structure kripke.now)) }
{
    let mut page = Page::new(alloc);
    put_head(&mut page, over, kripke)?;
    put_tables(alloc, &mut page, over, kripke)?;
    Ok(page.into_bytes())
}

/// The statements for the worlds, the actual world and the elements of each sort.
fn put_head(page: &mut Page, over: &Signature, kripke: &Kripke) -> Result<(), Memory>
    requires well_formed { IsWellFormed over.now }
    requires over { IsKripkeFor over.now kripke.now }
    ensures head { OnOk result (page.new ≡ page.old ++ flat_map spelled (head_marks over.now kripke.now)) }
    ensures within { IsKripke kripke.now }
{
    let worlds = kripke.worlds();
    worlds_statement(page, worlds)?;
    local_statement(page, kripke.actual())?;
    put_domains(page, over, kripke)
}

/// The statements for the elements of each sort.
fn put_domains(page: &mut Page, over: &Signature, kripke: &Kripke) -> Result<(), Memory>
    requires well_formed { IsWellFormed over.now }
    requires over { IsKripkeFor over.now kripke.now }
    ensures { OnOk result (page.new ≡ page.old ++ flat_map spelled (domains_marks over.now kripke.now)) }
{
    for (number, sort) in over.sorts.as_slice().iter().enumerate() {
        domain_statement(page, &sort.name, kripke.size(number as u32))?;
    }
    Ok(())
}

/// The statements of the tables.
fn put_tables(
    alloc: Global,
    page: &mut Page,
    over: &Signature,
    kripke: &Kripke,
) -> Result<(), Memory>
    requires well_formed { IsWellFormed over.now }
    requires within { IsKripke kripke.now }
    requires over { IsKripkeFor over.now kripke.now }
    ensures { OnOk result (page.new ≡ page.old ++ flat_map spelled (tables_marks over.now kripke.now)) }
{
    let subjects = subjects(alloc, over)?;
    for subject in subjects.as_slice() {
        table_statement(alloc, page, over, kripke, *subject)?;
    }
    Ok(())
}
