//! Reads a Kripke structure.
ghost use Rattle.std.specs.Prelude.{◌≡◌, ◌<◌, ◌∷◌, map, IfOk, IfErr, OnOk};
ghost use Rattle.tptp_lex.specs.Lexing.{Lexes};
ghost use Rattle.nxf_tree.specs.Rows as rows;
ghost use Rattle.nxf_tree.specs.WellFormed.{IsWellFormed};
ghost use Rattle.fin_struct.specs.KripkeTables.{KripkeTables, IsKripke, IsKripkeFor, others_of};
ghost use Rattle.plain_tokens.specs.PlainTokens.{plains_of};
ghost use Rattle.plain_tokens.specs.Marks.{plains};
ghost use Rattle.kripke_text_definitions.specs.Reading.{Explains};
ghost use Rattle.kripke_text.specs.Texts.{GivesOnly, IsPrintOf, IsTextOf};
ghost use Rattle.kripke_text.specs.steps.Subjects.{IsIn, table_of};
ghost use Rattle.kripke_text.specs.steps.Reading.{AreBlank, IsBlank, LimitRefuses, TablesRefuse};
ghost use Rattle.kripke_text.specs.steps.ReadByHead.{blank_with, AreTextOf, ExplainsAll};
ghost use Rattle.kripke_text.specs.steps.ReadBySubject.{TakesStatement};
ghost use Rattle.kripke_text.specs.steps.Written.{tables_marks};

use crate::read_head::{Head, read_head};
use crate::read_table::read_table;
use crate::statements::Statements;
use crate::subject::{Subject, subjects};
use fin_struct::{Kripke, ShapeError};
use kripke_text_definitions::KripkeTextError;
use nxf_base::Memory;
use nxf_tree::Signature;
use std::alloc::Global;
use tptp_lex::Tokens;

/// The Kripke structure over the signature whose text these tokens are: it is the only one. `Form` comes with the number of the
/// first statement at fault, `TooManyWorlds` and `TooBig` where the head is whole and above a limit; a fault behind the head
/// comes after these.
pub fn read(
    alloc: Global,
    bytes: &[u8],
    tokens: &Tokens,
    over: &Signature,
) -> Result<Kripke, KripkeTextError>
    requires lexed { Lexes bytes.now tokens.now }
    requires well_formed { IsWellFormed over.now }
    ensures read { IfOk result (λ made. IsTextOf over.now made (plains_of bytes.now tokens.now)) }
    ensures refused { IfErr result (Explains over.now (plains_of bytes.now tokens.now)) }
    ensures exact { (k : KripkeTables) → IsTextOf over.now k (plains_of bytes.now tokens.now) → GivesOnly k result }
    ensures printed { (k : KripkeTables) → IsPrintOf over.now k bytes.now → GivesOnly k result }
{
    let mut statements = Statements::new(bytes, tokens.as_slice());
    read_statements(alloc, &mut statements, over)
}

/// Reads all statements of a text.
fn read_statements(
    alloc: Global,
    statements: &mut Statements<'_>,
    over: &Signature,
) -> Result<Kripke, KripkeTextError>
    requires { IsWellFormed over.now }
    ensures read { IfOk result (AreTextOf over.now statements.old) }
    ensures refused { IfErr result (ExplainsAll over.now statements.old) }
{
    let head = read_head(alloc, statements, over)?;
    let mut kripke = blank_structure(alloc, over, &head)?;
    read_tables(alloc, statements, over, &mut kripke)?;
    Ok(kripke)
}

/// A structure with nothing written but the actual world, or the limit that it is above.
fn blank_structure(alloc: Global, over: &Signature, head: &Head) -> Result<Kripke, KripkeTextError>
    requires well_formed { IsWellFormed over.now }
    requires worlds { head.now.sizes ≡ rows.size_at head.now.sizes 0 ∷ others_of head.now.sizes }
    requires actual { head.now.actual < rows.size_at head.now.sizes 0 }
    requires sizes { rows.AreSizes over.now.sorts (others_of head.now.sizes) }
    ensures made { IfOk result (λ made. made ≡ blank_with over.now head.now) }
    ensures over { IfOk result (λ made. IsKripkeFor over.now made) }
    ensures within { IfOk result (λ made. IsKripke made) }
    ensures refused { IfErr result (LimitRefuses over.now (rows.size_at head.now.sizes 0) (others_of head.now.sizes)) }
{
    match Kripke::new(alloc, over, &head.sizes) {
        Ok(mut kripke) => {
            kripke.set_actual(head.actual);
            Ok(kripke)
        }
        Err(ShapeError::TooManyWorlds(worlds)) => Err(KripkeTextError::TooManyWorlds(worlds)),
        Err(ShapeError::TooBig(cells)) => Err(KripkeTextError::TooBig(cells)),
        Err(ShapeError::Memory) => Err(KripkeTextError::Memory),
    }
}

/// Reads the statements behind the head, one for each table, into the structure.
fn read_tables(
    alloc: Global,
    statements: &mut Statements<'_>,
    over: &Signature,
    kripke: &mut Kripke,
) -> Result<(), KripkeTextError>
    requires well_formed { IsWellFormed over.now }
    requires within { IsKripke kripke.old }
    requires over { IsKripkeFor over.now kripke.old }
    requires blank { AreBlank kripke.old.tables }
    ensures kept { OnOk result (kripke.new ≡ record kripke.old { tables = kripke.new.tables }) }
    ensures read { OnOk result (statements.old ≡ map plains (tables_marks over.now kripke.new)) }
    ensures over { OnOk result (IsKripkeFor over.now kripke.new) }
    ensures within { OnOk result (IsKripke kripke.new) }
    ensures refused { IfErr result (TablesRefuse over.now kripke.old statements.old) }
{
    let subjects = subjects(alloc, over)?;
    let first = over.sorts.len() as u64 + 3;
    for (place, subject) in subjects.as_slice().iter().enumerate() {
        if !next_table(alloc, statements, over, kripke, *subject)? {
            return Err(KripkeTextError::Form(first + place as u64));
        }
    }
    if statements.take_next().is_some() {
        return Err(KripkeTextError::Form(first + subjects.len() as u64));
    }
    Ok(())
}

/// Whether the next statement is that of a table. Where it is, it is taken, and the table is written into the structure.
fn next_table(
    alloc: Global,
    statements: &mut Statements<'_>,
    over: &Signature,
    kripke: &mut Kripke,
    subject: Subject,
) -> Result<bool, Memory>
    requires well_formed { IsWellFormed over.now }
    requires within { IsKripke kripke.old }
    requires over { IsKripkeFor over.now kripke.old }
    requires subject_in { IsIn over.now subject }
    requires blank { IsBlank (table_of kripke.old subject) }
    ensures taken { IfOk result (TakesStatement over.now subject statements.old statements.new kripke.old kripke.new) }
    ensures over { IfOk result (λ _. IsKripkeFor over.now kripke.new) }
    ensures within { IfOk result (λ _. IsKripke kripke.new) }
{
    let Some(matcher) = statements.take_next() else {
        return Ok(false);
    };
    read_table(alloc, &matcher, over, kripke, subject)
}
