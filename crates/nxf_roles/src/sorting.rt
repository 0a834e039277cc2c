//! The formulas of a file by their roles.
ghost use Rattle.std.specs.Prelude.{◌≡◌, ℕ, ◌<◌, ◌^◌, List, [], ◌++◌, length, OnOk, IfOk, IfErr, Ok};
ghost use Rattle.std.specs.List.{list_any};
ghost use Rattle.nxf_tree.specs.Parts as roles;
ghost use Rattle.nxf_tree.specs.Parts.{parts_of, role_fault, statement_part, and_part};
ghost use Rattle.nxf_roles.specs.Refusals.{Refuses, fault_of};

use crate::words::{is_known, part_of};
use crate::{Part, PartEntry, Parts};
use nxf_base::{Memory, RoleKind};
use nxf_tree::{Body, File, Statement};
use std::alloc::Global;

/// Why a file has no parts: the role of a statement is refused, with the number of the statement counted from 1, or there
/// was no memory.
#[derive(Debug, Drop, Clone, Copy)]
pub enum RoleError {
    Kind(RoleKind, u32),
    Memory,
}

impl From<Memory> for RoleError {
    ghost use Rattle.std.specs.Prelude.{◌≡◌};
    ghost use Rattle.nxf_roles.specs.declared.sorting.RoleError.TheVariants.{Memory};

    ghost from_gives = { λ _ e. e ≡ Memory };

    fn from(_: Memory) -> RoleError {
        RoleError::Memory
    }
}

/// The part of each formula by the roles of TPTP: `axiom` and its kin are premises at every world, `hypothesis`,
/// `negated_conjecture` and `plain` premises at the actual world, `conjecture` is the conjecture at the actual world, and
/// the suffixes `-local` and `-global` decide where a formula counts. `type` and `logic` take no suffix. The first statement
/// whose role is none of these, or which is the second conjecture, is refused. An include has no role.
pub fn sort_roles(alloc: Global, file: &File) -> Result<Parts, RoleError>
    requires { length file.now.statements < 2 ^ 31 }
    ensures parts { IfOk result (λ parts. parts_of file.now ≡ Ok parts) }
    ensures refusal { IfErr result (Refuses (parts_of file.now)) }
{
    let mut entries = Vec::new(alloc);
    let mut conjectured = false;
    for (at, statement) in file.statements.as_slice().iter().enumerate() {
        let place = at as u32 + 1;
        match judge(statement, conjectured) {
            Ok(part) => {
                conjectured |= is_conjecture(part);
                add(&mut entries, place, part)?;
            }
            Err(kind) => return Err(RoleError::Kind(kind, place)),
        }
    }
    Ok(Parts { entries })
}

/// The part of a statement, where `conjectured` says whether a statement before it is a conjecture.
fn judge(statement: &Statement, conjectured: bool) -> Result<Option<Part>, RoleKind>
    ensures part { IfOk result (λ part. statement_part statement.now ≡ part) }
    ensures fault { (before : List Statement) → list_any (λ s. roles.is_conjecture (statement_part s)) before ≡ conjectured
        → role_fault before statement.now ≡ fault_of result }
{
    let Statement::Annotated { role, body, .. } = statement else {
        return Ok(None);
    };
    if !is_known(role) {
        return Err(RoleKind::Unknown);
    }
    let Body::Formula(_) = body else {
        return Ok(None);
    };
    let part = part_of(role);
    if conjectured && is_conjecture(part) {
        return Err(RoleKind::TwoConjectures);
    }
    Ok(part)
}

/// Adds the part of the statement with that number, where it has one.
fn add(entries: &mut Vec<PartEntry>, place: u32, part: Option<Part>) -> Result<(), Memory>
    ensures { OnOk result (entries.new.items ≡ entries.old.items ++ and_part place part []) }
{
    if let Some(part) = part {
        entries.push(PartEntry { place, part })?;
    }
    Ok(())
}

/// Whether a part is that of a conjecture.
fn is_conjecture(part: Option<Part>) -> bool
    ensures { result ≡ roles.is_conjecture part }
{
    matches!(&part, Some(Part::Conjecture(_)))
}
