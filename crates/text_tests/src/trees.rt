// Trees that are built and copied.
use nxf_base::{List, Memory, Text};
use nxf_tree::{File, Formula, IndexEntry, IndexName, Scheme, Signature, Statement, Term, boxed};
use std::alloc::Global;
use std::test::Fail;

// `~ p(X)`.
fn negation(alloc: Global) -> Result<Formula, Memory> {
    let mut terms = List::new(alloc);
    terms.push(Term::Var(Text::from_bytes(alloc, b"X")?))?;
    let atom = Formula::Atom(Text::from_bytes(alloc, b"p")?, terms);
    Ok(Formula::Not(boxed(alloc, atom)?))
}

fn negates_p(formula: &Formula) -> bool {
    match formula {
        Formula::Not(part) => match part.get() {
            Formula::Atom(name, terms) => name.bytes() == b"p".as_slice() && terms.len() == 1,
            _ => false,
        },
        _ => false,
    }
}

#[test]
fn formulas(rt: HostRuntime) -> Result<(), Fail> {
    let alloc = rt.alloc();
    let formula = negation(alloc)?;
    assert_eq!(rt; formula.depth(), 3);
    assert!(rt; negates_p(&formula.copy(alloc)?));
    Ok(())
}

#[test]
fn files(rt: HostRuntime) -> Result<(), Fail> {
    let alloc = rt.alloc();
    let mut statements = List::new(alloc);
    statements.push(Statement::Include {
        file: Text::from_bytes(alloc, b"people.ax")?,
        names: None,
    })?;
    let file = File { statements };
    assert_eq!(rt; file.copy(alloc)?.statements.len(), 1);
    Ok(())
}

#[test]
fn signatures(rt: HostRuntime) -> Result<(), Fail> {
    let alloc = rt.alloc();
    let mut schemes = List::new(alloc);
    schemes.push(Scheme::Four)?;
    let mut indexes = List::new(alloc);
    indexes.push(IndexEntry {
        name: IndexName::Plain,
        schemes,
    })?;
    let signature = Signature {
        sorts: List::new(alloc),
        symbols: List::new(alloc),
        indexes,
    };
    assert_eq!(rt; signature.copy(alloc)?.indexes.len(), 1);
    Ok(())
}
