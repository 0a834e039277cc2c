// Libraries in boxes, and one that changes its files.
ghost use Rattle.std.specs.Prelude.{◌≡◌, ◌+◌, ◌<◌, ◌^◌, ◌++◌, take, None, Ok, OnOk, OnErr, IsErrOf};

use crate::outcome::library_of;
use nxf_base::{BoxedLibrary, Found, Library, LoadError, Text};
use nxf_include::{GatherError, Roots, gather, gather_from, load_first, load_one};
use nxf_tree::{File, Statement};
use std::alloc::Global;
use std::test::Fail;

// The names of the statements that were gathered, each with a blank after it.
fn names(alloc: Global, gathered: &Result<File, GatherError>) -> Result<Vec<u8>, Fail> {
    let Ok(file) = gathered else {
        return Err(Fail::new("nothing was gathered"));
    };
    let mut text = Vec::new(alloc);
    for statement in file.statements.as_slice() {
        match statement {
            Statement::Annotated { name, .. } => text.extend_from_slice(name.bytes())?,
            Statement::Include { file, .. } => text.extend_from_slice(file.bytes())?,
        }
        text.push(b' ')?;
    }
    Ok(text)
}

// A list of one library of these files, which fails at this load.
fn roots_of(alloc: Global, files: &[(&str, &str)], fault_at: u64) -> Result<Roots, Fail> {
    let mut library = library_of(alloc, files)?;
    library.fail_at(fault_at)?;
    let mut roots = Roots::new(alloc);
    let boxed: BoxedLibrary = Box::new(alloc, library)?;
    if roots.push(boxed).is_err() {
        return Err(Fail::new("no memory"));
    }
    Ok(roots)
}

// The first library that has a file decides; one that was dropped is asked no more.
#[test]
fn libraries_in_order(rt: HostRuntime) -> Result<(), Fail> {
    let alloc = rt.alloc();
    let mut roots = roots_of(alloc, &[("-", "include('A').")], 9)?;
    let second = library_of(alloc, &[("-", "tff(x,axiom,p)."), ("A", "tff(y,axiom,p).")])?;
    let boxed: BoxedLibrary = Box::new(alloc, second)?;
    if roots.push(boxed).is_err() {
        return Err(Fail::new("no memory"));
    }
    let name = Text::from_bytes(alloc, b"-")?;
    let both = names(alloc, &gather(alloc, &mut roots, &name))?;
    assert_eq!(rt; both.as_slice(), b"y ".as_slice());
    assert!(rt; roots.drop_last());
    let missing = gather(alloc, &mut roots, &name);
    assert!(rt; matches!(&missing, Err(GatherError::NoFile(_))));
    Ok(())
}

// One file is loaded within a limit; a load that fails is counted.
#[test]
fn single_loads(rt: HostRuntime) -> Result<(), Fail> {
    let alloc = rt.alloc();
    let mut roots = roots_of(alloc, &[("A", "tff(y,axiom,p).")], 2)?;
    let name = Text::from_bytes(alloc, b"A")?;
    let mut bytes = b"<".to_vec(alloc)?;
    assert!(rt; matches!(&roots.load(&name, 3, &mut bytes), Ok(Found::Here)));
    assert_eq!(rt; bytes.as_slice(), b"<tff(".as_slice());
    let failed = load_one(alloc, &mut roots, &name);
    assert!(rt; matches!(&failed, Err(GatherError::ReadFault)));
    if 0 < roots.len() {
        assert_eq!(rt; (roots.faults(0), roots.misses(0)), (1, 0));
    }
    Ok(())
}

/// Appends the first bytes of a file, one more than the limit at most.
pub fn append(file: &[u8], limit: u64, into: &mut Vec<u8>) -> Result<Found, LoadError>
    requires { limit < 2 ^ 32 }
    ensures here { OnOk result (into.new.items ≡ into.old.items ++ take (limit + 1) file.now) }
    ensures absent { result ≡ Ok Found.Absent → ⊥ }
    ensures err { OnErr result (into.new.items ≡ into.old.items) }
    ensures fault { IsErrOf result LoadError.Fault → ⊥ }
{
    let end = file.len().min(limit as usize + 1);
    match into.extend_from_slice(&file[..end]) {
        Ok(()) => Ok(Found::Here),
        Err(_) => Err(LoadError::Memory),
    }
}

// A library that has every file, and changes them: the first asks for another, and the second has a statement.
struct Changing {
    loads: u64,
}

impl Drop for Changing {
    fn drop(self) {
        let Changing { loads: _ } = self;
    }
}

impl Library for Changing {
    ghost shelf = { λ c. record { files = None; faults = 0; misses = 0 } };

    fn load(&mut self, name: &Text, limit: u64, into: &mut Vec<u8>) -> Result<Found, LoadError> {
        self.loads = self.loads.saturating_add(1);
        let file: &[u8] = if self.loads == 1 {
            b"include('-'). include(a)."
        } else {
            b"tff(x,axiom,p)."
        };
        append(file, limit, into)
    }

    fn faults(&self) -> u64 {
        0
    }

    fn misses(&self) -> u64 {
        0
    }
}

#[test]
fn a_library_that_changes(rt: HostRuntime) -> Result<(), Fail> {
    let alloc = rt.alloc();
    let mut libraries = [Changing { loads: 0 }];
    let name = Text::from_bytes(alloc, b"-")?;
    let twice = names(alloc, &gather_from(alloc, &mut libraries, &name))?;
    assert_eq!(rt; twice.as_slice(), b"x x ".as_slice());
    let mut bytes = b"<".to_vec(alloc)?;
    assert!(rt;
        matches!(
            &load_first(&mut libraries, &name, 2, &mut bytes),
            Ok(Found::Here)
        )
    );
    assert_eq!(rt; bytes.as_slice(), b"<tff".as_slice());
    Ok(())
}
