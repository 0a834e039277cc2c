//! A list of libraries that the caller made, asked in order.
ghost use Rattle.std.specs.Prelude.{◌≡◌, ◌↔◌, ℕ, ◌-◌, ◌<◌, ◌^◌, ◌++◌, [], ◌∷◌, length, map, take, slice_get, Some, OnOk, OnErr, IfErr, IsTrue, Ok, IsErrOf};
ghost use Rattle.nxf_base.specs.Load.{Loads};
ghost use Rattle.nxf_include.specs.Roots.{files_of, shelves_of, KeepEach, SomeFaultRose, EachMissRose};

use nxf_base::{BoxedLibrary, Found, Library, LoadError, Refused, Text};
use std::alloc::Global;

/// Libraries that the caller made, to be asked in order. Contracts see what they tell as `shelves_of shelf roots.now`.
#[derive(Drop)]
pub struct Roots {
    pub libraries: Vec<BoxedLibrary>,
}

impl Roots {
    pub fn new(alloc: Global) -> Roots
        ensures { result.libraries.items ≡ [] }
    {
        Roots {
            libraries: Vec::new(alloc),
        }
    }

    /// Adds a library that is asked after the others. Where no memory is found it is handed back.
    pub fn push(&mut self, library: BoxedLibrary) -> Result<(), Refused<BoxedLibrary>>
        ensures ok { OnOk result (self.new.libraries.items ≡ self.old.libraries.items ++ library ∷ []) }
        ensures err { OnErr result (self.new.libraries.items ≡ self.old.libraries.items) }
        ensures back { IfErr result (λ refused. refused.back ≡ library) }
    {
        match self.libraries.push(library) {
            Ok(()) => Ok(()),
            Err(failed) => Err(Refused { back: failed.value }),
        }
    }

    /// Drops the last library, where there is one.
    pub fn drop_last(&mut self) -> bool
        ensures some { IsTrue result ↔ 0 < length self.old.libraries.items }
        ensures left { let before = self.old.libraries.items in self.new.libraries.items ≡ take (length before - 1) before }
    {
        self.libraries.pop().is_some()
    }

    pub fn len(&self) -> usize
        ensures { result ≡ length self.now.libraries.items }
    {
        self.libraries.len()
    }

    /// Asks the libraries in order: the first that has the file, or fails, decides.
    pub fn load(&mut self, name: &Text, limit: u64, into: &mut Vec<u8>) -> Result<Found, LoadError>
        requires { limit < 2 ^ 32 }
        ensures loads { Loads (files_of (shelves_of shelf self.old)) name.now limit result into.old.items into.new.items }
        ensures keeps { KeepEach (shelves_of shelf self.old) (shelves_of shelf self.new) }
        ensures fault { IsErrOf result LoadError.Fault → SomeFaultRose (shelves_of shelf self.old) (shelves_of shelf self.new) }
        ensures absent { result ≡ Ok Found.Absent → EachMissRose (shelves_of shelf self.old) (shelves_of shelf self.new) }
    {
        load_first(&mut self.libraries, name, limit, into)
    }

    /// How often one library has failed.
    pub fn faults(&self, at: usize) -> u64
        requires { at < length self.now.libraries.items }
        ensures { slice_get (map (λ s. s.faults) (shelves_of shelf self.now)) at ≡ Some result }
    {
        faults_of(&self.libraries, at)
    }

    /// How often one library had no file.
    pub fn misses(&self, at: usize) -> u64
        requires { at < length self.now.libraries.items }
        ensures { slice_get (map (λ s. s.misses) (shelves_of shelf self.now)) at ≡ Some result }
    {
        misses_of(&self.libraries, at)
    }
}

/// The same over any libraries. A boxed one is a library, so the call above is this one at boxes.
pub fn load_first<L: Library>(
    libraries: &mut [L],
    name: &Text,
    limit: u64,
    into: &mut Vec<u8>,
) -> Result<Found, LoadError>
    requires { limit < 2 ^ 32 }
    ensures loads { Loads (files_of (map L.shelf libraries.old)) name.now limit result into.old.items into.new.items }
    ensures keeps { KeepEach (map L.shelf libraries.old) (map L.shelf libraries.new) }
    ensures fault { IsErrOf result LoadError.Fault → SomeFaultRose (map L.shelf libraries.old) (map L.shelf libraries.new) }
    ensures absent { result ≡ Ok Found.Absent → EachMissRose (map L.shelf libraries.old) (map L.shelf libraries.new) }
{
    for at in 0..libraries.len() {
        match libraries[at].load(name, limit, into)? {
            Found::Here => return Ok(Found::Here),
            Found::Absent => {}
        }
    }
    Ok(Found::Absent)
}

fn faults_of<L: Library>(libraries: &[L], at: usize) -> u64
    requires { at < length libraries.now }
    ensures { slice_get (map (λ s. s.faults) (map L.shelf libraries.now)) at ≡ Some result }
{
    libraries[at].faults()
}

fn misses_of<L: Library>(libraries: &[L], at: usize) -> u64
    requires { at < length libraries.now }
    ensures { slice_get (map (λ s. s.misses) (map L.shelf libraries.now)) at ≡ Some result }
{
    libraries[at].misses()
}
