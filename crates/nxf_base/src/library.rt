//! What a library of files answers.
ghost use Rattle.std.specs.Prelude.{◌≡◌, ◌<◌, ◌^◌, Ok, IsErrOf};
ghost use Rattle.nxf_base.specs.Causes.{Rose};
ghost use Rattle.nxf_base.specs.Load.{Loads};
ghost use Rattle.nxf_base.specs.Shelf.{Shelf, Keeps};

use crate::Text;
use std::alloc::AllocError;

/// Whether a library has a file of the name.
#[derive(Debug, Drop, Clone, Copy)]
pub enum Found {
    /// It has one, and its bytes were appended.
    Here,
    /// It has none.
    Absent,
}

/// Why a load gave no answer: the library failed, or there was no memory.
#[derive(Debug, Drop, Clone, Copy)]
pub enum LoadError {
    /// The library failed.
    Fault,
    /// There was no memory for the bytes.
    Memory,
}

impl From<AllocError> for LoadError {
    ghost use Rattle.std.specs.Prelude.{◌≡◌};
    ghost use Rattle.nxf_base.specs.declared.library.LoadError.TheVariants.{Memory};

    ghost from_gives = { λ _ error. error ≡ Memory };

    fn from(_: AllocError) -> LoadError {
        LoadError::Memory
    }
}

/// A library of files that are asked for by name. It may tell its files, as a map from names to bytes.
pub trait Library: Drop {
    /// Its files, where it tells them, and how often it failed and how often it had no file of a name.
    ghost shelf: { Self → Shelf };

    /// Asks for a file. `Here` appends its bytes to `into`, or its first `limit + 1` where it has more than `limit`;
    /// `Absent` and an error append nothing. Where the files are told, `Here` and the bytes are by the map.
    fn load(&mut self, name: &Text, limit: u64, into: &mut Vec<u8>) -> Result<Found, LoadError>
        requires { limit < 2 ^ 32 }
        ensures loads { Loads (shelf self.old).files name.now limit result into.old.items into.new.items }

        // The map stays, and neither count falls.
        ensures keeps { Keeps (shelf self.old) (shelf self.new) }

        // A failure and a miss are counted, up to the last value of the count.
        ensures fault { IsErrOf result LoadError.Fault → Rose (shelf self.old).faults (shelf self.new).faults }
        ensures absent { result ≡ Ok Found.Absent → Rose (shelf self.old).misses (shelf self.new).misses };

    /// How often it has failed, up to 2^64 - 1.
    fn faults(&self) -> u64
        ensures { result ≡ (shelf self.now).faults };

    /// How often it has had no file of the name that was asked for, up to 2^64 - 1.
    fn misses(&self) -> u64
        ensures { result ≡ (shelf self.now).misses };
}

/// A library whose kind the caller chose.
pub type BoxedLibrary = Box<dyn Library>;

impl Library for BoxedLibrary {
    ghost shelf = { λ b. (Library-box b).shelf b.value };

    fn load(&mut self, name: &Text, limit: u64, into: &mut Vec<u8>) -> Result<Found, LoadError> {
        (**self).load(name, limit, into)
    }

    fn faults(&self) -> u64 {
        (**self).faults()
    }

    fn misses(&self) -> u64 {
        (**self).misses()
    }
}
