//! The bytes of one file.
ghost use Rattle.std.specs.Prelude.{◌≡◌, ◌≤◌, Err, IfOk, IfErr, length, map};
ghost use Rattle.nxf_include.specs.Roots.{TellBytes, TellRefusal, shelves_of, KeepEach, SomeFaultRose, EachMissRose};
ghost use Rattle.syntax_definitions.specs.Refusals.{IsOfLoading, OnNoFile};

use crate::gather_error::{no_file, too_long};
use crate::{GatherError, Roots, load_first};
use nxf_base::{Found, Library, LoadError, Text};
use std::alloc::Global;

/// The greatest length of one file.
const FILE_LIMIT: u64 = 16_777_216;

/// The bytes of one file, at most 16,777,216. Where the libraries tell their files, the answer is theirs. Whatever they tell, a
/// file is absent only where each library missed it, and there is a read fault only where a library failed.
pub fn load_one(alloc: Global, roots: &mut Roots, name: &Text) -> Result<Vec<u8>, GatherError>
    ensures bytes { IfOk result (λ bytes. TellBytes (shelves_of shelf roots.old) name.now bytes.items) }
    ensures refusal { IfErr result (TellRefusal (shelves_of shelf roots.old) name.now) }
    ensures limit { IfOk result (λ bytes. length bytes.items ≤ 16777216) }
    ensures only { IfErr result IsOfLoading }
    ensures no_file { OnNoFile result (EachMissRose (shelves_of shelf roots.old) (shelves_of shelf roots.new)) }
    ensures read_fault { result ≡ Err GatherError.ReadFault → SomeFaultRose (shelves_of shelf roots.old) (shelves_of shelf roots.new) }
    ensures keeps { KeepEach (shelves_of shelf roots.old) (shelves_of shelf roots.new) }
{
    load_one_from(alloc, &mut roots.libraries, name)
}

/// The same over any libraries.
pub fn load_one_from<L: Library>(
    alloc: Global,
    libraries: &mut [L],
    name: &Text,
) -> Result<Vec<u8>, GatherError>
    ensures bytes { IfOk result (λ bytes. TellBytes (map L.shelf libraries.old) name.now bytes.items) }
    ensures refusal { IfErr result (TellRefusal (map L.shelf libraries.old) name.now) }
    ensures limit { IfOk result (λ bytes. length bytes.items ≤ 16777216) }
    ensures only { IfErr result IsOfLoading }
    ensures no_file { OnNoFile result (EachMissRose (map L.shelf libraries.old) (map L.shelf libraries.new)) }
    ensures read_fault { result ≡ Err GatherError.ReadFault → SomeFaultRose (map L.shelf libraries.old) (map L.shelf libraries.new) }
    ensures keeps { KeepEach (map L.shelf libraries.old) (map L.shelf libraries.new) }
{
    let mut bytes = Vec::new(alloc);
    match load_first(libraries, name, FILE_LIMIT, &mut bytes) {
        Ok(Found::Here) => {
            if bytes.len() > FILE_LIMIT as usize {
                return Err(too_long(alloc, name));
            }
            Ok(bytes)
        }
        Ok(Found::Absent) => Err(no_file(alloc, name)),
        Err(LoadError::Fault) => Err(GatherError::ReadFault),
        Err(LoadError::Memory) => Err(GatherError::Memory),
    }
}
