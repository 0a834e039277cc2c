//! Refusals of files, with the names that they carry.
ghost use Rattle.std.specs.Prelude.{◌≡◌, ◌⊎◌};

use nxf_base::{Memory, Text};
use std::alloc::Global;
use syntax_definitions::GatherError;

/// The refusal of an absent file, or want of memory for its name.
pub fn no_file(alloc: Global, name: &Text) -> GatherError
    ensures { result ≡ GatherError.NoFile name.now ⊎ result ≡ GatherError.Memory }
{
    match name.copy(alloc) {
        Ok(name) => GatherError::NoFile(name),
        Err(Memory) => GatherError::Memory,
    }
}

/// The refusal of a file that is too long, or want of memory for its name.
pub fn too_long(alloc: Global, name: &Text) -> GatherError
    ensures { result ≡ GatherError.TooLong name.now ⊎ result ≡ GatherError.Memory }
{
    match name.copy(alloc) {
        Ok(name) => GatherError::TooLong(name),
        Err(Memory) => GatherError::Memory,
    }
}

/// The refusal of a file that is included too deep, or want of memory for its name.
pub fn deep(alloc: Global, name: &Text) -> GatherError
    ensures { result ≡ GatherError.Deep name.now ⊎ result ≡ GatherError.Memory }
{
    match name.copy(alloc) {
        Ok(name) => GatherError::Deep(name),
        Err(Memory) => GatherError::Memory,
    }
}

/// The refusal of a file in which no lexeme begins at the place, or want of memory for its name.
pub fn not_lexed(alloc: Global, name: &Text, at: u64) -> GatherError
    ensures { result ≡ GatherError.Lex name.now at ⊎ result ≡ GatherError.Memory }
{
    match name.copy(alloc) {
        Ok(name) => GatherError::Lex(name, at),
        Err(Memory) => GatherError::Memory,
    }
}

/// The refusal of a file of which no rule reads the statement, or want of memory for its name.
pub fn not_read(alloc: Global, name: &Text, place: u32) -> GatherError
    ensures { result ≡ GatherError.Syntax name.now place ⊎ result ≡ GatherError.Memory }
{
    match name.copy(alloc) {
        Ok(name) => GatherError::Syntax(name, place),
        Err(Memory) => GatherError::Memory,
    }
}

/// The refusal of a list with a name that no statement of the file has, or want of memory for the two names.
pub fn no_such_name(alloc: Global, file: &Text, name: &Text) -> GatherError
    ensures { result ≡ GatherError.NoSuchName file.now name.now ⊎ result ≡ GatherError.Memory }
{
    match file.copy(alloc) {
        Ok(file) => match name.copy(alloc) {
            Ok(name) => GatherError::NoSuchName(file, name),
            Err(Memory) => GatherError::Memory,
        },
        Err(Memory) => GatherError::Memory,
    }
}
