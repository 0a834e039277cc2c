//! Why a file is refused.

use nxf_base::{Memory, Text};

/// Why there is no gathered file. Texts are names of files and of statements; numbers of statements count from 1 in the
/// file that is named.
#[derive(Debug, Drop)]
pub enum GatherError {
    /// No library has the file.
    NoFile(Text),
    /// A library failed.
    ReadFault,
    /// The file is longer than 16,777,216 bytes.
    TooLong(Text),
    /// The files that were loaded are together longer than 67,108,864 bytes.
    TooMuch,
    /// The file is included more than 16 levels deep.
    Deep(Text),
    /// No lexeme begins at this offset of the file.
    Lex(Text, u64),
    /// This statement of the file is the first that the grammar does not read.
    Syntax(Text, u32),
    /// The file that is included, with what it includes, has no statement of the name that is listed.
    NoSuchName(Text, Text),
    /// There was no memory.
    Memory,
}

impl From<Memory> for GatherError {
    ghost use Rattle.std.specs.Prelude.{◌≡◌};
    ghost use Rattle.syntax_definitions.specs.declared.gather_error.GatherError.TheVariants.{Memory};

    ghost from_gives = { λ _ e. e ≡ Memory };

    fn from(_: Memory) -> GatherError {
        GatherError::Memory
    }
}
