//! Why tokens are no file, and lists that grow while they are read.
ghost use Rattle.std.specs.Prelude.{◌≡◌, [], ◌∷◌, ◌++◌, OnOk, IfErr};

use nxf_base::{List, Memory};
use std::alloc::AllocError;

/// Why tokens give no file.
#[derive(Debug, Drop)]
pub enum GrammarError {
    /// No rule reads the statement with this number, counted from 1; it is the first such statement.
    Syntax(u32),
    /// There was no memory for the trees.
    Memory,
}

impl From<AllocError> for GrammarError {
    ghost use Rattle.std.specs.Prelude.{◌≡◌};
    ghost use Rattle.nxf_terminals.specs.declared.error.GrammarError.TheVariants.{Memory};

    ghost from_gives = { λ _ e. e ≡ Memory };

    fn from(_: AllocError) -> GrammarError {
        GrammarError::Memory
    }
}

impl From<Memory> for GrammarError {
    ghost use Rattle.std.specs.Prelude.{◌≡◌};
    ghost use Rattle.nxf_terminals.specs.declared.error.GrammarError.TheVariants.{Memory};

    ghost from_gives = { λ _ e. e ≡ Memory };

    fn from(_: Memory) -> GrammarError {
        GrammarError::Memory
    }
}

/// Appends the item, which is let go where there is no memory.
pub fn push<T: Drop>(list: &mut List<T>, item: T) -> Result<(), GrammarError>
    ensures pushed { OnOk result (list.new ≡ list.old ++ item ∷ []) }
    ensures memory { IfErr result (λ e. e ≡ GrammarError.Memory) }
{
    match list.push(item) {
        Ok(()) => Ok(()),
        Err(_) => Err(GrammarError::Memory),
    }
}
