use nxf_base::{InterpKind, Memory};

/// Why an interpretation gives no structure.
#[derive(Debug, Drop)]
pub enum InterpError {
    /// A statement, counted from 1, is refused, or some rows of a symbol's table are missing.
    Kind(InterpKind),
    /// More worlds than the limit.
    TooManyWorlds(u64),
    /// More cells than the limit.
    TooBig(u64),
    /// There was no memory.
    Memory,
}

impl From<Memory> for InterpError {
    ghost use Rattle.std.specs.Prelude.{◌≡◌};
    ghost use Rattle.interpretation_definitions.specs.declared.error.InterpError.TheVariants.{Memory};

    ghost from_gives = { λ _ e. e ≡ Memory };

    fn from(_: Memory) -> InterpError {
        InterpError::Memory
    }
}
