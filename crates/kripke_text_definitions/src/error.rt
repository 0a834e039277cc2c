use nxf_base::Memory;

/// Why a token list gives no Kripke structure.
#[derive(Debug, Drop)]
pub enum KripkeTextError {
    /// With this statement, counted from 1, no text of a structure over the signature begins so; or the text ends where
    /// this statement is missing.
    Form(u64),
    /// More worlds than the limit.
    TooManyWorlds(u64),
    /// More cells than the limit.
    TooBig(u64),
    /// There was no memory.
    Memory,
}

impl From<Memory> for KripkeTextError {
    ghost use Rattle.std.specs.Prelude.{◌≡◌};
    ghost use Rattle.kripke_text_definitions.specs.declared.error.KripkeTextError.TheVariants.{Memory};

    ghost from_gives = { λ _ e. e ≡ Memory };

    fn from(_: Memory) -> KripkeTextError {
        KripkeTextError::Memory
    }
}
