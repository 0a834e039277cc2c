//! The tokens of a file.
ghost use Rattle.std.specs.Prelude.{◌≡◌, ◌≤◌, ◌⊎◌, IfOk, IfErr, length};
ghost use Rattle.tptp_lex.specs.Lexing.{Lexes};
ghost use Rattle.answer_definitions.specs.Answer.{OrMemory};
ghost use Rattle.check_answer.specs.Lexing.{IsLexRefusal};

use nxf_base::{Memory, Status, Text};
use std::alloc::Global;
use tptp_lex::{LexError, Tokens, lex};

/// The tokens of the bytes of the file of this name. Else the offset from which on no lexemes make them up, or want of memory.
pub fn tokens_of(alloc: Global, name: &Text, bytes: &[u8]) -> Result<Tokens, Status>
    requires { length bytes.now ≤ 16777216 }
    ensures lexed { IfOk result (λ tokens. Lexes bytes.now tokens) }
    ensures refused { IfErr result (OrMemory (IsLexRefusal name.now bytes.now)) }
{
    match lex(alloc, bytes) {
        Ok(tokens) => Ok(tokens),
        Err(LexError::Bad(at)) => Err(not_lexed(alloc, name, at)),
        Err(LexError::Unclosed(at)) => Err(not_lexed(alloc, name, at)),
        Err(LexError::Memory) => Err(Status::Memory),
    }
}

/// The refusal of a file in which no lexeme begins at the place, or want of memory for its name.
fn not_lexed(alloc: Global, name: &Text, at: u64) -> Status
    ensures { result ≡ Status.Lex name.now at ⊎ result ≡ Status.Memory }
{
    match name.copy(alloc) {
        Ok(name) => Status::Lex(name, at),
        Err(Memory) => Status::Memory,
    }
}
