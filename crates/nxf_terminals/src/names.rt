//! The texts of names.

ghost use Rattle.std.specs.Prelude.{◌≡◌, ◌++◌, IfOk};
ghost use Rattle.nxf_terminals.specs.Names as spec;
ghost use Rattle.tptp_lex.specs.Texts as texts;

use nxf_base::{Memory, Text};
use std::alloc::Global;
use tptp_lex::TextBytes;

/// A text whose bytes come one by one, as those in quotes do.
fn collected(alloc: Global, mut bytes: TextBytes<'_>) -> Result<Text, Memory>
    ensures { IfOk result (λ text. text ≡ bytes.entry) }
{
    let mut found = Vec::new(alloc);
    while let Some(byte) = bytes.take_byte() {
        if found.push(byte).is_err() {
            return Err(Memory);
        }
    }
    Text::from_bytes(alloc, found.as_slice())
}

/// The text of a token with this spelling, without the quotes and escapes of a quoted atom. `Memory`
/// comes only for want of memory.
#[tactic(auto, unfolding(tptp_lex::specs::Texts::token_text))]
pub fn token_text(alloc: Global, spelling: &[u8]) -> Result<Text, Memory>
    ensures { IfOk result (λ text. text ≡ texts.token_text spelling.now) }
{
    match spelling {
        [b'\'' | b'"', ..] => collected(alloc, TextBytes::new(spelling)),
        _ => Text::from_bytes(alloc, spelling),
    }
}

/// Whether the spelling of a name is a word, and not quoted.
pub fn is_word(spelling: &[u8]) -> bool
    ensures { result ≡ spec.is_word spelling.now }
{
    match spelling {
        [] => false,
        [b'\'', ..] => false,
        _ => true,
    }
}
