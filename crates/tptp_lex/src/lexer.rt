//! The tokens of a text.
ghost use Rattle.std.specs.Prelude.{◌≡◌, ◌≢◌, [], ◌<◌, ◌≤◌, ◌+◌, ◌^◌, ℕ, List, All, length, slice_get, Some, true, drop, Ok, Err, IfOk, IfErr, OnOk, ◌++◌, IsTrue, ◌↔◌};
ghost use Rattle.tptp_lex.specs.declared.token.Token.{Token};
ghost use Rattle.tptp_lex.specs.Lexing.{Piece, Begins, Lexes, IsSpan, AreSpans, token_of, IsBadPlace, BeginsClosed};
ghost use Rattle.tptp_lex.specs.LexErrors.{Explains};
ghost use Rattle.tptp_lex.specs.Texts.{IsSpelled};

use crate::front::front;
use crate::token::{Lexeme, Token};
use std::alloc::Global;
use std::marker::Model;

/// Why a text has no tokens. A place is the offset in bytes at which the longest list of lexemes
/// from the beginning of the text ends.
#[derive(Debug, Drop)]
pub enum LexError {
    /// A byte that begins no lexeme stands at this place.
    Bad(u64),
    /// A quote, a double quote or `/*` that isn't closed stands at this place.
    Unclosed(u64),
    /// There was no memory for the list of tokens.
    Memory,
}

/// The tokens of a text, in order. They don't overlap, and there are fewer than 2^32.
#[derive(Debug, Drop)]
pub struct Tokens {
    tokens: Vec<Token>,
}

impl Model for Tokens {
    ghost use Rattle.std.specs.Prelude.{List, length, ◌<◌, ◌^◌};
    ghost use Rattle.tptp_lex.specs.declared.token.Token.{Token};

    ghost Value = { List Token };

    ghost view = { λ t. t.tokens.items };

    ghost invariant = { λ t. length t.tokens.items < 2 ^ 32 };
}

impl Tokens {
    /// The tokens as a slice.
    pub fn as_slice(&self) -> &[Token]
        ensures items { result.now ≡ self.now }
        ensures few { length result.now < 2 ^ 32 }
    {
        self.tokens.as_slice()
    }

    /// How many tokens there are.
    pub fn len(&self) -> usize
        ensures { result ≡ length self.now }
    {
        self.tokens.len()
    }

    /// The token with this number, counted from 0.
    pub fn get(&self, at: usize) -> Token
        requires { at < length self.now }
        ensures { slice_get self.now at ≡ Some result }
    {
        self.tokens[at]
    }
}

/// Whether a quoted atom, a distinct object or a block comment begins here, closed or not.
fn begins_closed(text: &[u8]) -> bool
    ensures { IsTrue result ↔ BeginsClosed text.now }
{
    match text {
        [b'\'' | b'"', ..] => true,
        [b'/', b'*', ..] => true,
        _ => false,
    }
}

fn refusal(text: &[u8], at: u32) -> LexError
    requires { IsBadPlace text.now at }
    ensures { Explains text.now result }
{
    if begins_closed(&text[at as usize..]) {
        LexError::Unclosed(u64::from(at))
    } else {
        LexError::Bad(u64::from(at))
    }
}

fn push_token(tokens: &mut Vec<Token>, lexeme: Lexeme, start: u32, end: u32) -> Result<(), LexError>
    ensures ok { OnOk result (tokens.new.items ≡ tokens.old.items ++ token_of lexeme start end) }
    ensures err { IfErr result (λ e. e ≡ LexError.Memory) }
{
    if let Lexeme::Token(kind) = lexeme {
        let token = Token { kind, start, end };
        if tokens.push(token).is_err() {
            return Err(LexError::Memory);
        }
    }
    Ok(())
}

/// The tokens of a text of fewer than 2^32 bytes, with their spans: those of the lexemes that the
/// TPTP language has in this profile, each the longest that begins at its place. Where no lexemes
/// make up the whole text, it answers `Unclosed` or `Bad` with the place where the longest list of
/// them ends, by the byte that stands there. `Memory` comes only for want of memory.
pub fn lex(alloc: Global, bytes: &[u8]) -> Result<Tokens, LexError>
    requires { length bytes.now < 2 ^ 32 }
    ensures lexed { IfOk result (λ tokens. Lexes bytes.now tokens) }
    ensures refused { IfErr result (λ e. Explains bytes.now e) }
    ensures lexed_exactly { (tokens : List Token) → Lexes bytes.now tokens → result ≢ Err LexError.Memory → result ≡ Ok tokens }
    ensures refused_exactly { (e : LexError) → Explains bytes.now e → e ≢ LexError.Memory → result ≢ Err LexError.Memory → result ≡ Err e }
{
    let mut tokens = Vec::new(alloc);
    let mut rest = bytes;
    let mut at: u32 = 0;
    while !rest.is_empty() {
        let Some((lexeme, len)) = front(rest) else {
            return Err(refusal(bytes, at));
        };
        let end = at + len as u32;
        push_token(&mut tokens, lexeme, at, end)?;
        rest = &rest[len..];
        at = end;
    }
    Ok(Tokens { tokens })
}

/// The tokens of a text stand in order within it, none is empty, and none overlaps another.
pub fn spans_in_order()
    ensures order { (text : List ℕ) (ts : List Token) → Lexes text ts → AreSpans 0 (length text) ts }
    ensures within { (text : List ℕ) (ts : List Token) → Lexes text ts → All (IsSpan (length text)) ts }
{}

/// The bytes of each token of a text are a lexeme of the token's kind.
pub fn tokens_are_lexemes()
    ensures { (text : List ℕ) (ts : List Token) → Lexes text ts → All (IsSpelled text) ts }
{}

/// A text has no more tokens than bytes.
pub fn no_more_tokens_than_bytes()
    ensures { (text : List ℕ) (ts : List Token) → Lexes text ts → length ts ≤ length text }
{}

/// One list of lexemes fits a text and no other, so its tokens are determined. No text has both a
/// list and a bad place, and none has two bad places.
pub fn one_lexing()
    ensures lexemes { (text : List ℕ) (ps qs : List Piece) → Begins text ps [] → Begins text qs [] → ps ≡ qs }
    ensures tokens { (text : List ℕ) (ts us : List Token) → Lexes text ts → Lexes text us → ts ≡ us }
    ensures either { (text : List ℕ) (ts : List Token) (at : ℕ) → Lexes text ts → IsBadPlace text at → ⊥ }
    ensures place { (text : List ℕ) (at other : ℕ) → IsBadPlace text at → IsBadPlace text other → at ≡ other }
{}
