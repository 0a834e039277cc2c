//! The tokens of a text, statement by statement.
ghost use Rattle.std.specs.Prelude.{◌≡◌, ◌<◌, ◌≤◌, ◌^◌, [], All, IfSome, length};
ghost use Rattle.std.specs.Option.{IfNone};
ghost use Rattle.tptp_lex.specs.Lexing.{IsSpan};
ghost use Rattle.plain_tokens.specs.PlainTokens.{plain_of, plains_of};
ghost use Rattle.kripke_text_definitions.specs.TokenStatements as split;
ghost use Rattle.kripke_text.specs.steps.Reading.{IsFirstLength, IsNext};

use crate::matcher::{Matcher, is_token};
use std::marker::Model;
use tptp_lex::{Kind, Token};

/// Whether the token is a full stop.
fn is_stop(bytes: &[u8], token: Token) -> bool
    requires { IsSpan (length bytes.now) token }
    ensures { result ≡ split.is_stop (plain_of bytes.now token) }
{
    is_token(bytes, token, Kind::Punct, b".")
}

/// How many tokens the first statement has.
fn first_len(bytes: &[u8], left: &[Token]) -> usize
    requires spans { All (IsSpan (length bytes.now)) left.now }
    requires some { 0 < length left.now }
    ensures within { result ≤ length left.now }
    ensures cut { IsFirstLength bytes.now left.now result }
{
    for (at, token) in left.iter().enumerate() {
        if is_stop(bytes, *token) {
            return at + 1;
        }
    }
    left.len()
}

/// The statements that are still to come.
#[derive(Drop)]
pub struct Statements<'a> {
    bytes: &'a [u8],
    left: &'a [Token],
}

impl<'a> Model for Statements<'a> {
    ghost use Rattle.std.specs.Prelude.{List, All, length, ◌<◌, ◌^◌};
    ghost use Rattle.tptp_lex.specs.Lexing.{IsSpan};
    ghost use Rattle.plain_tokens.specs.PlainTokens.{Plain, plains_of};
    ghost use Rattle.kripke_text_definitions.specs.TokenStatements as split;

    ghost Value = { List (List Plain) };

    ghost view = { λ s. split.statements (plains_of s.bytes.now s.left.now) };

    ghost invariant = { λ s. (All (IsSpan (length s.bytes.now)) s.left.now) × (length s.left.now < 2 ^ 32) };
}

impl<'a> Statements<'a> {
    /// All statements of the tokens.
    pub fn new(bytes: &'a [u8], left: &'a [Token]) -> Statements<'a>
        requires spans { All (IsSpan (length bytes.now)) left.now }
        requires few { length left.now < 2 ^ 32 }
        ensures { result ≡ split.statements (plains_of bytes.now left.now) }
    {
        Statements { bytes, left }
    }

    /// Takes the next statement, to compare its tokens.
    pub fn take_next(&mut self) -> Option<Matcher<'a>>
        ensures some { IfSome result (λ found. IsNext self.old found self.new) }
        ensures none { IfNone result (self.old ≡ []) }
    {
        if self.left.is_empty() {
            return None;
        }
        let len = first_len(self.bytes, self.left);
        let first = &self.left[..len];
        self.left = &self.left[len..];
        Some(Matcher::new(self.bytes, first))
    }
}
