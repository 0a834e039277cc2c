//! The texts of tokens, and when two tokens are the same.

ghost use Rattle.std.specs.Prelude.{◌≡◌, ◌∷◌, [], length, true, IfSome, IsTrue, ◌↔◌};
ghost use Rattle.std.specs.Option.{IfNone};
ghost use Rattle.tptp_lex.specs.Lexing.{IsSpan, IsTokenOf};
ghost use Rattle.tptp_lex.specs.Texts as spec;
ghost use Rattle.tptp_lex.specs.Texts.{token_text, AreSame};

use crate::token::{Kind, Token};
use std::marker::Model;

impl Token {
    /// The bytes of the token, as they stand in its text.
    pub fn spelling<'a>(self, text: &'a [u8]) -> &'a [u8]
        requires { IsSpan (length text.now) self }
        ensures { result.now ≡ spec.spelling_of text.now self }
    {
        &text[self.start as usize..self.end as usize]
    }
}

/// The bytes of a token's text that are still to come. Quotes and escapes are no part of it.
#[derive(Drop)]
pub struct TextBytes<'a> {
    quote: Option<u8>,
    rest: &'a [u8],
}

impl<'a> Model for TextBytes<'a> {
    ghost use Rattle.std.specs.Prelude.{List, ℕ};
    ghost use Rattle.tptp_lex.specs.Texts.{text_left};

    ghost Value = { List ℕ };

    ghost view = { λ t. text_left t.quote t.rest.now };
}

impl<'a> TextBytes<'a> {
    /// The text of a token with this spelling.
    #[tactic(auto, unfolding(crate::specs::Texts::token_text))]
    pub fn new(spelling: &'a [u8]) -> TextBytes<'a>
        ensures { result ≡ token_text spelling.now }
    {
        match spelling {
            [b'\'', rest @ ..] => TextBytes {
                quote: Some(b'\''),
                rest,
            },
            [b'"', rest @ ..] => TextBytes {
                quote: Some(b'"'),
                rest,
            },
            _ => TextBytes {
                quote: None,
                rest: spelling,
            },
        }
    }

    /// Takes the next byte of the text, or gives None at its end.
    pub fn take_byte(&mut self) -> Option<u8>
        ensures byte { IfSome result (λ b. self.old ≡ b ∷ self.new) }
        ensures end { IfNone result (self.old ≡ []) }
    {
        let [b, rest @ ..] = self.rest else {
            return None;
        };
        if let Some(quote) = self.quote {
            if *b == quote {
                return None;
            }
            if *b == b'\\' {
                let [escaped, rest @ ..] = rest else {
                    return None;
                };
                self.rest = rest;
                return Some(*escaped);
            }
        }
        self.rest = rest;
        Some(*b)
    }
}

fn is_name(kind: Kind) -> bool
    ensures { result ≡ spec.is_name kind }
{
    match kind {
        Kind::Word => true,
        Kind::Quoted => true,
        _ => false,
    }
}

fn are_alike(left: Kind, right: Kind) -> bool
    ensures { IsTrue result ↔ spec.AreAlike left right }
{
    left == right || is_name(left) && is_name(right)
}

fn same_text(left: &[u8], right: &[u8]) -> bool
    ensures { IsTrue result ↔ (token_text left.now ≡ token_text right.now) }
{
    let mut ours = TextBytes::new(left);
    let mut theirs = TextBytes::new(right);
    while let Some(byte) = ours.take_byte() {
        match theirs.take_byte() {
            Some(other) => {
                if byte != other {
                    return false;
                }
            }
            None => return false,
        }
    }
    theirs.take_byte().is_none()
}

/// Whether two tokens are the same: a word and a quoted atom with the same text are the same, and
/// else kinds and texts are equal. A text is without quotes and escapes.
pub fn same_token(left: &[u8], a: Token, right: &[u8], b: Token) -> bool
    requires left { IsTokenOf left.now a }
    requires right { IsTokenOf right.now b }
    ensures { IsTrue result ↔ AreSame left.now a right.now b }
{
    are_alike(a.kind, b.kind) && same_text(a.spelling(left), b.spelling(right))
}
