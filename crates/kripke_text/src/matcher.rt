//! Compares tokens with the marks that are put.
ghost use Rattle.std.specs.Prelude.{◌≡◌, ◌≢◌, ℕ, List, [], ◌∷◌, length, ◌<◌, ◌^◌, All, true, false, IsTrue, ◌↔◌, None, Some, OnOk, is_some};
ghost use Rattle.tptp_lex.specs.Lexing.{IsSpan};
ghost use Rattle.tptp_lex.specs.Texts.{token_text};
ghost use Rattle.plain_tokens.specs.PlainTokens.{plain_kind, plain_of, plains_of};
ghost use Rattle.plain_tokens.specs.Marks.{Mark, mark_plains};
ghost use Rattle.kripke_text.specs.steps.Comparing.{BeginsWith, matched, object_token};
ghost use Rattle.kripke_text.specs.steps.Taking.{numbered};
ghost use Rattle.kripke_text.specs.steps.Reading.{TakesNumber};
ghost use Rattle.plain_tokens.specs.PlainTokens.{Plain};

use crate::number::{has_number, has_text, number_behind};
use crate::taker::Taker;
use nxf_base::Memory;
use std::marker::Model;
use tptp_lex::{Kind, Token};

/// The kind, where a quoted atom counts as a word.
fn plain(kind: Kind) -> Kind
    ensures { result ≡ plain_kind kind }
{
    match kind {
        Kind::Word | Kind::Quoted => Kind::Word,
        other => other,
    }
}

/// Whether the token is this one.
pub fn is_token(bytes: &[u8], token: Token, kind: Kind, text: &[u8]) -> bool
    requires { IsSpan (length bytes.now) token }
    ensures { IsTrue result ↔ (plain_of bytes.now token ≡ record { kind = kind; text = text.now }) }
{
    plain(token.kind) == kind && has_text(token.spelling(bytes), text)
}

/// Whether the token is this object.
fn is_object(bytes: &[u8], token: Token, front: &[u8], number: u32) -> bool
    requires { IsSpan (length bytes.now) token }
    ensures { IsTrue result ↔ (plain_of bytes.now token ≡ object_token front.now number) }
{
    plain(token.kind) == Kind::Distinct && has_number(token.spelling(bytes), front, number)
}

/// Whether the first of the tokens is this one.
fn is_first(bytes: &[u8], left: &[Token], kind: Kind, text: &[u8]) -> bool
    requires { All (IsSpan (length bytes.now)) left.now }
    ensures { IsTrue result ↔ BeginsWith (record { kind = kind; text = text.now }) (plains_of bytes.now left.now) }
{
    if left.is_empty() {
        return false;
    }
    is_token(bytes, left[0], kind, text)
}

/// Whether the first of the tokens is this object.
fn is_first_object(bytes: &[u8], left: &[Token], front: &[u8], number: u32) -> bool
    requires { All (IsSpan (length bytes.now)) left.now }
    ensures { IsTrue result ↔ BeginsWith (object_token front.now number) (plains_of bytes.now left.now) }
{
    if left.is_empty() {
        return false;
    }
    is_object(bytes, left[0], front, number)
}

/// Tokens of a text that are compared with marks: those that are left, as long as all marks agree.
#[derive(Drop)]
pub struct Matcher<'a> {
    bytes: &'a [u8],
    left: &'a [Token],
    agrees: bool,
}

impl<'a> Model for Matcher<'a> {
    ghost use Rattle.std.specs.Prelude.{List, Option, Some, None, All, length, ◌<◌, ◌^◌, if◌then◌else◌};
    ghost use Rattle.tptp_lex.specs.Lexing.{IsSpan};
    ghost use Rattle.plain_tokens.specs.PlainTokens.{Plain, plains_of};

    ghost Value = { Option (List Plain) };

    ghost view = { λ m. if m.agrees then Some (plains_of m.bytes.now m.left.now) else None };

    ghost invariant = { λ m. (All (IsSpan (length m.bytes.now)) m.left.now) × (length m.left.now < 2 ^ 32) };
}

impl<'a> Matcher<'a> {
    /// All of the tokens.
    pub fn new(bytes: &'a [u8], left: &'a [Token]) -> Matcher<'a>
        requires spans { All (IsSpan (length bytes.now)) left.now }
        requires few { length left.now < 2 ^ 32 }
        ensures { result ≡ Some (plains_of bytes.now left.now) }
    {
        Matcher {
            bytes,
            left,
            agrees: true,
        }
    }

    /// The same tokens again.
    pub fn again(&self) -> Matcher<'a>
        ensures { result ≡ self.now }
    {
        Matcher {
            bytes: self.bytes,
            left: self.left,
            agrees: self.agrees,
        }
    }

    /// Whether all marks agreed with the tokens so far.
    pub fn agrees(&self) -> bool
        ensures { result ≡ is_some self.now }
    {
        self.agrees
    }

    /// Whether all marks agreed with the tokens, and none is left.
    pub fn is_done(&self) -> bool
        ensures { IsTrue result ↔ (self.now ≡ Some []) }
    {
        self.agrees && self.left.is_empty()
    }

    /// How many tokens are left.
    pub fn len(&self) -> usize
        ensures tokens { (ts : List Plain) → self.now ≡ Some ts → result ≡ length ts }
        ensures few { result < 2 ^ 32 }
    {
        self.left.len()
    }

    /// Takes an object with the front and a number below the bound behind it, where it comes next.
    pub fn take_number(&mut self, front: &[u8], bound: u32) -> Option<u32>
        ensures { TakesNumber (λ n. numbered front.now n ∷ []) (λ n. n < bound) self.old self.new result }
    {
        if !self.agrees || self.left.is_empty() {
            return None;
        }
        let token = self.left[0];
        if token.kind != Kind::Distinct {
            return None;
        }
        let number = number_behind(token.spelling(self.bytes), front, bound)?;
        self.left = &self.left[1..];
        Some(number)
    }

    fn take(&mut self, kind: Kind, text: &[u8])
        ensures { (m : Mark) → mark_plains m ≡ record { kind = kind; text = text.now } ∷ [] → self.new ≡ matched self.old m }
    {
        if self.agrees {
            if is_first(self.bytes, self.left, kind, text) {
                self.left = &self.left[1..];
            } else {
                self.agrees = false;
            }
        }
    }

    fn take_object(&mut self, front: &[u8], number: u32)
        ensures { (m : Mark) → mark_plains m ≡ object_token front.now number ∷ [] → self.new ≡ matched self.old m }
    {
        if self.agrees {
            if is_first_object(self.bytes, self.left, front, number) {
                self.left = &self.left[1..];
            } else {
                self.agrees = false;
            }
        }
    }
}

impl<'a> Taker for Matcher<'a> {
    ghost takes = { matched };

    fn sign(&mut self, spelling: &[u8]) -> Result<(), Memory> {
        self.take(Kind::Punct, spelling);
        Ok(())
    }

    fn dollar(&mut self, spelling: &[u8]) -> Result<(), Memory> {
        self.take(Kind::Dollar, spelling);
        Ok(())
    }

    fn variable(&mut self, spelling: &[u8]) -> Result<(), Memory> {
        self.take(Kind::Upper, spelling);
        Ok(())
    }

    fn name(&mut self, text: &[u8]) -> Result<(), Memory> {
        self.take(Kind::Word, text);
        Ok(())
    }

    fn object(&mut self, front: &[u8], number: u32) -> Result<(), Memory> {
        self.take_object(front, number);
        Ok(())
    }

    fn blank(&mut self) -> Result<(), Memory> {
        Ok(())
    }

    fn line(&mut self) -> Result<(), Memory> {
        Ok(())
    }
}
