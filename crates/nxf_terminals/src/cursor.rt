//! What rules read by: the next token, and the way on.
ghost use Rattle.std.specs.Prelude.{◌≡◌, ◌≢◌, ◌≤◌, length, All};
ghost use Rattle.tptp_lex.specs.Lexing.{IsSpan};
ghost use Rattle.nxf_terminals.specs.Input as spec;
ghost use Rattle.nxf_terminals.specs.Input.{Gives};

use crate::error::GrammarError;
use crate::names::token_text;
use crate::sign::{Sign, same_sign, sign_of};
use nxf_base::Text;
use nxf_tree::Profile;
use std::alloc::Global;
use std::marker::Model;
use tptp_lex::Token;

/// The tokens that are left to read. It holds their text and copies none of it.
#[derive(Drop)]
pub struct Cursor<'a> {
    profile: Profile,
    bytes: &'a [u8],
    tokens: &'a [Token],
}

impl<'a> Model for Cursor<'a> {
    ghost use Rattle.std.specs.Prelude.{All, length};
    ghost use Rattle.nxf_terminals.specs.Input.{Input, input_of};
    ghost use Rattle.tptp_lex.specs.Lexing.{IsSpan};

    ghost Value = { Input };

    ghost view = { λ c. input_of c.profile c.bytes.now c.tokens.now };

    ghost invariant = { λ c. All (IsSpan (length c.bytes.now)) c.tokens.now };
}

impl<'a> Cursor<'a> {
    /// All the tokens of a text, in the profile.
    pub fn new(profile: Profile, bytes: &'a [u8], tokens: &'a [Token]) -> Cursor<'a>
        requires { All (IsSpan (length bytes.now)) tokens.now }
        ensures { result ≡ spec.input_of profile bytes.now tokens.now }
    {
        Cursor {
            profile,
            bytes,
            tokens,
        }
    }

    /// The sign of the next token, or `End`.
    pub fn peek(&self) -> Sign
        ensures { result ≡ spec.kind self.now }
    {
        match self.tokens {
            [] => Sign::End,
            [token, ..] => sign_of(self.profile, token.kind, token.spelling(self.bytes)),
        }
    }

    /// The sign of the token after the next, or `End`.
    pub fn second(&self) -> Sign
        ensures { result ≡ spec.kind (spec.next self.now) }
    {
        match self.tokens {
            [_, token, ..] => sign_of(self.profile, token.kind, token.spelling(self.bytes)),
            _ => Sign::End,
        }
    }

    /// The sign of the token after the second, or `End`.
    pub fn third(&self) -> Sign
        ensures { result ≡ spec.kind (spec.next (spec.next self.now)) }
    {
        match self.tokens {
            [_, _, token, ..] => sign_of(self.profile, token.kind, token.spelling(self.bytes)),
            _ => Sign::End,
        }
    }

    /// Goes on by one token, if there is one.
    pub fn step(&mut self)
        ensures { self.new ≡ spec.next self.old }
    {
        if let [_, rest @ ..] = self.tokens {
            self.tokens = rest;
        }
    }

    /// The bytes of the next token, and none at the end.
    pub fn spelling(&self) -> &[u8]
        ensures { result.now ≡ spec.text self.now }
    {
        match self.tokens {
            [] => &[],
            [token, ..] => token.spelling(self.bytes),
        }
    }

    /// How many tokens are left.
    pub fn len(&self) -> usize
        ensures { result ≡ length self.now }
    {
        self.tokens.len()
    }

    /// Takes the next token as it is spelled.
    pub fn take_text(&mut self, alloc: Global) -> Result<Text, GrammarError>
        ensures { Gives (spec.take_text self.old) result self.new }
    {
        let text = Text::from_bytes(alloc, self.spelling())?;
        self.step();
        Ok(text)
    }

    /// Takes the text of the next token, which is a name or an integer.
    pub fn take_name(&mut self, alloc: Global) -> Result<Text, GrammarError>
        ensures { Gives (spec.take_name self.old) result self.new }
    {
        let text = token_text(alloc, self.spelling())?;
        self.step();
        Ok(text)
    }

    /// Whether the next token has this sign.
    #[tactic(auto, unfolding(crate::specs::Input::sees))]
    pub fn sees(&self, sign: Sign) -> bool
        ensures { result ≡ spec.sees sign self.now }
    {
        same_sign(self.peek(), sign)
    }

    /// Takes the next token if it has this sign, and says whether it did.
    #[tactic(auto, unfolding(crate::specs::Input::sees, crate::specs::Input::after))]
    pub fn eat(&mut self, sign: Sign) -> bool
        ensures value { result ≡ spec.sees sign self.old }
        ensures rest { self.new ≡ spec.after sign self.old }
    {
        let found = same_sign(self.peek(), sign);
        if found {
            self.step();
        }
        found
    }

    /// Takes the next token, which has to have this sign.
    #[tactic(auto, unfolding(crate::specs::Input::expect, crate::specs::Input::sees))]
    pub fn expect(&mut self, sign: Sign) -> Result<(), GrammarError>
        ensures { Gives (spec.expect sign self.old) result self.new }
    {
        if !same_sign(self.peek(), sign) {
            return Err(GrammarError::Syntax(0));
        }
        self.step();
        Ok(())
    }
}
