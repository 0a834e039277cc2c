//! The lexeme at the front of a text.

ghost use Rattle.std.specs.Prelude.{◌≡◌, ◌<◌, ◌≤◌, ◌+◌, ◌^◌, length, IfSome, slice_index, false};
ghost use Rattle.std.specs.List.{prefix_len};
ghost use Rattle.tptp_lex.specs.Front as spec;

use crate::token::{Kind, Lexeme};

/// Bytes that go on with a lexeme.
#[derive(Clone, Copy, Debug)]
pub enum Run {
    Word,
    Name,
    Digits,
    Line,
}

/// What a lexeme begins with.
#[derive(Clone, Copy, Debug)]
pub enum Class {
    Blank,
    Percent,
    Slash,
    Dollar,
    Quote,
    DoubleQuote,
    Lower,
    Upper,
    Digit,
    Other,
}

fn is_in(run: Run, b: u8) -> bool
    ensures { result ≡ spec.is_in run b }
{
    match run {
        Run::Word => b.is_ascii_alphanumeric() || b == b'_' || b == b'$',
        Run::Name => b.is_ascii_alphanumeric() || b == b'_',
        Run::Digits => b.is_ascii_digit(),
        Run::Line => b != b'\n',
    }
}

fn run_len(run: Run, text: &[u8]) -> usize
    ensures value { result ≡ prefix_len (spec.is_in run) text.now }
    ensures within { result ≤ length text.now }
{
    text.iter().take_while(|b| is_in(run, **b)).count()
}

fn class_of(b: u8) -> Class
    ensures { result ≡ spec.class_of b }
{
    match b {
        b'%' => Class::Percent,
        b'/' => Class::Slash,
        b'$' => Class::Dollar,
        b'\'' => Class::Quote,
        b'"' => Class::DoubleQuote,
        b'a'..=b'z' => Class::Lower,
        b'A'..=b'Z' => Class::Upper,
        b'0'..=b'9' => Class::Digit,
        b'\t' | b'\n' | 11 | 12 | b'\r' | b' ' => Class::Blank,
        _ => Class::Other,
    }
}

/// How far it is to the end of the first `*/`.
fn close_len(mut text: &[u8]) -> Option<usize>
    requires { length text.now < 2 ^ 32 }
    ensures value { result ≡ spec.close_len false 0 text.entry.now }
    ensures within { IfSome result (λ n. n ≤ length text.entry.now) }
{
    let mut at = 0;
    let mut is_star = false;
    while let [b, rest @ ..] = text {
        at += 1;
        if is_star && *b == b'/' {
            return Some(at);
        }
        is_star = *b == b'*';
        text = rest;
    }
    None
}

/// How far it is to the end of the closing quote.
fn quote_len(quote: u8, mut text: &[u8]) -> Option<usize>
    requires { length text.now < 2 ^ 32 }
    ensures value { result ≡ spec.quote_len quote false 0 text.entry.now }
    ensures within { IfSome result (λ n. n ≤ length text.entry.now) }
{
    let mut at = 0;
    let mut is_escaped = false;
    while let [b, rest @ ..] = text {
        at += 1;
        if is_escaped {
            if *b != quote && *b != b'\\' {
                return None;
            }
            is_escaped = false;
        } else {
            if *b == quote {
                return Some(at);
            }
            if *b < 32 || *b > 126 {
                return None;
            }
            is_escaped = *b == b'\\';
        }
        text = rest;
    }
    None
}

fn quoted(kind: Kind, quote: u8, rest: &[u8]) -> Option<(Lexeme, usize)>
    requires { length rest.now < 2 ^ 32 }
    ensures value { result ≡ spec.quoted kind quote rest.now }
    ensures within { IfSome result (λ found. (1 ≤ found.1) × (found.1 ≤ length rest.now + 1)) }
{
    let len = quote_len(quote, rest)?;
    if len == 1 {
        return None;
    }
    Some((Lexeme::Token(kind), 1 + len))
}

fn slash(rest: &[u8]) -> Option<(Lexeme, usize)>
    requires { length rest.now < 2 ^ 32 }
    ensures value { result ≡ spec.slash rest.now }
    ensures within { IfSome result (λ found. (1 ≤ found.1) × (found.1 ≤ length rest.now + 1)) }
{
    if let [b'*', rest @ ..] = rest {
        let len = close_len(rest)?;
        return Some((Lexeme::Comment, 2 + len));
    }
    Some((Lexeme::Token(Kind::Punct), 1))
}

fn dollar(rest: &[u8]) -> Option<(Lexeme, usize)>
    requires { length rest.now < 2 ^ 32 }
    ensures value { result ≡ spec.dollar rest.now }
    ensures within { IfSome result (λ found. (1 ≤ found.1) × (found.1 ≤ length rest.now + 1)) }
{
    if let [b'$', rest @ ..] = rest {
        let len = run_len(Run::Name, rest);
        if len == 0 {
            return None;
        }
        return Some((Lexeme::Token(Kind::Dollar), 2 + len));
    }
    let len = run_len(Run::Name, rest);
    if len == 0 {
        return None;
    }
    Some((Lexeme::Token(Kind::Dollar), 1 + len))
}

/// `.` and digits, or nothing.
fn fraction_len(text: &[u8]) -> usize
    requires { length text.now < 2 ^ 32 }
    ensures value { result ≡ spec.fraction_len text.now }
    ensures within { result ≤ length text.now }
{
    if let [b'.', rest @ ..] = text {
        let len = run_len(Run::Digits, rest);
        if len > 0 {
            return 1 + len;
        }
    }
    0
}

/// A sign or none, and digits.
fn signed_len(text: &[u8]) -> usize
    requires { length text.now < 2 ^ 32 }
    ensures value { result ≡ spec.signed_len text.now }
    ensures within { result ≤ length text.now }
{
    if let [b'+' | b'-', rest @ ..] = text {
        let len = run_len(Run::Digits, rest);
        return if len > 0 { 1 + len } else { 0 };
    }
    run_len(Run::Digits, text)
}

/// `e`, a sign or none, and digits, or nothing.
fn exponent_len(text: &[u8]) -> usize
    requires { length text.now < 2 ^ 32 }
    ensures value { result ≡ spec.exponent_len text.now }
    ensures within { result ≤ length text.now }
{
    if let [b'e' | b'E', rest @ ..] = text {
        let len = signed_len(rest);
        if len > 0 {
            return 1 + len;
        }
    }
    0
}

/// What goes on with a digit to a number.
fn number_len(text: &[u8]) -> usize
    requires { length text.now < 2 ^ 32 }
    ensures value { result ≡ spec.number_len text.now }
    ensures within { result ≤ length text.now }
{
    let whole = run_len(Run::Digits, text);
    let fraction = fraction_len(&text[whole..]);
    whole + fraction + exponent_len(&text[whole + fraction..])
}

/// How many bytes of punctuation begin the text, or 0.
#[tactic(auto, unfolding(crate::specs::Front::punctuation_len))]
fn punctuation_len(text: &[u8]) -> usize
    ensures value { result ≡ spec.punctuation_len text.now }
    ensures within { result ≤ length text.now }
{
    match text {
        [b'<', b'=' | b'~' | b'.', b'>', ..] => 3,
        [b'[', b'.', b']', ..] => 3,
        [b'<', b'=', ..] => 2,
        [b'=', b'>' | b'=', ..] => 2,
        [b'!', b'=', ..] => 2,
        [b'~', b'|' | b'&', ..] => 2,
        [
            b'(' | b')' | b'[' | b']' | b'{' | b'}' | b',' | b'.' | b':' | b'=' | b'!' | b'?',
            ..
        ] => 1,
        [
            b'&' | b'|' | b'~' | b'<' | b'>' | b'@' | b'#' | b'*' | b'+' | b'-' | b'^',
            ..
        ] => 1,
        _ => 0,
    }
}

/// The lexeme at the front, and how many bytes it takes.
#[tactic(auto, unfolding(crate::specs::Front::front))]
pub fn front(text: &[u8]) -> Option<(Lexeme, usize)>
    requires { length text.now < 2 ^ 32 }
    ensures value { result ≡ spec.front text.now }
    ensures within { IfSome result (λ found. (1 ≤ found.1) × (found.1 ≤ length text.now)) }
{
    let [first, rest @ ..] = text else {
        return None;
    };
    match class_of(*first) {
        Class::Blank => Some((Lexeme::Blank, 1)),
        Class::Percent => Some((Lexeme::Comment, 1 + run_len(Run::Line, rest))),
        Class::Slash => slash(rest),
        Class::Lower => Some((Lexeme::Token(Kind::Word), 1 + run_len(Run::Word, rest))),
        Class::Upper => Some((Lexeme::Token(Kind::Upper), 1 + run_len(Run::Name, rest))),
        Class::Dollar => dollar(rest),
        Class::Quote => quoted(Kind::Quoted, b'\'', rest),
        Class::DoubleQuote => quoted(Kind::Distinct, b'"', rest),
        Class::Digit => Some((Lexeme::Token(Kind::Number), 1 + number_len(rest))),
        Class::Other => {
            let len = punctuation_len(text);
            if len == 0 {
                return None;
            }
            Some((Lexeme::Token(Kind::Punct), len))
        }
    }
}
