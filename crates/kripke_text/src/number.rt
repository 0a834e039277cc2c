//! The text of a token, and the number of an object.
ghost use Rattle.std.specs.Prelude.{◌≡◌, ◌≢◌, ◌↔◌, ◌<◌, ◌^◌, ◌++◌, ℕ, List, false, Some, IfSome, IsTrue};
ghost use Rattle.std.specs.Option.{IfNone};
ghost use Rattle.nxf_tree.specs.Names.{numeral};
ghost use Rattle.tptp_lex.specs.Texts.{token_text};

use itoa::Buffer;
use tptp_lex::TextBytes;

/// Takes these bytes from the front of a token's text, where it begins with them.
fn take_bytes(text: &mut TextBytes<'_>, expected: &[u8]) -> bool
    ensures taken { IsTrue result → text.old ≡ expected.now ++ text.new }
    ensures missed { result ≡ false → (rest : List ℕ) → text.old ≢ expected.now ++ rest }
{
    for b in expected {
        match text.take_byte() {
            Some(c) => {
                if c != *b {
                    return false;
                }
            }
            None => return false,
        }
    }
    true
}

/// Whether what is left of a token's text is this one.
fn is_rest(text: &mut TextBytes<'_>, expected: &[u8]) -> bool
    ensures { IsTrue result ↔ (text.old ≡ expected.now) }
{
    take_bytes(text, expected) && text.take_byte().is_none()
}

/// Whether the token of this spelling has this text.
pub fn has_text(spelling: &[u8], expected: &[u8]) -> bool
    ensures { IsTrue result ↔ (token_text spelling.now ≡ expected.now) }
{
    let mut text = TextBytes::new(spelling);
    is_rest(&mut text, expected)
}

/// Whether what is left of a token's text is this number.
#[tactic(auto, using(classical_syntax::proofs::Numerals::numeral_decimal))]
fn is_number(text: &mut TextBytes<'_>, number: u32) -> bool
    ensures { IsTrue result ↔ (text.old ≡ numeral number) }
{
    let mut buffer = Buffer::new();
    is_rest(text, buffer.format(u64::from(number)).as_bytes())
}

/// Whether the token of this spelling has this text, and behind it the number.
pub fn has_number(spelling: &[u8], front: &[u8], number: u32) -> bool
    ensures { IsTrue result ↔ (token_text spelling.now ≡ front.now ++ numeral number) }
{
    let mut text = TextBytes::new(spelling);
    take_bytes(&mut text, front) && is_number(&mut text, number)
}

/// The number that the rest of a text is the numeral of, if it is one; else any or none.
fn digits(text: &mut TextBytes<'_>) -> Option<u32>
    ensures { (n : ℕ) → n < 2 ^ 32 → text.old ≡ numeral n → result ≡ Some n }
{
    let mut n: u64 = 0;
    while let Some(c) = text.take_byte() {
        if c < b'0' || c > b'9' {
            return None;
        }
        n = n * 10 + u64::from(c - b'0');
        if n > 4294967295 {
            return None;
        }
    }
    Some(n as u32)
}

/// The number, where it is below the bound and stands behind the front in the text of the token.
fn checked(spelling: &[u8], front: &[u8], bound: u32, n: u32) -> Option<u32>
    ensures some { IfSome result (λ m. (m < bound) × (token_text spelling.now ≡ front.now ++ numeral m)) }
    ensures none { IfNone result (n < bound → token_text spelling.now ≢ front.now ++ numeral n) }
{
    if n >= bound {
        return None;
    }
    if has_number(spelling, front, n) {
        return Some(n);
    }
    None
}

/// The number below the bound that stands behind the front in the text of a token of this spelling.
pub fn number_behind(spelling: &[u8], front: &[u8], bound: u32) -> Option<u32>
    ensures some { IfSome result (λ n. (n < bound) × (token_text spelling.now ≡ front.now ++ numeral n)) }
    ensures none { IfNone result ((n : ℕ) → n < bound → token_text spelling.now ≢ front.now ++ numeral n) }
{
    let mut text = TextBytes::new(spelling);
    if !take_bytes(&mut text, front) {
        return None;
    }
    let Some(n) = digits(&mut text) else {
        return None;
    };
    checked(spelling, front, bound, n)
}
