//! What a token is to the grammar.

ghost use Rattle.std.specs.Prelude.{◌≡◌, ◌≢◌, map, true, false};
ghost use Rattle.nxf_terminals.specs.Signs as spec;
ghost use Rattle.nxf_terminals.specs.declared.sign.Sign.TheVariants as sign;

use nxf_tree::Profile;
use tptp_lex::Kind;

/// What a token is to the grammar: `End` where there is none, and `Other` where no rule uses it.
#[derive(Clone, Copy, Debug, PartialEq, Eq)]
pub enum Sign {
    End,
    Open,
    Close,
    LeftBracket,
    RightBracket,
    LeftBrace,
    RightBrace,
    Comma,
    Colon,
    Stop,
    And,
    Or,
    Not,
    Implies,
    ImpliedBy,
    Iff,
    Xor,
    Nor,
    Nand,
    Box,
    Dia,
    All,
    Exists,
    Equal,
    Differ,
    Less,
    Greater,
    Hash,
    At,
    Star,
    Minus,
    Is,
    True,
    False,
    Individual,
    Truth,
    SortType,
    Boxes,
    Diamonds,
    Distinct,
    Dollar,
    Name,
    Integer,
    Upper,
    Other,
}

/// Any other word with a dollar is a `Dollar`.
pub const WORDS: [(&[u8], Sign); 10] = [
    (b"$true", Sign::True),
    (b"$false", Sign::False),
    (b"$i", Sign::Individual),
    (b"$o", Sign::Truth),
    (b"$tType", Sign::SortType),
    (b"$box", Sign::Boxes),
    (b"$necessary", Sign::Boxes),
    (b"$dia", Sign::Diamonds),
    (b"$possible", Sign::Diamonds),
    (b"$distinct", Sign::Distinct),
];

fn lookup(mut table: &[(&[u8], Sign)], other: Sign, spelling: &[u8]) -> Sign
    ensures { result ≡ spec.lookup (map (λ e. (e.0.now, e.1)) table.entry.now) other spelling.now }
{
    while let [entry, rest @ ..] = table {
        if entry.0 == spelling {
            return entry.1;
        }
        table = rest;
    }
    other
}

fn punctuation(spelling: &[u8]) -> Sign
    ensures { result ≡ spec.lookup spec.punctuation sign.Other spelling.now }
{
    match spelling {
        [b'('] => Sign::Open,
        [b')'] => Sign::Close,
        [b'['] => Sign::LeftBracket,
        [b']'] => Sign::RightBracket,
        [b'{'] => Sign::LeftBrace,
        [b'}'] => Sign::RightBrace,
        [b','] => Sign::Comma,
        [b':'] => Sign::Colon,
        [b'.'] => Sign::Stop,
        [b'&'] => Sign::And,
        [b'|'] => Sign::Or,
        [b'~'] => Sign::Not,
        [b'=', b'>'] => Sign::Implies,
        [b'<', b'='] => Sign::ImpliedBy,
        [b'<', b'=', b'>'] => Sign::Iff,
        [b'<', b'~', b'>'] => Sign::Xor,
        [b'~', b'|'] => Sign::Nor,
        [b'~', b'&'] => Sign::Nand,
        [b'[', b'.', b']'] => Sign::Box,
        [b'<', b'.', b'>'] => Sign::Dia,
        [b'!'] => Sign::All,
        [b'?'] => Sign::Exists,
        [b'='] => Sign::Equal,
        [b'!', b'='] => Sign::Differ,
        [b'<'] => Sign::Less,
        [b'>'] => Sign::Greater,
        [b'#'] => Sign::Hash,
        [b'@'] => Sign::At,
        [b'*'] => Sign::Star,
        [b'-'] => Sign::Minus,
        [b'=', b'='] => Sign::Is,
        _ => Sign::Other,
    }
}

/// An INTEGER is digits alone.
fn number(mut spelling: &[u8]) -> Sign
    ensures { result ≡ spec.number spelling.entry.now }
{
    while let [b, rest @ ..] = spelling {
        if !b.is_ascii_digit() {
            return Sign::Other;
        }
        spelling = rest;
    }
    Sign::Integer
}

/// Without modalities and logic statements.
fn without_modal(sign: Sign) -> Sign
    ensures { result ≡ spec.without_modal sign }
{
    match sign {
        Sign::Box => Sign::Other,
        Sign::Dia => Sign::Other,
        Sign::Less => Sign::Other,
        Sign::Hash => Sign::Other,
        Sign::Is => Sign::Other,
        Sign::Boxes => Sign::Other,
        Sign::Diamonds => Sign::Other,
        _ => sign,
    }
}

fn without_distinct(sign: Sign) -> Sign
    ensures { result ≡ spec.without_distinct sign }
{
    match sign {
        Sign::Distinct => Sign::Dollar,
        _ => sign,
    }
}

fn allowed(profile: Profile, sign: Sign) -> Sign
    ensures { result ≡ spec.allowed profile sign }
{
    match profile {
        Profile::Problem => without_distinct(sign),
        Profile::Classical => without_distinct(without_modal(sign)),
        Profile::Interpretation => without_modal(sign),
    }
}

/// What a token of this kind and spelling is in the profile.
#[tactic(auto, unfolding(crate::specs::Signs::sign_of))]
pub fn sign_of(profile: Profile, kind: Kind, spelling: &[u8]) -> Sign
    ensures { result ≡ spec.sign_of profile kind spelling.now }
{
    match kind {
        Kind::Word => Sign::Name,
        Kind::Quoted => Sign::Name,
        Kind::Upper => Sign::Upper,
        Kind::Punct => allowed(profile, punctuation(spelling)),
        Kind::Dollar => allowed(profile, lookup(&WORDS, Sign::Dollar, spelling)),
        Kind::Number => number(spelling),
        Kind::Distinct => Sign::Other,
    }
}

/// Whether two signs are the same.
pub fn same_sign(a: Sign, b: Sign) -> bool
    ensures value { result ≡ spec.same_sign a b }
    ensures same { result ≡ true → a ≡ b }
    ensures other { result ≡ false → a ≢ b }
{
    a == b
}

/// A word with a dollar, whatever the grammar takes it for.
pub fn is_dollar(sign: Sign) -> bool
    ensures { result ≡ spec.is_dollar sign }
{
    match sign {
        Sign::True => true,
        Sign::False => true,
        Sign::Individual => true,
        Sign::Truth => true,
        Sign::SortType => true,
        Sign::Boxes => true,
        Sign::Diamonds => true,
        Sign::Distinct => true,
        Sign::Dollar => true,
        _ => false,
    }
}
