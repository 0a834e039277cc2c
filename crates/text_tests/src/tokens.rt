// Tokens by their kinds and places, and when two of them are the same.
use std::alloc::Global;
use std::process::Abort;
use std::test::Fail;
use tptp_lex::{LexError, lex, same_token};

// Each token as its kind and its span, or the error.
fn described(alloc: Global, text: &[u8]) -> Result<String, Fail> {
    if text.len() >= 1 << 32 {
        return Ok(format!(in alloc; "too long")?);
    }
    match lex(alloc, text) {
        Ok(tokens) => {
            let mut found = String::new(alloc);
            for token in tokens.as_slice() {
                write!(found, "{:?} {} {};", token.kind, token.start, token.end)?;
            }
            Ok(found)
        }
        Err(LexError::Bad(at)) => Ok(format!(in alloc; "bad {at}")?),
        Err(LexError::Unclosed(at)) => Ok(format!(in alloc; "unclosed {at}")?),
        Err(LexError::Memory) => Ok(format!(in alloc; "memory")?),
    }
}

fn expect_tokens(rt: &impl Abort, alloc: Global, table: &[(&[u8], &str)]) -> Result<(), Fail> {
    for (text, want) in table {
        let found = described(alloc, text)?;
        assert_eq!(rt; found.as_str(), *want);
    }
    Ok(())
}

#[test]
fn lexemes_at_their_edges(rt: HostRuntime) -> Result<(), Fail> {
    expect_tokens(
        &rt,
        rt.alloc(),
        &[
            (b"", ""),
            (b" \t\n\x0b\x0c\r", ""),
            (b"aZ_0$ Z0$a", "Word 0 5;Upper 6 8;Dollar 8 10;"),
            (b"$a $$a0_ $i", "Dollar 0 2;Dollar 3 8;Dollar 9 11;"),
            (
                b"12 1. 1.5e",
                "Number 0 2;Number 3 4;Punct 4 5;Number 6 9;Word 9 10;",
            ),
            (
                b"1e+ 1E-3 1.50e7x",
                "Number 0 1;Word 1 2;Punct 2 3;Number 4 8;Number 9 15;Word 15 16;",
            ),
            (
                b"<=> <= <~> <~ <.> <.",
                "Punct 0 3;Punct 4 6;Punct 7 10;Punct 11 12;Punct 12 13;Punct 14 17;Punct 18 19;Punct 19 20;",
            ),
            (b"[.] [. [", "Punct 0 3;Punct 4 5;Punct 5 6;Punct 7 8;"),
            (
                b"=>==!=~|~&=<!!",
                "Punct 0 2;Punct 2 4;Punct 4 6;Punct 6 8;Punct 8 10;Punct 10 11;Punct 11 12;Punct 12 13;Punct 13 14;",
            ),
            (
                b"()]{},.:=!?",
                "Punct 0 1;Punct 1 2;Punct 2 3;Punct 3 4;Punct 4 5;Punct 5 6;Punct 6 7;Punct 7 8;Punct 8 9;Punct 9 10;Punct 10 11;",
            ),
            (
                b"&|~>@#*+-^",
                "Punct 0 1;Punct 1 2;Punct 2 3;Punct 3 4;Punct 4 5;Punct 5 6;Punct 6 7;Punct 7 8;Punct 8 9;Punct 9 10;",
            ),
            (br"'\'' '\\a'b", "Quoted 0 4;Quoted 5 10;Word 10 11;"),
            (
                br#""a\"b" "'" '"'"#,
                "Distinct 0 6;Distinct 7 10;Quoted 11 14;",
            ),
            (b"/ // /", "Punct 0 1;Punct 2 3;Punct 3 4;Punct 5 6;"),
            (b"/**/a/* * / **/b", "Word 4 5;Word 15 16;"),
            (b"a%b\nc%", "Word 0 1;Word 4 5;"),
            (b"%\x7f\x80\xc8\na/*\x00\xff*/", "Word 5 6;"),
        ],
    )
}

// Whether the texts' first tokens are the same, or None where one has no tokens.
fn first_same(alloc: Global, left: &[u8], right: &[u8]) -> Option<bool> {
    if left.len() >= 1 << 32 || right.len() >= 1 << 32 {
        return None;
    }
    let Ok(ours) = lex(alloc, left) else {
        return None;
    };
    let Ok(theirs) = lex(alloc, right) else {
        return None;
    };
    if ours.len() == 0 || theirs.len() == 0 {
        return None;
    }
    Some(same_token(left, ours.get(0), right, theirs.get(0)))
}

#[test]
fn same_tokens(rt: HostRuntime) {
    for (left, right, want) in [
        (b"abc".as_slice(), b" 'abc'".as_slice(), true),
        (b"'abc'", b"abc d", true),
        (br"'a\'b'", br"'a\'b'", true),
        (br"'a\\b'", br"'ab'", false),
        (br"'a\\'", br"'a\\b'", false),
        (b"'abc'", b"'abcd'", false),
        (b"abc", b"ab", false),
        (b"'a'", b"\"a\"", false),
        (br#""a\"b""#, br#" "a\"b""#, true),
        (b"'$i'", b"$i", false),
        (b"'1'", b"1", false),
        (b"1", b"1", true),
        (b"1", b"01", false),
        (b"'X'", b"X", false),
        (b"<=>", b"<=>", true),
        (b"<=>", b"<=", false),
        (b"','", b",", false),
    ] {
        assert_eq!(rt; first_same(rt.alloc(), left, right), Some(want));
    }
}
