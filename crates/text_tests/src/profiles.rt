// The two profiles of files without modalities.
use nxf_grammar::{GrammarError, Profile, read_file};
use std::alloc::Global;
use std::process::Abort;
use std::test::Fail;
use tptp_lex::lex;

// How many statements the text has, or the number of the first that no rule reads, as `-1`, ..
fn outcome(alloc: Global, text: &[u8], profile: Profile) -> Result<i64, Fail> {
    if text.len() >= 1 << 32 {
        return Ok(-1000);
    }
    let Ok(tokens) = lex(alloc, text) else {
        return Ok(-2000);
    };
    match read_file(alloc, text, &tokens, profile) {
        Ok(file) => Ok(file.statements.len() as i64),
        Err(GrammarError::Syntax(k)) => Ok(-i64::from(k)),
        Err(GrammarError::Memory) => Ok(-3000),
    }
}

fn expect_outcomes(
    rt: &impl Abort,
    alloc: Global,
    profile: Profile,
    table: &[(&str, i64)],
) -> Result<(), Fail> {
    for (text, want) in table {
        let found = outcome(alloc, text.as_bytes(), profile)?;
        assert_eq!(rt; found, *want, "{text}");
    }
    Ok(())
}

#[test]
fn classical_profiles(rt: HostRuntime) -> Result<(), Fail> {
    let table = [
        (
            "tff(a,type,s: $tType).tff(a,axiom,! [X: s] : (p(X) | X = c)).",
            2,
        ),
        ("tff(a,logic,$modal == []).", -1),
        ("include('f.ax').", -1),
        ("tff(a,axiom,[.] p).", -1),
        ("tff(a,axiom,<.> p).", -1),
        ("tff(a,axiom,[#a] p).", -1),
        ("tff(a,axiom,<#a> p).", -1),
        ("tff(a,axiom,{$box} @ (p)).", -1),
    ];
    expect_outcomes(&rt, rt.alloc(), Profile::Classical, &table)?;
    expect_outcomes(&rt, rt.alloc(), Profile::Interpretation, &table)?;
    let distinct = "tff(a,axiom,$distinct(a,b) & p).";
    expect_outcomes(&rt, rt.alloc(), Profile::Classical, &[(distinct, -1)])?;
    expect_outcomes(&rt, rt.alloc(), Profile::Interpretation, &[(distinct, 1)])
}

// A text with so many of a piece in front of its middle, and so many of another behind it.
fn nested(alloc: Global, count: usize, pieces: [&str; 5]) -> Result<Vec<u8>, Fail> {
    let [head, front, middle, back, tail] = pieces;
    let mut text = Vec::new(alloc);
    text.extend_from_slice(head.as_bytes())?;
    for _turn in 0..count {
        text.extend_from_slice(front.as_bytes())?;
    }
    text.extend_from_slice(middle.as_bytes())?;
    for _turn in 0..count {
        text.extend_from_slice(back.as_bytes())?;
    }
    text.extend_from_slice(tail.as_bytes())?;
    Ok(text)
}

#[test]
fn nesting_and_arguments(rt: HostRuntime) -> Result<(), Fail> {
    let alloc = rt.alloc();
    for (profile, most, pieces) in [
        (
            Profile::Classical,
            3999,
            ["tff(a,axiom,", "~", "p", "", ")."],
        ),
        (
            Profile::Interpretation,
            999,
            ["tff(a,axiom,", "(", "p", ")", ")."],
        ),
        (
            Profile::Classical,
            1000,
            ["tff(a,axiom,p(c", ",c", ")", "", ")."],
        ),
        (
            Profile::Interpretation,
            1000,
            ["tff(a,type,p:(s", "*s", ")>$o", "", ")."],
        ),
    ] {
        let fits = nested(alloc, most, pieces)?;
        assert_eq!(rt;
            outcome(alloc, fits.as_slice(), profile)?,
            1,
            "{}",
            pieces[1]
        );
        let over = nested(alloc, most.saturating_add(1), pieces)?;
        assert_eq!(rt;
            outcome(alloc, over.as_slice(), profile)?,
            -1,
            "{}",
            pieces[1]
        );
    }
    let distinct = nested(
        alloc,
        5000,
        ["tff(a,axiom,$distinct(c", ",c", ")", "", ")."],
    )?;
    assert_eq!(rt;
        outcome(alloc, distinct.as_slice(), Profile::Interpretation)?,
        1
    );
    Ok(())
}
