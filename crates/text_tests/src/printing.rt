// Names in quotes, and files that are printed as they were read.
ghost use Rattle.std.specs.Prelude.{◌≡◌, false};
ghost use Rattle.nxf_tree.specs.Profiles.{has_modalities};

use nxf_base::{List, Text};
use nxf_grammar::{Profile, read_file};
use nxf_tree::{Role, SortName, Typing};
use printed_text_laws::regular_file_is_printed;
use std::alloc::Global;
use std::test::Fail;
use text_writer::{
    put, put_between, write_front, write_name, write_numeral, write_sort, write_typing,
    write_variable,
};
use tf0_printer::{print_file, print_name};
use tptp_lex::lex;

#[test]
fn names_in_quotes(rt: HostRuntime) -> Result<(), Fail> {
    let alloc = rt.alloc();
    for (name, want) in [
        (b"mk_acc_1".as_slice(), b"mk_acc_1".as_slice()),
        (b"1", b"'1'"),
        (b"Ann", b"'Ann'"),
        (b"_p", b"'_p'"),
        (b"fin_$w_1", b"'fin_$w_1'"),
        (b"a b", b"'a b'"),
        (b"it's", b"'it\\'s'"),
        (b"back\\slash", b"'back\\\\slash'"),
    ] {
        let printed = print_name(alloc, &Text::from_bytes(alloc, name)?)?;
        assert_eq!(rt; printed.as_slice(), want);
    }
    Ok(())
}

// The text that is printed of the file that the text spells.
fn printed_again(alloc: Global, text: &[u8], profile: Profile) -> Result<Vec<u8>, Fail>
    requires { has_modalities profile ≡ false }
{
    if text.len() >= 1 << 32 {
        return Ok(Vec::new(alloc));
    }
    let Ok(tokens) = lex(alloc, text) else {
        return Ok(Vec::new(alloc));
    };
    let Ok(file) = read_file(alloc, text, &tokens, profile) else {
        return Ok(Vec::new(alloc));
    };
    regular_file_is_printed();
    Ok(print_file(alloc, &file)?)
}

#[test]
fn printed_problems_come_back(rt: HostRuntime) -> Result<(), Fail> {
    let alloc = rt.alloc();
    for text in [
        "tff(mk_in,type,mk_in: ( mk_world * $i ) > $o).\n",
        "tff(c,type,c: mk_world > $i).\n",
        "tff('1',axiom-local,'p q').\n",
        "tff(person,type,person: $tType).\ntff(i,type,$i: $tType).\ntff(ann,type,ann: person).\n",
        "tff(mk_ax_3,axiom,! [W_0: mk_world] : ! [W_1: mk_world] : ! [X_0: $i] : ( ( mk_acc(W_0,W_1) & mk_in(W_0,X_0) ) => mk_in(W_1,X_0) )).\n",
        "tff(c,conjecture,? [X: $i] : ( X = c(mk_actual) & ! [W_0: mk_world] : ( mk_acc(mk_actual,W_0) => X = c(W_0) ) )).\n",
        "tff(a,plain,( p <= q ) | ( p <=> ~ q ) | ( p <~> $true ) | ( p ~| $false ) | ( p ~& q ) | c != f('it\\'s',X)).\n",
    ] {
        let printed = printed_again(alloc, text.as_bytes(), Profile::Classical)?;
        assert_eq!(rt; printed.as_slice(), text.as_bytes());
    }
    Ok(())
}

#[test]
fn different_elements_come_back(rt: HostRuntime) -> Result<(), Fail> {
    let text = "tff(e,axiom,$distinct(mk_w_0,mk_w_1) & p).\n";
    let printed = printed_again(rt.alloc(), text.as_bytes(), Profile::Interpretation)?;
    assert_eq!(rt; printed.as_slice(), text.as_bytes());
    Ok(())
}

#[test]
fn parts_of_texts(rt: HostRuntime) -> Result<(), Fail> {
    let alloc = rt.alloc();
    let mut out = Vec::new(alloc);
    let name = Text::from_bytes(alloc, b"mk_e_a b_0")?;
    let sort = SortName::User(Text::from_bytes(alloc, b"a b")?);
    let role = Role {
        word: Text::from_bytes(alloc, b"type")?,
        suffix: None,
    };
    write_front(&mut out, &name, &role)?;
    write_typing(
        &mut out,
        &Typing::Symbol(name, List::new(alloc), Some(sort)),
    )?;
    put(&mut out, b").\n")?;
    let want = b"tff('mk_e_a b_0',type,'mk_e_a b_0': 'a b').\n".as_slice();
    assert_eq!(rt; out.as_slice(), want);
    Ok(())
}

#[test]
fn numerals_and_variables(rt: HostRuntime) -> Result<(), Fail> {
    let alloc = rt.alloc();
    let mut out = Vec::new(alloc);
    for (at, number) in [0, 10, u64::MAX].into_iter().enumerate() {
        put_between(&mut out, b" * ", at)?;
        write_numeral(&mut out, number)?;
    }
    write_variable(&mut out, &Text::from_bytes(alloc, b"X")?)?;
    write_sort(&mut out, &SortName::Individual)?;
    write_name(&mut out, &Text::from_bytes(alloc, b"it's")?)?;
    let want = b"0 * 10 * 18446744073709551615X$i'it\\'s'".as_slice();
    assert_eq!(rt; out.as_slice(), want);
    Ok(())
}
