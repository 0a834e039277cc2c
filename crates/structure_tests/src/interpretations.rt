// The interpretation of a small structure, as it is printed.
use crate::structures::{numbers, small};
use fin_struct::{Structure, classical};
use interp_printer::print;
use std::test::Fail;

const SORTS: &[u8] = b"tff(mk_world,type,mk_world: $tType).
tff(mk_w_0,type,mk_w_0: mk_world).
tff(mk_domain,axiom,! [X: mk_world] : X = mk_w_0).
tff(mk_i_0,type,mk_i_0: $i).
tff(mk_domain,axiom,! [X: $i] : X = mk_i_0).
tff(s,type,s: $tType).
tff(mk_e_s_0,type,mk_e_s_0: s).
tff(mk_e_s_1,type,mk_e_s_1: s).
tff(mk_domain,axiom,! [X: s] : ( X = mk_e_s_0 | X = mk_e_s_1 )).
tff(mk_distinct,axiom,$distinct(mk_e_s_0,mk_e_s_1)).
tff(mk_actual,type,mk_actual: mk_world).
tff(mk_actual,axiom,mk_actual = mk_w_0).
";

const TABLES: &[u8] = b"tff(mk_acc,type,mk_acc: ( mk_world * mk_world ) > $o).
tff(mk_acc,axiom,~ mk_acc(mk_w_0,mk_w_0)).
tff(mk_in,type,mk_in: ( mk_world * $i ) > $o).
tff(mk_in,axiom,~ mk_in(mk_w_0,mk_i_0)).
tff(p,type,p: ( mk_world * $i * s ) > $o).
tff(p,axiom,~ p(mk_w_0,mk_i_0,mk_e_s_0) & ~ p(mk_w_0,mk_i_0,mk_e_s_1)).
tff(f,type,f: $i > s).
tff(f,axiom,f(mk_i_0) = mk_e_s_0).
tff(c,type,c: mk_world > $i).
tff(c,axiom,c(mk_w_0) = mk_i_0).
";

#[test]
fn each_row_is_printed(rt: HostRuntime) -> Result<(), Fail> {
    let alloc = rt.alloc();
    let over = classical(alloc, &small(alloc)?)?;
    let sizes = numbers(alloc, &[1, 1, 2])?;
    let structure = Structure::new(alloc, &over, &sizes)?;
    let text = print(alloc, &over, &structure)?;
    let mut wanted = Vec::new(alloc);
    wanted.extend_from_slice(SORTS)?;
    wanted.extend_from_slice(TABLES)?;
    assert_eq!(rt; text.as_slice(), wanted.as_slice());
    Ok(())
}

// Nearly as many cells as the limits allow, of which each is a row of the text.
#[test]
fn four_million_cells_are_printed(rt: HostRuntime) -> Result<(), Fail> {
    let alloc = rt.alloc();
    let over = classical(alloc, &small(alloc)?)?;
    let sizes = numbers(alloc, &[2_040, 2, 3])?;
    let structure = Structure::new(alloc, &over, &sizes)?;
    let text = print(alloc, &over, &structure)?;
    assert!(rt; text.len() > 4_179_962 * 20);
    Ok(())
}
