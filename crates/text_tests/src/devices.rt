// An output that fails at each of its bytes, and a library that is dropped; the libraries stand in boxes.
use crate::outcome::{embed_stdin, library_of};
use nxf_base::{BoxedLibrary, CalmSink, MemoryLibrary, MemorySink};
use nxf_include::Roots;
use nxf_run::run;
use std::test::Fail;

const PROBLEM: &str = "tff(l,logic,$modal == [$modalities == $modal_system_K]).
tff(c,conjecture,[.] p => p).
";

const TRANSLATED: &[u8] = b"tff(mk_world,type,mk_world: $tType).
tff(mk_actual,type,mk_actual: mk_world).
tff(mk_acc,type,mk_acc: ( mk_world * mk_world ) > $o).
tff(p,type,p: mk_world > $o).
tff(c,conjecture,! [W_0: mk_world] : ( mk_acc(mk_actual,W_0) => p(W_0) ) => p(mk_actual)).
";

// The output takes one byte at a time and fails at one write: it holds what it took before, and the status says so.
#[test]
fn failing_output(rt: HostRuntime) -> Result<(), Fail> {
    let alloc = rt.alloc();
    let words = embed_stdin(alloc)?;
    let boxed: BoxedLibrary = Box::new(alloc, library_of(alloc, &[("-", PROBLEM)])?)?;
    let mut roots = Roots::new(alloc);
    assert!(rt; roots.push(boxed).is_ok());
    for written in 0..=TRANSLATED.len() {
        let mut out = MemorySink::new(alloc, 1);
        out.fail_at(written as u64 + 1)?;
        let mut err = CalmSink::new(alloc);
        let status = run(alloc, &words, &mut roots, &mut out, &mut err);
        let (code, line) = if written < TRANSLATED.len() {
            (19, b"write fault\n".as_slice())
        } else {
            (0, b"".as_slice())
        };
        assert_eq!(rt; (status.code(), err.bytes()), (code, line));
        assert_eq!(rt; out.bytes(), &TRANSLATED[..written]);
    }
    Ok(())
}

// A library that was dropped is asked no more.
#[test]
fn dropped_library(rt: HostRuntime) -> Result<(), Fail> {
    let alloc = rt.alloc();
    let words = embed_stdin(alloc)?;
    let first: BoxedLibrary = Box::new(alloc, MemoryLibrary::new(alloc))?;
    let second: BoxedLibrary = Box::new(alloc, library_of(alloc, &[("-", PROBLEM)])?)?;
    let mut roots = Roots::new(alloc);
    assert!(rt; roots.push(first).is_ok());
    assert!(rt; roots.push(second).is_ok());
    assert!(rt; roots.drop_last());
    let mut out = CalmSink::new(alloc);
    let mut err = CalmSink::new(alloc);
    let status = run(alloc, &words, &mut roots, &mut out, &mut err);
    assert_eq!(rt; status.code(), 3);
    assert_eq!(rt; out.bytes(), b"".as_slice());
    assert_eq!(rt; err.bytes(), b"no file -\n".as_slice());
    Ok(())
}
