// Runs over a library and outputs that tell nothing and do all that their contracts allow.
ghost use Rattle.std.specs.Prelude.{◌≡◌, ℕ, ◌+◌, ◌-◌, ◌^◌, ◌<◌, ◌++◌, List, take, None, Ok, OnOk, OnErr};

use crate::gathering::append;
use crate::outcome::{embed_stdin, library_of, summary};
use nxf_base::{BoxedLibrary, CalmSink, Found, Library, LoadError, Sink, SinkError, Text};
use nxf_include::Roots;
use nxf_run::run;
use std::alloc::Global;
use std::test::Fail;

const PROBLEM: &[u8] = b"tff(l,logic,$modal == [$modalities == $modal_system_K]).
include('a').
include('a').
";

const TEXT: &[u8] = b"tff(mk_world,type,mk_world: $tType).
tff(mk_actual,type,mk_actual: mk_world).
tff(p,type,p: mk_world > $o).
tff(q,type,q: mk_world > $o).
tff(a,axiom,! [W_0: mk_world] : p(W_0)).
tff(c,conjecture,q(mk_actual)).
";

// A library that tells no files, whose counts stand at their last value, and that answers otherwise at each load.
#[derive(Drop)]
struct Fickle {
    alloc: Global,
    loads: u64,
}

impl Library for Fickle {
    ghost shelf = { λ l. record { files = None; faults = 2 ^ 64 - 1; misses = 2 ^ 64 - 1 } };

    fn load(&mut self, name: &Text, limit: u64, into: &mut Vec<u8>) -> Result<Found, LoadError> {
        self.loads = self.loads.saturating_add(1);
        match self.loads {
            1 => Ok(Found::Absent),
            2 => Err(LoadError::Fault),
            3 => Err(LoadError::Memory),
            4 => flood(self.alloc, limit, into),
            loads => append(sheet(loads), limit, into),
        }
    }

    fn faults(&self) -> u64 {
        u64::MAX
    }

    fn misses(&self) -> u64 {
        u64::MAX
    }
}

// What it gives from the fifth load on: a problem that includes one file twice, and two files for it.
fn sheet(loads: u64) -> &'static [u8] {
    match loads % 3 {
        2 => PROBLEM,
        0 => b"tff(a,axiom,p).",
        _ => b"tff(c,conjecture,q).",
    }
}

// Appends one blank more than the limit.
fn flood(alloc: Global, limit: u64, into: &mut Vec<u8>) -> Result<Found, LoadError>
    requires { limit < 2 ^ 32 }
    ensures here { OnOk result ((file : List ℕ) × (into.new.items ≡ into.old.items ++ take (limit + 1) file)) }
    ensures found { result ≡ Ok Found.Absent → ⊥ }
    ensures err { OnErr result (into.new.items ≡ into.old.items) }
{
    match vec![in alloc; b' '; limit as usize + 1] {
        Ok(blanks) => append(&blanks, limit, into),
        Err(_) => Err(LoadError::Memory),
    }
}

// An output that doesn't tell what it took, and whose count of failures stands at its last value. It takes one byte at a time,
// finds no memory at one write, and fails at another.
#[derive(Drop)]
struct Grudging {
    taken: Vec<u8>,
    writes: u64,
    no_memory_at: u64,
    fault_at: u64,
}

impl Grudging {
    fn new(alloc: Global, no_memory_at: u64, fault_at: u64) -> Grudging {
        Grudging {
            taken: Vec::new(alloc),
            writes: 0,
            no_memory_at,
            fault_at,
        }
    }
}

impl Sink for Grudging {
    ghost held = { λ s. None };

    ghost faults = { λ s. 2 ^ 64 - 1 };

    fn write(&mut self, bytes: &[u8]) -> Result<usize, SinkError> {
        self.writes = self.writes.saturating_add(1);
        if self.writes == self.fault_at {
            return Err(SinkError::Fault);
        }
        if self.writes == self.no_memory_at || self.taken.push(bytes[0]).is_err() {
            return Err(SinkError::Memory);
        }
        Ok(1)
    }

    fn faults(&self) -> u64 {
        u64::MAX
    }
}

// Each load is judged by itself: a failure is told, and a file that is other each time is taken as it comes.
#[test]
fn fickle_library(rt: HostRuntime) -> Result<(), Fail> {
    let alloc = rt.alloc();
    let words = embed_stdin(alloc)?;
    let boxed: BoxedLibrary = Box::new(alloc, Fickle { alloc, loads: 0 })?;
    let mut roots = Roots::new(alloc);
    if roots.push(boxed).is_err() {
        return Err(Fail::new("no memory"));
    }
    let mut out = Grudging::new(alloc, 20, 40);
    let lines: [&str; 7] = [
        "3||no file -\n",
        "4||read fault\n",
        "20||no memory\n",
        "5||too long -\n",
        "20||no memory\n",
        "19||write fault\n",
        "0||",
    ];
    for line in lines.as_slice() {
        out.taken.clear();
        let mut err = CalmSink::new(alloc);
        let status = run(alloc, &words, &mut roots, &mut out, &mut err);
        let found = summary(alloc, status.code(), b"", err.bytes())?;
        assert_eq!(rt; found.as_slice(), line.as_bytes());
    }
    assert_eq!(rt; out.taken.as_slice(), TEXT);
    Ok(())
}

// The next library is asked where the first has nothing, and not where it fails.
#[test]
fn fickle_library_first(rt: HostRuntime) -> Result<(), Fail> {
    let alloc = rt.alloc();
    let words = embed_stdin(alloc)?;
    let library = library_of(alloc, &[("-", "tff(c,conjecture,p")])?;
    let first: BoxedLibrary = Box::new(alloc, Fickle { alloc, loads: 0 })?;
    let second: BoxedLibrary = Box::new(alloc, library)?;
    let mut roots = Roots::new(alloc);
    if roots.push(first).is_err() {
        return Err(Fail::new("no memory"));
    }
    if roots.push(second).is_err() {
        return Err(Fail::new("no memory"));
    }
    let lines: [&str; 3] = ["9||syntax - 1\n", "4||read fault\n", "20||no memory\n"];
    for line in lines.as_slice() {
        let mut out = CalmSink::new(alloc);
        let mut err = CalmSink::new(alloc);
        let status = run(alloc, &words, &mut roots, &mut out, &mut err);
        let found = summary(alloc, status.code(), out.bytes(), err.bytes())?;
        assert_eq!(rt; found.as_slice(), line.as_bytes());
    }
    Ok(())
}

// Where the line of a refusal is cut off, the status stays; where no memory is found for it, that is the status.
#[test]
fn grudging_error_output(rt: HostRuntime) -> Result<(), Fail> {
    let alloc = rt.alloc();
    let words = embed_stdin(alloc)?;
    let mut roots = Roots::new(alloc);
    let mut out = CalmSink::new(alloc);
    let mut cut = Grudging::new(alloc, 0, 4);
    let status = run(alloc, &words, &mut roots, &mut out, &mut cut);
    let found = summary(alloc, status.code(), out.bytes(), cut.taken.as_slice())?;
    assert_eq!(rt; found.as_slice(), b"3||no ".as_slice());
    let mut short = Grudging::new(alloc, 4, 0);
    let status = run(alloc, &words, &mut roots, &mut out, &mut short);
    let found = summary(alloc, status.code(), out.bytes(), short.taken.as_slice())?;
    assert_eq!(rt; found.as_slice(), b"20||no ".as_slice());
    Ok(())
}
