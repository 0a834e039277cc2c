//! The top call.
ghost use Rattle.std.specs.Prelude.{ℕ, List, Some};
ghost use Rattle.nxf_base.specs.Files.{Files};
ghost use Rattle.nxf_base.specs.Exactly.{ExactlyOne};
ghost use Rattle.nxf_run.specs.Answer.{IsAnswer};
ghost use Rattle.nxf_run.specs.Ending.{Follows, HasCause, Reports, Completes, Means};
ghost use Rattle.nxf_run.specs.Run.{ran, ran_on};

use crate::output::{report, write_all};
use crate::prepare::prepare;
use nxf_base::{Library, List, Sink, SinkError, Status, Text};
use nxf_include::Roots;
use std::alloc::Global;

/// All that the program does: it answers the words, over the files of a list of libraries, with a text to `out` or a line
/// to `err`. `out` gets bytes only after the whole text was made. The answer to `embed FILE` is the classical problem of the
/// file; that to `check FILE KRIPKE` is the line `countermodel`, where the second file has the Kripke text of a countermodel
/// of the first; that to `lift FILE INTERP` is the Kripke text of the structure that corresponds to the one that the
/// interpretation in the second file gives, where it is a countermodel of the first; the other commands have no answer yet.
pub fn run<O: Sink, E: Sink>(
    alloc: Global,
    words: &List<Text>,
    roots: &mut Roots,
    out: &mut O,
    err: &mut E,
) -> Status
    // The status and the bytes of `out` are those of the answer.
    ensures answers { Follows (ran_on words.now shelf roots.old roots.new O.Sink out.old out.new E.Sink err.old err.new) result }

    // A status that came from outside has its cause there.
    ensures causes { HasCause (ran_on words.now shelf roots.old roots.new O.Sink out.old out.new E.Sink err.old err.new) result }

    // A refusal is told to `err`.
    ensures reports { Reports (ran_on words.now shelf roots.old roots.new O.Sink out.old out.new E.Sink err.old err.new) result }

    // Where there is a text and nothing failed, it is given.
    ensures completes { Completes (ran_on words.now shelf roots.old roots.new O.Sink out.old out.new E.Sink err.old err.new) result }

    // The text means what the words ask: a translation, that a structure is a countermodel, or the text of a countermodel.
    ensures means { Means (ran_on words.now shelf roots.old roots.new O.Sink out.old out.new E.Sink err.old err.new) result }
{
    run_over(alloc, words, &mut roots.libraries, out, err)
}

/// The same over any libraries.
pub fn run_over<L: Library, O: Sink, E: Sink>(
    alloc: Global,
    words: &List<Text>,
    libraries: &mut [L],
    out: &mut O,
    err: &mut E,
) -> Status
    ensures answers { Follows (ran words.now L.shelf libraries.old libraries.new O.Sink out.old out.new E.Sink err.old err.new) result }
    ensures causes { HasCause (ran words.now L.shelf libraries.old libraries.new O.Sink out.old out.new E.Sink err.old err.new) result }
    ensures reports { Reports (ran words.now L.shelf libraries.old libraries.new O.Sink out.old out.new E.Sink err.old err.new) result }
    ensures completes { Completes (ran words.now L.shelf libraries.old libraries.new O.Sink out.old out.new E.Sink err.old err.new) result }
    ensures means { Means (ran words.now L.shelf libraries.old libraries.new O.Sink out.old out.new E.Sink err.old err.new) result }
{
    match prepare(alloc, words.as_slice(), libraries) {
        Ok(text) => match write_all(out, &text) {
            Ok(()) => Status::Ok,
            Err(SinkError::Fault) => report(alloc, Status::WriteFault, err),
            Err(SinkError::Memory) => report(alloc, Status::Memory, err),
        },
        Err(status) => report(alloc, status, err),
    }
}

/// Where the files are told, the words have exactly one answer.
pub fn one_answer()
    ensures { (files : Files) (words : List (List ℕ)) → ExactlyOne (IsAnswer (Some files) words) }
{}
