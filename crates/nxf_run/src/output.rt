//! Writing to the sinks.
ghost use Rattle.std.specs.Prelude.{◌≡◌, ◌≤◌, ◌⊎◌, OnOk, OnErr, IsErrOf};
ghost use Rattle.nxf_base.specs.Causes.{Rose};
ghost use Rattle.nxf_base.specs.Message.{message_of};
ghost use Rattle.nxf_base.specs.Write.{Appends};
ghost use Rattle.nxf_run.specs.Ending.{AppendsSome};

use crate::message::message;
use nxf_base::{Sink, SinkError, Status};
use std::alloc::Global;

/// Writes all the bytes, piece by piece. After an error some of the first of them are written.
pub fn write_all<S: Sink>(sink: &mut S, bytes: &[u8]) -> Result<(), SinkError>
    ensures ok { OnOk result (Appends (S.held sink.old) (S.held sink.new) bytes.now) }
    ensures err { OnErr result (AppendsSome (S.held sink.old) (S.held sink.new) bytes.now) }
    ensures later { S.faults sink.old ≤ S.faults sink.new }
    ensures fault { IsErrOf result SinkError.Fault → Rose (S.faults sink.old) (S.faults sink.new) }
{
    let mut rest = bytes;
    while !rest.is_empty() {
        match sink.write(rest) {
            Ok(count) => rest = &rest[count..],
            Err(error) => return Err(error),
        }
    }
    Ok(())
}

/// Writes the line of a refusal, and gives the status in which the run ends: where no memory is found for the
/// line, that is `Memory`.
pub fn report<E: Sink>(alloc: Global, status: Status, err: &mut E) -> Status
    ensures same { result ≡ status ⊎ result ≡ Status.Memory }
    ensures some { AppendsSome (E.held err.old) (E.held err.new) (message_of status) }
    ensures all { let whole = Appends (E.held err.old) (E.held err.new) (message_of status) in
        result ≡ status → whole ⊎ (status ≡ Status.Memory) ⊎ Rose (E.faults err.old) (E.faults err.new) }
{
    let Ok(line) = message(alloc, &status) else {
        return Status::Memory;
    };
    match write_all(err, &line) {
        Ok(()) => status,
        Err(SinkError::Fault) => status,
        Err(SinkError::Memory) => Status::Memory,
    }
}
