//! The program.
#![tactic(auto)]

use nxf_base::{Memory, Status};
use nxf_devices::start;
use std::process::ExitCode;

fn main(rt: HostRuntime) -> ExitCode {
    match start(rt) {
        Ok(status) => ExitCode::from(status.code()),
        Err(Memory) => ExitCode::from(Status::Memory.code()),
    }
}
