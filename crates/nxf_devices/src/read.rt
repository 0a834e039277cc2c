//! Reading a stream up to a limit.
ghost use Rattle.std.specs.Prelude.{◌≡◌, ℕ, ◌+◌, ◌<◌, ◌≤◌, ◌^◌, ◌++◌, List, length, OnOk, OnErr};

use std::io;
use std::io::Read;

/// Why a stream could not be read: it failed, or there was no memory.
#[derive(Debug, Drop, Clone, Copy)]
pub enum ReadError {
    Failed,
    Memory,
}

/// Appends a stream's bytes up to its end, or the first `limit + 1` of them. After an error `into` is as before.
pub fn read_up_to<R: Read>(reader: &mut R, limit: u64, into: &mut Vec<u8>) -> Result<(), ReadError>
    requires { limit < 2 ^ 32 }
    ensures ok { OnOk result ((bytes : List ℕ) × (into.new.items ≡ into.old.items ++ bytes) × (length bytes ≤ limit + 1)) }
    ensures err { OnErr result (into.new.items ≡ into.old.items) }
{
    let mut bytes = Vec::new(*into.allocator());
    read_all(reader, limit, &mut bytes)?;
    match into.extend_from_slice(&bytes) {
        Ok(()) => Ok(()),
        Err(_) => Err(ReadError::Memory),
    }
}

fn read_all<R: Read>(reader: &mut R, limit: u64, bytes: &mut Vec<u8>) -> Result<(), ReadError>
    requires small { limit < 2 ^ 32 }
    requires empty { length bytes.old.items ≡ 0 }
    ensures { OnOk result (length bytes.new.items ≤ limit + 1) }
{
    let most = limit as usize + 1;
    let mut piece = [0u8; 4096];
    for _ in 0..u64::MAX {
        let room = most - bytes.len();
        if room == 0 {
            return Ok(());
        }
        let end = room.min(piece.len());
        match reader.read(&mut piece[..end]) {
            Ok(0) => return Ok(()),
            Ok(count) => {
                if bytes.extend_from_slice(&piece[..count]).is_err() {
                    return Err(ReadError::Memory);
                }
            }
            Err(error) => {
                // a read that a signal cut short is tried again
                if error.kind() != io::ErrorKind::Interrupted {
                    return Err(ReadError::Failed);
                }
            }
        }
    }
    Err(ReadError::Failed)
}
