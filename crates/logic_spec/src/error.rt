//! Why a logic statement is refused.

use nxf_base::SpecKind;

/// Why a file's logic statement is not read: its first fault, or want of memory.
#[derive(Debug, Drop)]
pub enum SpecError {
    Kind(SpecKind),
    Memory,
}
