//! A text that is printed mark by mark.
ghost use Rattle.std.specs.Prelude.{◌≡◌, []};
ghost use Rattle.kripke_text.specs.steps.Taking.{printed};

use crate::object::write_object;
use crate::taker::Taker;
use nxf_base::Memory;
use std::alloc::Global;
use std::marker::Model;
use text_writer::{put, write_name_bytes};

/// What is printed so far.
#[derive(Drop)]
pub struct Page {
    bytes: Vec<u8>,
}

impl Model for Page {
    ghost use Rattle.std.specs.Prelude.{List, ℕ};

    ghost Value = { List ℕ };

    ghost view = { λ p. p.bytes.items };
}

impl Page {
    /// Nothing yet.
    pub fn new(alloc: Global) -> Page
        ensures { result ≡ [] }
    {
        Page {
            bytes: Vec::new(alloc),
        }
    }

    /// The bytes that were printed.
    pub fn into_bytes(self) -> Vec<u8>
        ensures { result.items ≡ self }
    {
        self.bytes
    }
}

impl Taker for Page {
    ghost takes = { printed };

    fn sign(&mut self, spelling: &[u8]) -> Result<(), Memory> {
        put(&mut self.bytes, spelling)
    }

    fn dollar(&mut self, spelling: &[u8]) -> Result<(), Memory> {
        put(&mut self.bytes, spelling)
    }

    fn variable(&mut self, spelling: &[u8]) -> Result<(), Memory> {
        put(&mut self.bytes, spelling)
    }

    fn name(&mut self, text: &[u8]) -> Result<(), Memory> {
        write_name_bytes(&mut self.bytes, text)
    }

    fn object(&mut self, front: &[u8], number: u32) -> Result<(), Memory> {
        write_object(&mut self.bytes, front, number)
    }

    fn blank(&mut self) -> Result<(), Memory> {
        put(&mut self.bytes, b" ")
    }

    fn line(&mut self) -> Result<(), Memory> {
        put(&mut self.bytes, b"\n")
    }
}
