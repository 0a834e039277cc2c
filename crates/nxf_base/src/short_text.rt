//! Texts that are short enough to lie in a value themselves.
ghost use Rattle.std.specs.Prelude.{◌≡◌, ℕ, ◌+◌, ◌≤◌, List, ◌++◌, length, take};

use std::marker::Model;

/// The most bytes of a text that lies in its value. With the length and the mark of the kind it fills 32 bytes, as a
/// longer text's `Vec` and that mark do.
pub const SHORT_LEN: usize = 30;

/// A text of at most `SHORT_LEN` bytes, which takes no memory beside itself.
#[derive(Drop)]
pub struct ShortText {
    bytes: [u8; SHORT_LEN],
    len: u8,
}

impl Model for ShortText {
    ghost Value = { List ℕ };

    ghost view = { λ t. take t.len t.bytes };

    ghost invariant = { λ t. t.len ≤ length t.bytes };
}

impl ShortText {
    /// One text after another, of at most `SHORT_LEN` bytes together.
    pub fn joined(front: &[u8], back: &[u8]) -> ShortText
        requires { length front.now + length back.now ≤ SHORT_LEN }
        ensures { result ≡ front.now ++ back.now }
    {
        let mut bytes = [0; SHORT_LEN];
        let len = front.len() + back.len();
        let all = &mut bytes[..];
        all[..front.len()].copy_from_slice(front);
        all[front.len()..len].copy_from_slice(back);
        ShortText {
            bytes,
            len: len as u8,
        }
    }

    /// The bytes in order.
    pub fn bytes(&self) -> &[u8]
        ensures { result.now ≡ self.now }
    {
        &self.bytes[..self.len as usize]
    }
}
