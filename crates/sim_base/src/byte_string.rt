//! Bytes of the source that a token or a tree keeps.
ghost use Rattle.std.specs.Prelude.{◌≡◌, IfOk};

use std::alloc::{AllocError, Global};
use std::marker::Model;

/// A string of bytes: an identifier in lower case, or the characters of a text constant. Contracts see the list of its
/// bytes.
#[derive(Debug, Drop)]
pub struct ByteString {
    bytes: Vec<u8>,
}

impl Model for ByteString {
    ghost use Rattle.std.specs.Prelude.{List, ℕ};

    ghost Value = { List ℕ };

    ghost view = { λ string. string.bytes.items };
}

impl ByteString {
    /// The string of these bytes.
    pub fn new(bytes: Vec<u8>) -> ByteString
        ensures same { result ≡ bytes.items }
    {
        ByteString { bytes }
    }

    /// The bytes.
    pub fn as_bytes(&self) -> &[u8]
        ensures same { result.now ≡ self.now }
    {
        &self.bytes
    }

    /// The bytes, with the memory that holds them.
    pub fn into_bytes(self) -> Vec<u8>
        ensures same { result.items ≡ self }
    {
        self.bytes
    }

    /// A copy in memory of its own.
    pub fn copy(&self, alloc: Global) -> Result<ByteString, AllocError>
        ensures same { IfOk result (λ copy. copy ≡ self.now) }
    {
        let bytes = Vec::from_slice(alloc, &self.bytes)?;
        Ok(ByteString { bytes })
    }
}
