//! A frame of a text: its characters, and whether it is a constant.
ghost use Rattle.std.specs.Prelude.{◌≡◌, ◌+◌, ◌-◌, ◌*◌, ◌^◌, ◌<◌, ◌≤◌, length, take, drop, map, replicate, ◌∷◌, []};
ghost use Rattle.std.specs.Char.{to_ascii_uppercase, to_ascii_lowercase};
ghost use Rattle.sim_values.specs.Texts.{replaced};
ghost use Rattle.text_objects.specs.Frames.{with_bytes, field};

use crate::bytes;
use std::marker::Model;

/// The bytes of a frame, fewer than 2^32 - 1 of them. Contracts see the list of its bytes and whether it is a constant.
#[derive(Debug, Drop)]
pub struct TextFrame {
    characters: Vec<u8>,
    constant: bool,
}

impl Model for TextFrame {
    ghost use Rattle.std.specs.Prelude.{◌-◌, ◌^◌, ◌<◌, length};
    ghost use Rattle.sim_values.specs.Texts.{Frame};

    ghost Value = { Frame };

    ghost view = { λ f. record { bytes = f.characters.items; constant = f.constant } };

    ghost invariant = { λ f. length f.characters.items < 2 ^ 32 - 1 };
}

impl TextFrame {
    /// A frame of these bytes.
    pub fn new(characters: Vec<u8>, constant: bool) -> TextFrame
        requires { length characters.items < 2 ^ 32 - 1 }
        ensures { result ≡ record { bytes = characters.items; constant = constant } }
    {
        TextFrame {
            characters,
            constant,
        }
    }

    /// How many bytes it has.
    pub fn len(&self) -> u32
        ensures length { result ≡ length self.now.bytes }
        ensures short { result < 2 ^ 32 - 1 }
    {
        self.characters.len() as u32
    }

    /// Whether it is a constant.
    pub fn is_constant(&self) -> bool
        ensures { result ≡ self.now.constant }
    {
        self.constant
    }

    /// Its bytes.
    pub fn bytes(&self) -> &[u8]
        ensures { result.now ≡ self.now.bytes }
    {
        self.characters.as_slice()
    }

    /// Writes one byte.
    #[tactic(auto, using(crate::proofs::Moves::set_is_replaced))]
    pub fn set(&mut self, at: usize, byte: u8)
        requires { at < length self.old.bytes }
        ensures { self.new ≡ with_bytes self.old (replaced self.old.bytes at (byte ∷ [])) }
    {
        self.characters[at] = byte;
    }

    /// Writes these bytes from `at` on.
    pub fn write(&mut self, at: usize, piece: &[u8])
        requires { at + length piece.now ≤ length self.old.bytes }
        ensures { self.new ≡ with_bytes self.old (replaced self.old.bytes at piece.now) }
    {
        self.characters[at..at + piece.len()].copy_from_slice(piece);
    }

    /// Writes `count` of its own bytes, those from `from` on, from `to` on.
    pub fn move_within(&mut self, from: usize, to: usize, count: usize)
        requires source { from + count ≤ length self.old.bytes }
        requires target { to + count ≤ length self.old.bytes }
        ensures { self.new ≡ with_bytes self.old (replaced self.old.bytes to (take count (drop from self.old.bytes))) }
    {
        bytes::move_within(&mut self.characters, from, to, count);
    }

    /// Writes `count` blanks from `at` on.
    pub fn blank(&mut self, at: usize, count: usize)
        requires { at + count ≤ length self.old.bytes }
        ensures { self.new ≡ with_bytes self.old (replaced self.old.bytes at (replicate count 32)) }
    {
        bytes::blank(&mut self.characters[at..at + count]);
    }

    /// Makes the small letters among `count` bytes from `at` on capitals.
    pub fn upcase(&mut self, at: usize, count: usize)
        requires { at + count ≤ length self.old.bytes }
        ensures { self.new ≡ with_bytes self.old (replaced self.old.bytes at (map to_ascii_uppercase (take count (drop at self.old.bytes)))) }
    {
        bytes::upcase(&mut self.characters[at..at + count]);
    }

    /// Makes the capital letters among `count` bytes from `at` on small.
    pub fn lowcase(&mut self, at: usize, count: usize)
        requires { at + count ≤ length self.old.bytes }
        ensures { self.new ≡ with_bytes self.old (replaced self.old.bytes at (map to_ascii_lowercase (take count (drop at self.old.bytes)))) }
    {
        bytes::lowcase(&mut self.characters[at..at + count]);
    }

    /// Writes an integer into `count` bytes from `at` on, at their right end.
    #[tactic(auto, using(crate::proofs::Justified::length_field))]
    pub fn put_integer(&mut self, at: usize, count: usize, value: i64)
        requires { at + count ≤ length self.old.bytes }
        ensures { self.new ≡ with_bytes self.old (replaced self.old.bytes at (field count value)) }
    {
        bytes::put_integer(&mut self.characters[at..at + count], value);
    }
}
