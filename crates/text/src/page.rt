// A text written piece by piece.
ghost use Rattle.std.specs.Prelude.{◌≡◌, [], ◌∷◌, ◌++◌, ◌+◌, ◌*◌, ◌≤◌, length};
ghost use Rattle.textrules.specs.Text.{decimal, tabulator, hex_text};

use crate::{hex, write};
use std::marker::Model;

// A text that grows in a buffer of its own.
#[derive(Drop)]
pub struct Page<const ROOM: usize> {
    bytes: [u8; ROOM],
    length: usize,
}

// Clauses see the text so far.
impl<const ROOM: usize> Model for Page<ROOM> {
    ghost use Rattle.std.specs.Prelude.{List, ℕ, ◌≤◌, take};

    ghost Value = { List ℕ };

    ghost view = { λ p. take p.length p.bytes };

    ghost invariant = { λ p. p.length ≤ ROOM };
}

impl<const ROOM: usize> Page<ROOM> {
    pub fn new() -> Self
        ensures { result ≡ [] }
    {
        Page {
            bytes: [0; ROOM],
            length: 0,
        }
    }

    pub fn clear(&mut self)
        ensures { self.new ≡ [] }
    {
        self.length = 0;
    }

    pub fn text(&self) -> &[u8]
        ensures { result.now ≡ self.now }
    {
        &self.bytes[..self.length]
    }

    pub fn put(&mut self, text: &[u8])
        requires { length self.old + length text.now ≤ ROOM }
        ensures { self.new ≡ self.old ++ text.now }
    {
        let bytes = &mut self.bytes[..];
        self.length = write::put(bytes, self.length, text);
    }

    // A number's decimal digits.
    pub fn put_decimal(&mut self, x: usize)
        requires { length self.old + length (decimal x) ≤ ROOM }
        ensures { self.new ≡ self.old ++ decimal x }
    {
        let bytes = &mut self.bytes[..];
        self.length = write::put_decimal(bytes, self.length, x);
    }

    // A tab and a text.
    pub fn put_word(&mut self, word: &[u8])
        requires { length self.old + 1 + length word.now ≤ ROOM }
        ensures { self.new ≡ self.old ++ tabulator ∷ word.now }
    {
        let bytes = &mut self.bytes[..];
        self.length = write::put_word(bytes, self.length, word);
    }

    // A tab and a number.
    pub fn put_count(&mut self, x: usize)
        requires { length self.old + 1 + length (decimal x) ≤ ROOM }
        ensures { self.new ≡ self.old ++ tabulator ∷ decimal x }
    {
        let bytes = &mut self.bytes[..];
        self.length = write::put_count(bytes, self.length, x);
    }

    // The hex digits of bytes, two a byte and the higher first.
    pub fn put_hex(&mut self, bytes: &[u8])
        requires { length self.old + 2 * length bytes.now ≤ ROOM }
        ensures { self.new ≡ self.old ++ hex_text bytes.now }
    {
        let page = &mut self.bytes[..];
        self.length = hex::put_hex(page, self.length, bytes);
    }
}
