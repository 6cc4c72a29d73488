ghost use Rattle.std.specs.Prelude.{◌≡◌, ◌+◌, ◌<◌, ◌≤◌, [], ◌∷◌, ◌++◌, length, drop, codes, decimal};
ghost use Rattle.lines.specs.GraphLines.{tags_text};

use arrayvec::ArrayVec;
use sets::Set;
use std::marker::Model;

// How many bytes a line has room for.
const LINE: usize = 96;

// Tags are numbered below this.
const TAGS: usize = 24;

// A line that is being written: the bytes that it has so far.
#[derive(Drop)]
pub(crate) struct Line {
    bytes: ArrayVec<u8, LINE>,
}

impl Model for Line {
    ghost use Rattle.std.specs.Prelude.{ℕ, List};

    ghost Value = { List ℕ };

    ghost view = { λ line. line.bytes.items };
}

impl Line {
    // The line that has no byte.
    pub(crate) fn new() -> Line
        ensures { result ≡ [] }
    {
        Line {
            bytes: ArrayVec::new(),
        }
    }

    // Adds a text.
    pub(crate) fn text(&mut self, text: &[u8])
        requires { length self.old + length text.now ≤ 96 }
        ensures bytes { self.new ≡ self.old ++ text.now }
        ensures long { length self.new ≡ length self.old + length text.now }
    {
        self.bytes.try_extend_from_slice(text).unwrap()
    }

    // Adds a byte.
    pub(crate) fn byte(&mut self, byte: u8)
        requires { length self.old + 1 ≤ 96 }
        ensures bytes { self.new ≡ self.old ++ byte ∷ [] }
        ensures long { length self.new ≡ length self.old + 1 }
    {
        self.bytes.push(byte)
    }

    // Adds a number in decimal digits.
    pub(crate) fn number(&mut self, n: usize)
        requires { length self.old + 20 ≤ 96 }
        ensures bytes { self.new ≡ self.old ++ decimal n }
        ensures long { length self.new ≡ length self.old + length (decimal n) }
        ensures most { length self.new ≤ length self.old + 20 }
    {
        self.digits(n)
    }

    // Adds the decimal digits of a number. Below 1000, as numbers of a listing mostly are, it needs no call of itself.
    fn digits(&mut self, n: usize)
        requires { length self.old + length (decimal n) ≤ 96 }
        ensures bytes { self.new ≡ self.old ++ decimal n }
        ensures long { length self.new ≡ length self.old + length (decimal n) }
    {
        if n < 100 {
            self.two_digits(n)
        } else if n < 1000 {
            self.two_digits(n / 10);
            self.byte(b'0' + (n % 10) as u8)
        } else {
            self.digits(n / 10);
            self.byte(b'0' + (n % 10) as u8)
        }
    }

    // Adds the one or two decimal digits of a number below 100.
    fn two_digits(&mut self, n: usize)
        requires { (n < 100) × (length self.old + length (decimal n) ≤ 96) }
        ensures bytes { self.new ≡ self.old ++ decimal n }
        ensures long { length self.new ≡ length self.old + length (decimal n) }
    {
        if n < 10 {
            self.byte(b'0' + n as u8)
        } else {
            self.byte(b'0' + (n / 10) as u8);
            self.byte(b'0' + (n % 10) as u8)
        }
    }

    // Adds the tags of a set, a space before each.
    pub(crate) fn tags(&mut self, tags: Set)
        requires { length self.old + 80 ≤ 96 }
        ensures bytes { self.new ≡ self.old ++ tags_text tags.0 }
        ensures long { length self.new ≤ length self.old + 62 }
    {
        for tag in 0..TAGS {
            if tags.has(tag) {
                self.tag(tag);
            }
        }
    }

    // Adds a space and a tag. As a call of its own it keeps the loop over all tags short.
    #[inline(never)]
    fn tag(&mut self, tag: usize)
        requires { (tag < 24) × (length self.old + 3 ≤ 96) }
        ensures bytes { self.new ≡ self.old ++ (codes " " ++ decimal tag) }
        ensures long { length self.new ≡ length self.old + 1 + length (decimal tag) }
    {
        self.byte(b' ');
        self.two_digits(tag)
    }

    // Writes the line over the first bytes of a buffer, and answers its length.
    pub(crate) fn write(&self, out: &mut [u8]) -> usize
        requires { length self.now ≤ length out.old }
        ensures answer { result ≡ length self.now }
        ensures left { out.new ≡ self.now ++ drop (length self.now) out.old }
    {
        let bytes = self.bytes.as_slice();
        out[..bytes.len()].copy_from_slice(bytes);
        bytes.len()
    }
}
