//! A text in the making, with room for the longest.
ghost use Rattle.std.specs.Prelude.{◌≡◌, ◌+◌, ◌≤◌, [], ◌∷◌, ◌++◌, map, length, drop};
ghost use Rattle.std.specs.Fmt.{signed_decimal};
ghost use Rattle.lines.specs.Texts.{rest};

use arrayvec::ArrayString;
use itoa::{Buffer, Integer};

/// Room for the longest text.
pub const ROOM: usize = 320;

#[derive(Drop)]
pub(crate) struct Page {
    text: ArrayString<ROOM>,
}

impl Page {
    pub(crate) fn new() -> Page
        ensures { result.text.bytes ≡ [] }
    {
        Page {
            text: ArrayString::new(),
        }
    }

    pub(crate) fn word(&mut self, word: &str)
        requires { length self.old.text.bytes + length word.now ≤ 320 }
        ensures text { self.new.text.bytes ≡ self.old.text.bytes ++ word.now }
        ensures size { length self.new.text.bytes ≡ length self.old.text.bytes + length word.now }
    {
        self.text.push_str(word);
    }

    /// Adds a label and a number.
    pub(crate) fn labelled<I: Integer>(&mut self, label: &str, number: I)
        requires { length self.old.text.bytes + length label.now + I.MAX_STR_LEN ≤ 320 }
        ensures text { self.new.text.bytes ≡ self.old.text.bytes ++ (label.now ++ I.text number) }
        ensures short { length self.new.text.bytes
            ≤ length self.old.text.bytes + length label.now + I.MAX_STR_LEN }
    {
        let mut digits = Buffer::new();
        self.word(label);
        self.word(digits.format(number));
    }

    /// Adds a line of a label and a number.
    pub(crate) fn entry<I: Integer>(&mut self, label: &str, number: I)
        requires { length self.old.text.bytes + length label.now + I.MAX_STR_LEN + 1 ≤ 320 }
        ensures text { self.new.text.bytes
            ≡ self.old.text.bytes ++ (label.now ++ (I.text number ++ (10 ∷ []))) }
        ensures short { length self.new.text.bytes
            ≤ length self.old.text.bytes + length label.now + I.MAX_STR_LEN + 1 }
    {
        self.labelled(label, number);
        self.word("\n");
    }

    /// Adds numbers, each after a blank, and the end of the line.
    pub(crate) fn numbers(&mut self, numbers: &[i64])
        requires { length self.old.text.bytes + length (rest (map signed_decimal numbers.now)) ≤ 320 }
        ensures { self.new.text.bytes
            ≡ self.old.text.bytes ++ rest (map signed_decimal numbers.now) }
    {
        let mut digits = Buffer::new();
        for z in numbers {
            self.word(" ");
            self.word(digits.format(*z));
        }
        self.word("\n");
    }

    /// Copies the text to the start of a list, and answers how many bytes it has.
    pub(crate) fn copy_to(&self, out: &mut [u8]) -> usize
        requires { 320 ≤ length out.old }
        ensures size { result ≡ length self.now.text.bytes }
        ensures after { out.new
            ≡ self.now.text.bytes ++ drop (length self.now.text.bytes) out.old }
    {
        let text = self.text.as_bytes();
        out[..text.len()].copy_from_slice(text);
        text.len()
    }
}
