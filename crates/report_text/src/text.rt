//! A text that is written from its front, into room that is made for many lines at a time.
ghost use Rattle.std.specs.Prelude.{◌≡◌, ◌++◌, ◌+◌, ◌≤◌, [], length, take, decimal, OnOk};

use itoa::write_digits;
use std::alloc::AllocError;
use std::marker::Model;

/// How much room a line needs, with what is written behind its end.
pub const LINE_ROOM: usize = 128;

// How many bytes more there is room for at a time.
const STEP: usize = 1_024;

// What stands in room until it is written over. To copy it costs less than to write zeros one by one.
static ZEROS: [u8; STEP] = [0; STEP];

/// What was written, and room behind it.
#[derive(Drop)]
pub struct Text {
    bytes: Vec<u8>,
    len: usize,
}

impl Model for Text {
    ghost use Rattle.std.specs.Prelude.{◌-◌, ◌≤◌, take, vec_len};
    ghost use Rattle.report_text.specs.Written.{Written};

    ghost Value = { Written };

    ghost view = { λ t. record { text = take t.len t.bytes.items; room = vec_len t.bytes - t.len } };

    ghost invariant = { λ t. t.len ≤ vec_len t.bytes };
}

impl Text {
    /// The empty text, with some bytes as its room. What they hold is written over.
    pub fn over(bytes: Vec<u8>) -> Text
        ensures { result.text ≡ [] }
    {
        Text { bytes, len: 0 }
    }

    /// Makes room for a line.
    #[inline(always)]
    pub fn make_room(&mut self) -> Result<(), AllocError>
        ensures text { self.new.text ≡ self.old.text }
        ensures room { OnOk result (LINE_ROOM ≤ self.new.room) }
    {
        if self.bytes.len() - self.len >= LINE_ROOM {
            return Ok(());
        }
        self.grow()
    }

    #[cold]
    fn grow(&mut self) -> Result<(), AllocError>
        ensures text { self.new.text ≡ self.old.text }
        ensures room { OnOk result (LINE_ROOM ≤ self.new.room) }
    {
        self.bytes.extend_from_slice(&ZEROS)
    }

    /// Writes a piece whose first bytes stay. The others are written over by what comes next: to write so many bytes as are known
    /// beforehand is quicker than to write those alone that stay.
    #[inline(always)]
    pub fn put(&mut self, piece: &[u8], count: usize)
        requires within { count ≤ length piece.now }
        requires room { length piece.now ≤ self.old.room }
        ensures text { self.new.text ≡ self.old.text ++ take count piece.now }
        ensures room { self.new.room + count ≡ self.old.room }
    {
        let end = self.len + piece.len();
        self.bytes[self.len..end].copy_from_slice(piece);
        self.len += count;
    }

    /// Writes a text.
    #[inline(always)]
    pub fn put_text(&mut self, text: &str)
        requires { length text.now ≤ self.old.room }
        ensures text { self.new.text ≡ self.old.text ++ text.now }
        ensures room { self.new.room + length text.now ≡ self.old.room }
    {
        self.put(text.as_bytes(), text.len());
    }

    /// Writes a number.
    #[inline(always)]
    pub fn put_number(&mut self, n: u64)
        requires { 24 ≤ self.old.room }
        ensures text { self.new.text ≡ self.old.text ++ decimal n }
        ensures room { self.old.room ≤ self.new.room + 20 }
    {
        let mut digits = [0; 44];
        let start = write_digits(n, &mut digits, 20);
        self.put(&digits[start..start + 24], 20 - start);
    }

    /// The bytes that were written.
    pub fn into_bytes(self) -> Vec<u8>
        ensures { result.items ≡ self.text }
    {
        let Text { mut bytes, len } = self;
        bytes.truncate(len);
        bytes
    }
}
