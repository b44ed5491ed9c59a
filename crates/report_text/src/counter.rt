//! A number that is counted up as text.
ghost use Rattle.std.specs.Prelude.{◌≡◌, ◌+◌, ◌<◌, length, take};
ghost use Rattle.report_text.specs.Written.{counted};

use itoa::write_digits;
use std::marker::Model;

/// The digits of a number, and behind them ` ok`, a line's end, and spaces.
#[derive(Drop)]
pub struct Counter {
    bytes: [u8; 40],
    start: usize,
}

impl Model for Counter {
    ghost use Rattle.std.specs.Prelude.{◌≡◌, ℕ, List, drop, codes, ◌≤◌};

    ghost Value = { List ℕ };

    ghost view = { λ c. drop c.start c.bytes };

    ghost invariant = { λ c. (c.start ≤ 20) × (drop 20 c.bytes ≡ codes " ok\n                ") };
}

impl Counter {
    /// The counter at 0.
    pub fn new() -> Counter
        ensures { result ≡ counted 0 }
    {
        Counter {
            bytes: *b"00000000000000000000 ok\n                ",
            start: 19,
        }
    }

    /// Counts on from a number.
    #[inline(always)]
    pub fn next(&mut self, n: u64)
        requires at { self.old ≡ counted n }
        requires small { n < 4294967296 }
        ensures { self.new ≡ counted (n + 1) }
    {
        if self.bytes[19] < b'9' {
            self.bytes[19] += 1;
        } else if self.start < 19 && self.bytes[18] < b'9' {
            self.bytes[18] += 1;
            self.bytes[19] = b'0';
        } else {
            self.start = write_digits(n + 1, &mut self.bytes, 20);
        }
    }

    /// The first bytes from the digits on: so many that the digits of a name and ` ok` with a line's end are among them.
    #[inline(always)]
    pub fn front(&self) -> &[u8]
        ensures front { result.now ≡ take 16 self.now }
        ensures long { length result.now ≡ 16 }
    {
        &self.bytes[self.start..self.start + 16]
    }

    /// How many digits there are.
    #[inline(always)]
    pub fn digits(&self) -> usize
        ensures { result + 20 ≡ length self.now }
    {
        20 - self.start
    }
}
