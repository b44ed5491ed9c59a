//! The digits that bytes begin with: found among sixteen bytes at a time, and read eight at a time.
ghost use Rattle.std.specs.Prelude.{◌≡◌, ℕ, ◌*◌, ◌+◌, ◌-◌, ◌<◌, ◌≤◌, List, map, length, take, slice_index, IfSome, true};
ghost use Rattle.std.specs.Char.{is_ascii_digit};
ghost use Rattle.std.specs.Int.Digits.{number_from_digits};
ghost use Rattle.std.specs.List.{list_all};
ghost use Rattle.std.specs.Str.Parse.{digits_value};
ghost use Rattle.std.specs.Simd.Lanes.{number_l};
ghost use Rattle.script_text.specs.FrontDigits.{worth, AreEightDigits, AreWorths, IsFront};

use std::simd::prelude::*;

// What each byte is worth as a digit: at least ten where it is none.
#[inline(always)]
fn worths_of(bytes: &[u8]) -> u8x16
    requires { 16 ≤ length bytes.now }
    ensures { result ≡ map worth (take 16 bytes.now) }
{
    u8x16::from_slice(bytes) ^ u8x16::splat(b'0')
}

// How many of the first are worth less than ten.
#[inline(always)]
fn digits_among(worths: u8x16) -> usize
    ensures few { result ≤ 16 }
    ensures digits { (i : ℕ) → i < result → slice_index worths i < 10 }
{
    let digits = worths.simd_lt(u8x16::splat(10)).to_bitmask();
    digits.trailing_ones() as usize
}

// The first eight as one number, the first of them lowest.
#[inline(always)]
fn first_eight(worths: u8x16) -> u64
    ensures { result ≡ number_l 256 (take 8 worths) }
{
    u64x2::from_le_bytes(worths).to_array()[0]
}

// The number that eight digits write, the first of them lowest. Neighbours are joined to pairs, these to fours, and these to it.
#[inline(always)]
fn eight_digits(digits: u64) -> u64
    ensures { (ds : List ℕ) → AreEightDigits ds → digits ≡ number_l 256 ds → result ≡ number_from_digits 10 ds }
{
    let pairs = (digits.wrapping_mul(2_561) >> 8) & 0x00ff_00ff_00ff_00ff;
    let fours = (pairs.wrapping_mul(6_553_601) >> 16) & 0x0000_ffff_0000_ffff;
    fours.wrapping_mul(42_949_672_960_001) >> 32
}

// The number that the first so many of eight bytes write, where these are digits. Moved to the end, they have zeros before them.
#[inline(always)]
fn first_digits(worths: u64, count: usize) -> u64
    requires some { 1 ≤ count }
    requires few { count ≤ 8 }
    ensures { (bytes : List ℕ) → AreWorths worths bytes → list_all is_ascii_digit (take count bytes) ≡ true → result ≡ digits_value 10 (take count bytes) }
{
    eight_digits(worths << (64 - 8 * count))
}

// A number with one more digit.
#[inline(always)]
fn with_digit(value: u64, digit: u8) -> u64
    requires small { value < 1000000000 }
    requires low { 48 ≤ digit }
    requires high { digit ≤ 57 }
    ensures { result ≡ value * 10 + (digit - 48) }
{
    value * 10 + u64::from(digit - b'0')
}

/// The value of the digits that bytes begin with, and how many they are, where they are one to ten.
#[inline(always)]
pub fn front_digits(bytes: &[u8]) -> Option<(u64, usize)>
    requires { 16 ≤ length bytes.now }
    ensures { IfSome result (λ r. IsFront bytes.now r.0 r.1) }
{
    let worths = worths_of(bytes);
    let count = digits_among(worths);
    let eight = first_eight(worths);
    if count >= 1 && count <= 8 {
        return Some((first_digits(eight, count), count));
    }
    if count < 9 || count > 10 {
        return None;
    }
    let nine = with_digit(first_digits(eight, 8), bytes[8]);
    if count == 9 {
        return Some((nine, 9));
    }
    Some((with_digit(nine, bytes[9]), 10))
}
