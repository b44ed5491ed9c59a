//! Words made of fields, and the fields of a word. A field is a width in bits and a value.

ghost use Rattle.std.specs.Prelude.{◌≡◌, ◌+◌, ◌/◌, ◌%◌, ◌^◌, ◌<◌, eqb, [], ◌∷◌};
ghost use Rattle.lazy_rec.specs.Packed.{number, tag, flag, place, size, small};

use crate::places::Ref;

/// A field: its width in bits, and its value.
pub(crate) type Field = (u32, u64);

/// The word that has these fields, from its lowest bit upward.
#[inline(always)]
pub(crate) fn word2(first: Field, second: Field) -> u64
    requires first_fits { first.1 < 2 ^ first.0 }
    requires second_fits { second.1 < 2 ^ second.0 }
    requires room { first.0 + second.0 < 64 }
    ensures { result ≡ number (first ∷ second ∷ []) }
{
    first.1 | second.1 << first.0
}

/// The word that has these fields, from its lowest bit upward.
#[inline(always)]
pub(crate) fn word3(first: Field, second: Field, third: Field) -> u64
    requires first_fits { first.1 < 2 ^ first.0 }
    requires second_fits { second.1 < 2 ^ second.0 }
    requires third_fits { third.1 < 2 ^ third.0 }
    requires room { first.0 + second.0 + third.0 < 64 }
    ensures { result ≡ number (first ∷ second ∷ third ∷ []) }
{
    first.1 | word2(second, third) << first.0
}

/// The word that has these fields, from its lowest bit upward.
#[inline(always)]
pub(crate) fn word4(first: Field, second: Field, third: Field, fourth: Field) -> u64
    requires first_fits { first.1 < 2 ^ first.0 }
    requires second_fits { second.1 < 2 ^ second.0 }
    requires third_fits { third.1 < 2 ^ third.0 }
    requires fourth_fits { fourth.1 < 2 ^ fourth.0 }
    requires room { first.0 + second.0 + third.0 + fourth.0 < 64 }
    ensures { result ≡ number (first ∷ second ∷ third ∷ fourth ∷ []) }
{
    first.1 | word3(second, third, fourth) << first.0
}

/// The field of a word from a bit on, of a width.
#[inline(always)]
pub(crate) fn field_at(word: u64, from: u32, width: u32) -> u64
    requires { from + width < 64 }
    ensures value { result ≡ word / 2 ^ from % 2 ^ width }
    ensures bound { result < 2 ^ width }
{
    word >> from & ((1 << width) - 1)
}

// ---- fields of a record

#[inline(always)]
pub(crate) fn tag_field(n: u64) -> Field
    ensures { result ≡ tag n }
{
    (6, n)
}

#[inline(always)]
pub(crate) fn flag_field(b: bool) -> Field
    ensures { result ≡ flag b }
{
    (1, b as u64)
}

#[inline(always)]
pub(crate) fn place_field(r: Ref) -> Field
    ensures { result ≡ place r }
{
    (22, r.0 as u64)
}

#[inline(always)]
pub(crate) fn size_field(n: u32) -> Field
    ensures { result ≡ size n }
{
    (31, n as u64)
}

#[inline(always)]
pub(crate) fn small_field(width: u32, n: u8) -> Field
    ensures { result ≡ small width n }
{
    (width, n as u64)
}

// ---- fields of a word

#[inline(always)]
pub(crate) fn flag_at(word: u64, from: u32) -> bool
    requires { from < 63 }
    ensures { result ≡ eqb (word / 2 ^ from % 2 ^ 1) 1 }
{
    field_at(word, from, 1) == 1
}

#[inline(always)]
pub(crate) fn place_at(word: u64, from: u32) -> Ref
    requires { from < 42 }
    ensures { result.0 ≡ word / 2 ^ from % 2 ^ 22 }
{
    Ref(field_at(word, from, 22) as u32)
}

#[inline(always)]
pub(crate) fn size_at(word: u64, from: u32) -> u32
    requires { from < 33 }
    ensures { result ≡ word / 2 ^ from % 2 ^ 31 }
{
    field_at(word, from, 31) as u32
}

#[inline(always)]
pub(crate) fn small_at(word: u64, from: u32, width: u32) -> u8
    requires start { from < 56 }
    requires short { width < 8 }
    ensures { result ≡ word / 2 ^ from % 2 ^ width }
{
    field_at(word, from, width) as u8
}
