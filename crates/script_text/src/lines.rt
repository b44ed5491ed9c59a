//! Lines, words and numbers.
ghost use Rattle.std.specs.Prelude.{◌≡◌, ◌≢◌, ◌<◌, slice_index, ◌≤◌, [], ◌∷◌, length, MatchOption, IfSome, Some, None, true, ◌==◌};
ghost use Rattle.std.specs.Char.{is_ascii_digit};
ghost use Rattle.std.specs.Str.Parse.{digits_value};
ghost use Rattle.std.specs.Option.{option_map};
ghost use Rattle.std.specs.List.{before_first, after_first, list_all};
ghost use Rattle.script_text.specs.Lines.{lines_of, words_of, most_digits, most_number, number_of, begins_with, is_label_byte, is_label, cut_ending};
ghost use Rattle.script_text.specs.Events.{only_one, only_two};

use crate::model::{Form, Reason};
use crate::words::is;

// The bytes before the first `at`, and those after it.
fn cut_at(bytes: &[u8], at: u8) -> (&[u8], &[u8])
    ensures front { result.0.now ≡ before_first (λ b. b == at) bytes.entry.now }
    ensures rest { result.1.now ≡ after_first (λ b. b == at) bytes.entry.now }
{
    for (i, b) in bytes.iter().enumerate() {
        if *b == at {
            return (&bytes[..i], &bytes[i + 1..]);
        }
    }
    (bytes, &[])
}

/// The first line, and the bytes after it.
pub fn next_line(bytes: &[u8]) -> Option<(&[u8], &[u8])>
    ensures line { MatchOption result (lines_of bytes.entry.now ≡ []) (λ r. lines_of bytes.entry.now ≡ r.0.now ∷ lines_of r.1.now) }
    ensures shorter { IfSome result (λ r. length r.1.now < length bytes.entry.now) }
{
    if bytes.is_empty() {
        return None;
    }
    Some(cut_at(bytes, b'\n'))
}

// The line after its first spaces.
fn trimmed(line: &[u8]) -> &[u8]
    ensures words { words_of result.now ≡ words_of line.entry.now }
    ensures first { slice_index result.now 0 ≢ 32 }
{
    let mut rest = line;
    while let [b' ', after @ ..] = rest {
        rest = after;
    }
    rest
}

/// The first word, and what follows it.
pub fn next_word(line: &[u8]) -> Option<(&[u8], &[u8])>
    ensures { MatchOption result (words_of line.entry.now ≡ []) (λ r. words_of line.entry.now ≡ r.0.now ∷ words_of r.1.now) }
{
    let rest = trimmed(line);
    if rest.is_empty() {
        return None;
    }
    Some(cut_at(rest, b' '))
}

/// The only word of a line, if it has one alone.
pub fn one_word(line: &[u8]) -> Option<&[u8]>
    ensures { option_map (λ w. w.now) result ≡ only_one (words_of line.entry.now) }
{
    let (word, rest) = next_word(line)?;
    if next_word(rest).is_some() {
        return None;
    }
    Some(word)
}

/// The words of a line, if it has two.
pub fn two_words(line: &[u8]) -> Option<(&[u8], &[u8])>
    ensures { option_map (λ p. (p.0.now, p.1.now)) result ≡ only_two (words_of line.entry.now) }
{
    let (word, rest) = next_word(line)?;
    let second = one_word(rest)?;
    Some((word, second))
}

// Whether a word is digits alone.
fn is_digits(word: &[u8]) -> bool
    ensures { result ≡ list_all is_ascii_digit word.now }
{
    word.iter().all(|b| b.is_ascii_digit())
}

// The value of digits.
fn value_of(digits: &[u8]) -> u128
    requires digits { list_all is_ascii_digit digits.now ≡ true }
    requires short { length digits.now ≤ 20 }
    ensures { result ≡ digits_value 10 digits.now }
{
    let mut value = 0;
    for digit in digits {
        value = value * 10 + u128::from(*digit - b'0');
    }
    value
}

// The most digits of a number.
fn most_digits(form: Form) -> usize
    ensures digits { result ≡ most_digits form }
    ensures few { result ≤ 20 }
{
    match form {
        Form::Three => 20,
        _ => 10,
    }
}

/// The greatest number.
pub fn most_number(form: Form) -> u64
    ensures { result ≡ most_number form }
{
    match form {
        Form::Three => 18_446_744_073_709_551_615,
        _ => 4_294_967_295,
    }
}

/// The number that a word is.
pub fn number(form: Form, word: &[u8]) -> Result<u64, Reason>
    ensures { result ≡ number_of form word.now }
{
    if word.is_empty() || word.len() > most_digits(form) || !is_digits(word) {
        return Err(Reason::BadNumber);
    }
    let value = value_of(word);
    if value > u128::from(most_number(form)) {
        return Err(Reason::BadNumber);
    }
    Ok(value as u64)
}

/// Whether a word begins with a byte.
pub fn begins_with(word: &[u8], byte: u8) -> bool
    ensures { result ≡ begins_with byte word.now }
{
    match word {
        [first, ..] => *first == byte,
        [] => false,
    }
}

// Whether bytes are those of labels.
fn are_label_bytes(bytes: &[u8]) -> bool
    ensures { result ≡ list_all is_label_byte bytes.now }
{
    bytes
        .iter()
        .all(|b| b.is_ascii_lowercase() || b.is_ascii_digit())
}

/// Whether a word is a label.
pub fn is_label(word: &[u8]) -> bool
    ensures { result ≡ is_label word.now }
{
    match word {
        [first, rest @ ..] => {
            *first == b'@' && rest.len() >= 1 && rest.len() <= 16 && are_label_bytes(rest)
        }
        [] => false,
    }
}

/// A word without its ending `.1` or `.2`, and whether it has the second one.
pub fn cut_ending(word: &[u8]) -> (&[u8], bool)
    ensures { (result.0.now, result.1) ≡ cut_ending word.entry.now }
{
    let (stem, ending) = word.split_at(word.len().saturating_sub(2));
    if is(ending, ".2") {
        (stem, true)
    } else if is(ending, ".1") {
        (stem, false)
    } else {
        (word, false)
    }
}
