//! The forms of words.
ghost use Rattle.std.specs.Prelude.{◌≡◌, ◌≤◌, length, not, position, Some, None, option_map, IsTrue};
ghost use Rattle.std.specs.List.{list_all};
ghost use Rattle.level_script.specs.Forms.{begins_identifier, continues_identifier, is_identifier, identifier_of, variable_of, is_digits, written, number_of, is_comment, front_length, front, behind};

use std::marker::Model;

/// A number as a word writes it. Contracts see it as the number, and as none where it has more than
/// 20 digits or is 2^64 or more. It has two plain fields, and is no enum, because it is moved often
/// and then is copied more cheaply.
#[derive(Drop)]
pub struct Number {
    value: u64,
    is_out_of_range: bool,
}

impl Model for Number {
    ghost use Rattle.std.specs.Prelude.{ℕ, Option, Some, None, if◌then◌else◌};

    ghost Value = { Option ℕ };

    ghost view = { λ n. if n.is_out_of_range then None else Some n.value };
}

impl Number {
    /// A number that is in its range.
    pub fn new(value: u64) -> Number
        ensures { result ≡ Some value }
    {
        Number {
            value,
            is_out_of_range: false,
        }
    }

    /// One that is not.
    fn out_of_range() -> Number
        ensures { result ≡ None }
    {
        Number {
            value: 0,
            is_out_of_range: true,
        }
    }

    /// The number, where it is in its range.
    pub fn get(&self) -> Option<u64>
        ensures { result ≡ self.now }
    {
        if self.is_out_of_range {
            None
        } else {
            Some(self.value)
        }
    }
}

/// An identifier in a line. Contracts see it as its bytes.
#[derive(Drop)]
pub struct Identifier<'a> {
    text: &'a str,
}

impl<'a> Model for Identifier<'a> {
    ghost use Rattle.std.specs.Prelude.{ℕ, List};

    ghost Value = { List ℕ };

    ghost view = { λ i. i.text.now };
}

impl<'a> Identifier<'a> {
    /// The identifier as a text.
    pub fn as_str(&self) -> &'a str
        ensures { result.now ≡ self.now }
    {
        self.text
    }
}

/// Whether an identifier may begin with this byte.
fn begins_identifier(byte: u8) -> bool
    ensures { result ≡ begins_identifier byte }
{
    byte.is_ascii_alphabetic() || byte == b'_'
}

/// Each byte that continues an identifier stands at its own place, and a dot at every other one.
static CONTINUES: [u8; 256] = *b"\
    ................................\
    ................0123456789......\
    .ABCDEFGHIJKLMNOPQRSTUVWXYZ...._\
    .abcdefghijklmnopqrstuvwxyz.....\
    ................................\
    ................................\
    ................................\
    ................................";

/// Whether this byte may stand in an identifier behind its first.
fn continues_identifier(byte: u8) -> bool
    ensures { result ≡ continues_identifier byte }
{
    CONTINUES[byte as usize] != b'.'
}

/// Whether each byte may stand in an identifier behind its first.
fn all_continue(bytes: &[u8]) -> bool
    ensures { result ≡ list_all continues_identifier bytes.now }
{
    bytes.iter().all(|b| continues_identifier(*b))
}

/// The identifier that a word is.
pub fn read_identifier<'a>(word: &'a [u8]) -> Option<Identifier<'a>>
    ensures { result ≡ identifier_of word.now }
{
    if !all_continue(word) {
        return None;
    }
    front_identifier(word)
}

/// The identifier of a variable that a word is.
pub fn read_variable<'a>(word: &'a [u8]) -> Option<Identifier<'a>>
    ensures { result ≡ variable_of word.now }
{
    if word == b"none".as_slice() {
        None
    } else {
        read_identifier(word)
    }
}

/// Where the first byte is that continues no identifier.
fn front_end(word: &[u8]) -> Option<usize>
    ensures { result ≡ position (λ b. not (continues_identifier b)) word.now }
{
    word.iter().position(|b| !continues_identifier(*b))
}

/// How many bytes in front continue an identifier.
fn front_length(word: &[u8]) -> usize
    ensures count { result ≡ front_length word.now }
    ensures bound { result ≤ length word.now }
{
    match front_end(word) {
        Some(end) => end,
        None => word.len(),
    }
}

/// The bytes in front that continue an identifier, and what stands behind them.
pub fn split_front<'a>(word: &'a [u8]) -> (&'a [u8], &'a [u8])
    ensures front { result.0.now ≡ front word.now }
    ensures form { IsTrue (list_all continues_identifier result.0.now) }
    ensures behind { result.1.now ≡ behind word.now }
{
    word.split_at(front_length(word))
}

/// Whether bytes that continue an identifier are one.
fn is_front(front: &[u8]) -> bool
    requires { IsTrue (list_all continues_identifier front.now) }
    ensures { result ≡ is_identifier front.now }
{
    let [first, others @ ..] = front else {
        return false;
    };
    begins_identifier(*first) && others.len() < 64
}

/// The identifier that bytes are, each of which continues one.
pub fn front_identifier<'a>(front: &'a [u8]) -> Option<Identifier<'a>>
    requires { IsTrue (list_all continues_identifier front.now) }
    ensures { result ≡ identifier_of front.now }
{
    if !is_front(front) {
        return None;
    }
    // Each byte of an identifier is ASCII.
    let text = unsafe { str::from_utf8_unchecked(front) };
    Some(Identifier { text })
}

/// The identifier of a variable that bytes are, each of which continues one.
pub fn front_variable<'a>(front: &'a [u8]) -> Option<Identifier<'a>>
    requires { IsTrue (list_all continues_identifier front.now) }
    ensures { result ≡ variable_of front.now }
{
    if front == b"none".as_slice() {
        None
    } else {
        front_identifier(front)
    }
}

/// Whether a word is made of digits alone.
pub fn is_digits(word: &[u8]) -> bool
    ensures { result ≡ is_digits word.now }
{
    word.iter().all(|b| b.is_ascii_digit())
}

/// The number that at most 20 digits write.
fn written(digits: &[u8]) -> u128
    requires form { IsTrue (is_digits digits.now) }
    requires few { length digits.now ≤ 20 }
    ensures { result ≡ written digits.now }
{
    let mut value = 0u128;
    for digit in digits {
        value = value * 10 + (*digit - b'0') as u128;
    }
    value
}

/// The number of a word of digits.
pub fn read_number(digits: &[u8]) -> Number
    requires { IsTrue (is_digits digits.now) }
    ensures { result ≡ number_of digits.now }
{
    if digits.len() > 20 {
        return Number::out_of_range();
    }
    let value = written(digits);
    if value < 1 << 64 {
        Number::new(value as u64)
    } else {
        Number::out_of_range()
    }
}

/// Whether a line with this first word does nothing.
pub fn is_comment(word: &[u8]) -> bool
    ensures { result ≡ is_comment word.now }
{
    match word {
        [first, ..] => *first == b'#',
        [] => false,
    }
}
