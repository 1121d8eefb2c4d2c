//! The words after the program's name.
ghost use Rattle.std.specs.Prelude.{◌≡◌, ◌≤◌, ◌<◌, ◌+◌, [], ◌∷◌, length, map, take, drop, string_bytes, Some, None, IfSome, MatchOption, IsTrue};
ghost use Rattle.level_script.specs.Forms.{is_digits, written};
ghost use Rattle.world_play.specs.Words.{number_of, engine_of, shape_of};
ghost use Rattle.world_play.specs.Words.{setting_of, equals_at, more, settings_of};
ghost use Rattle.world_play.specs.Words.{sizes_of, is_within, in_range, words_of};
ghost use Rattle.world_play.specs.Words.{with_settings, IsTaken, IsTwice, with_options, nothing};

use world_model::{Level, Shape, Small};

/// The shapes that words can name.
#[derive(Clone, Copy, Debug, PartialEq, Eq)]
pub enum ShapeName {
    Level,
    Small,
}

/// The engines that words can name.
#[derive(Clone, Copy, Debug, PartialEq, Eq)]
pub(crate) enum EngineName {
    Plain,
}

/// What the words of `play` say.
#[derive(Clone, Copy, Debug, PartialEq, Eq)]
pub struct Words {
    /// How many markers there are, from 1 to those of the shape.
    pub markers: u32,
    /// How much one slice does, from 1 to 1,000,000.
    pub slice: u32,
    pub shape: ShapeName,
}

/// What one option sets.
#[derive(Clone, Copy, Debug, PartialEq, Eq)]
pub(crate) enum Setting {
    Markers(u64),
    Slice(u64),
    Engine(EngineName),
    Shape(ShapeName),
}

/// What the options so far have set.
#[derive(Clone, Copy, Debug, PartialEq, Eq)]
pub(crate) struct Given {
    markers: Option<u64>,
    slice: Option<u64>,
    engine: Option<EngineName>,
    shape: Option<ShapeName>,
}

// ---- values

// Whether all are digits.
fn is_digits(value: &[u8]) -> bool
    ensures { result ≡ is_digits value.now }
{
    value.iter().all(|b| b.is_ascii_digit())
}

// The number that at most 20 digits write.
fn written(digits: &[u8]) -> u128
    requires form { IsTrue (is_digits digits.now) }
    requires few { length digits.now ≤ 20 }
    ensures { result ≡ written digits.now }
{
    let mut value = 0u128;
    for digit in digits {
        value = value * 10 + (*digit - b'0') as u128;
    }
    value
}

fn read_number(value: &[u8]) -> Option<u64>
    ensures { result ≡ number_of value.now }
{
    if !is_digits(value) || value.is_empty() || value.len() > 20 {
        return None;
    }
    let number = written(value);
    if number < 1 << 64 {
        Some(number as u64)
    } else {
        None
    }
}

fn read_engine(value: &[u8]) -> Option<EngineName>
    ensures { result ≡ engine_of value.now }
{
    if value == b"plain".as_slice() {
        Some(EngineName::Plain)
    } else {
        None
    }
}

fn read_shape(value: &[u8]) -> Option<ShapeName>
    ensures { result ≡ shape_of value.now }
{
    if value == b"level".as_slice() {
        Some(ShapeName::Level)
    } else if value == b"small".as_slice() {
        Some(ShapeName::Small)
    } else {
        None
    }
}

// ---- options

fn read_setting(name: &[u8], value: &[u8]) -> Option<Setting>
    ensures { result ≡ setting_of name.now value.now }
{
    if name == b"--markers".as_slice() {
        Some(Setting::Markers(read_number(value)?))
    } else if name == b"--slice".as_slice() {
        Some(Setting::Slice(read_number(value)?))
    } else if name == b"--engine".as_slice() {
        Some(Setting::Engine(read_engine(value)?))
    } else if name == b"--shape".as_slice() {
        Some(Setting::Shape(read_shape(value)?))
    } else {
        None
    }
}

// Where the first `=` is.
fn equals_at(word: &[u8]) -> Option<usize>
    ensures place { result ≡ equals_at word.now }
    ensures inside { IfSome result (λ at. at < length word.now) }
{
    word.iter().position(|b| *b == b'=')
}

// What the one word `--x=v` sets, with its first `=` at this place.
fn read_joined(word: &[u8], at: usize) -> Option<Setting>
    requires { at < length word.now }
    ensures { result ≡ setting_of (take at word.now) (drop (at + 1) word.now) }
{
    read_setting(&word[..at], &word[at + 1..])
}

// The first setting, and the words behind it.
fn first_setting<'a>(word: &[u8], others: &'a [String]) -> Option<(Setting, &'a [String])>
    ensures first { let all = settings_of (word.now ∷ map string_bytes others.now) in MatchOption result (all ≡ None) (λ r. all ≡ more (Some r.0) (settings_of (map string_bytes r.1.now))) }
    ensures shorter { IfSome result (λ r. length r.1.now ≤ length others.now) }
{
    if let Some(at) = equals_at(word) {
        let setting = read_joined(word, at)?;
        return Some((setting, others));
    }
    let (value, rest) = others.split_first()?;
    let setting = read_setting(word, value.as_bytes())?;
    Some((setting, rest))
}

// ---- what is set

// With one more setting; nothing where the same was set before.
fn with_setting(given: Given, setting: Setting) -> Option<Given>
    ensures { MatchOption result (IsTwice given setting) (IsTaken given setting) }
{
    match setting {
        Setting::Markers(_) if given.markers.is_some() => None,
        Setting::Slice(_) if given.slice.is_some() => None,
        Setting::Engine(_) if given.engine.is_some() => None,
        Setting::Shape(_) if given.shape.is_some() => None,
        Setting::Markers(number) => Some(Given {
            markers: Some(number),
            ..given
        }),
        Setting::Slice(number) => Some(Given {
            slice: Some(number),
            ..given
        }),
        Setting::Engine(name) => Some(Given {
            engine: Some(name),
            ..given
        }),
        Setting::Shape(name) => Some(Given {
            shape: Some(name),
            ..given
        }),
    }
}

// What the options set, if the words are options and set nothing twice.
fn read_options(words: &[String]) -> Option<Given>
    ensures { let said = with_options nothing (settings_of (map string_bytes words.now)) in MatchOption result (said ≡ None) (λ given. said ≡ with_settings given []) }
{
    let mut given = Given {
        markers: None,
        slice: None,
        engine: None,
        shape: None,
    };
    let mut rest = words;
    while let Some((word, others)) = rest.split_first() {
        let (setting, behind) = first_setting(word.as_bytes(), others)?;
        given = with_setting(given, setting)?;
        rest = behind;
    }
    Some(given)
}

fn markers_of(shape: ShapeName) -> u32
    ensures { result ≡ (sizes_of shape).markers }
{
    match shape {
        ShapeName::Level => Level::MARKERS,
        ShapeName::Small => Small::MARKERS,
    }
}

fn is_within(number: u64, most: u32) -> bool
    ensures { result ≡ is_within number most }
{
    1 <= number && number <= most as u64
}

fn in_range(markers: u64, slice: u64, shape: ShapeName) -> Option<Words>
    ensures words { result ≡ in_range markers slice shape }
    ensures some { IfSome result (λ w. 1 ≤ w.slice) }
{
    if is_within(markers, markers_of(shape)) && is_within(slice, 1000000) {
        Some(Words {
            markers: markers as u32,
            slice: slice as u32,
            shape,
        })
    } else {
        None
    }
}

// With the defaults of what is not set.
fn defaulted(given: Given) -> Option<Words>
    ensures words { result ≡ with_settings given [] }
    ensures some { IfSome result (λ w. 1 ≤ w.slice) }
{
    let markers = given.markers.unwrap_or(1);
    let slice = given.slice.unwrap_or(1000);
    let shape = given.shape.unwrap_or(ShapeName::Level);
    in_range(markers, slice, shape)
}

/// What the words after the program's name say; nothing where they are not in the grammar:
/// `play`, and after it each at most once and in any order `--markers N`, `--slice N`,
/// `--engine plain` and `--shape level` or `--shape small`, each as two words or as `--x=v`.
pub fn read_words(words: &[String]) -> Option<Words>
    ensures words { result ≡ words_of (map string_bytes words.now) }
    ensures some { IfSome result (λ w. 1 ≤ w.slice) }
{
    let (word, options) = words.split_first()?;
    if word.as_bytes() != b"play".as_slice() {
        return None;
    }
    defaulted(read_options(options)?)
}
