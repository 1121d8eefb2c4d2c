//! Spots: an element of a field of an object.
ghost use Rattle.std.specs.Prelude.{◌≡◌};
ghost use Rattle.level_script.specs.Forms.{bracketed, element_of, spot_of};

use crate::forms::{Number, front_identifier, front_variable, is_digits, read_number, split_front};
use crate::operand::Place;

/// The number in front of a last `]`.
fn bracketed(word: &[u8]) -> Option<Number>
    ensures { result ≡ bracketed word.now }
{
    let (last, digits) = word.split_last()?;
    if *last == b']' && !digits.is_empty() && is_digits(digits) {
        Some(read_number(digits))
    } else {
        None
    }
}

/// The element that is told behind a field.
fn element_of(word: &[u8]) -> Option<Number>
    ensures { result ≡ element_of word.now }
{
    let [first, index @ ..] = word else {
        return Some(Number::new(0));
    };
    if *first == b'[' {
        bracketed(index)
    } else {
        None
    }
}

/// The spot that a word is: `V.F`, or `V.F[I]`.
pub fn read_spot<'a>(word: &'a [u8]) -> Option<Place<'a>>
    ensures { result ≡ spot_of word.now }
{
    let (var, behind) = split_front(word);
    let var = front_variable(var)?;
    let (dot, behind) = behind.split_first()?;
    if *dot != b'.' {
        return None;
    }
    let (field, behind) = split_front(behind);
    let field = front_identifier(field)?;
    let element = element_of(behind)?;
    Some(Place {
        var,
        field,
        element,
    })
}
