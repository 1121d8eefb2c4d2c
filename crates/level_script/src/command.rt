//! The words of a line, one level of the grammar a function: lines of the header and of the collector, and parts of lines of lanes.
ghost use Rattle.std.specs.Prelude.{◌≡◌, MatchOption, Some, None};
ghost use Rattle.level_script.specs.Lines.{line_words};
ghost use Rattle.level_script.specs.Commands.{pair_of, only_of, class_line, count_of, field_of, two_names, field_line, collector_line, does_one, does_two, does_binds, does_members, does_of};
ghost use Rattle.level_script.specs.Members.{members_of};
ghost use Rattle.level_script.specs.LaneCommands.{tail_of};
ghost use Rattle.level_script.specs.declared.operand.Binds.TheVariants as binds;

use crate::cause::Cause;
use crate::forms::{Identifier, Number, is_digits, read_identifier, read_number, read_variable};
use crate::lane_cmd::{Verb, tail_of};
use crate::lines::{first_word, is_over};
use crate::members::read_members;
use crate::operand::{Binds, Form, Operand, Tail, read_operand};
use crate::said::{Does, FieldOf, Said};

/// The two words that are left, where there are two.
pub fn pair<'a>(rest: &'a [u8]) -> Option<(&'a [u8], &'a [u8])>
    ensures { MatchOption result (pair_of (line_words rest.now) ≡ None) (λ r. pair_of (line_words rest.now) ≡ Some (r.0.now, r.1.now)) }
{
    let (first, rest) = first_word(rest)?;
    let (second, rest) = first_word(rest)?;
    if is_over(rest) {
        Some((first, second))
    } else {
        None
    }
}

/// The one word that is left, where there is one.
pub fn only<'a>(rest: &'a [u8]) -> Option<&'a [u8]>
    ensures { MatchOption result (only_of (line_words rest.now) ≡ None) (λ r. only_of (line_words rest.now) ≡ Some r.now) }
{
    let (word, rest) = first_word(rest)?;
    if is_over(rest) { Some(word) } else { None }
}

/// What `class NAME PARENT` says.
pub fn class_line<'a>(in_header: bool, rest: &'a [u8]) -> Result<Said<'a>, Cause>
    ensures { result ≡ class_line in_header (line_words rest.now) }
{
    if !in_header {
        return Err(Cause::UnknownCommand);
    }
    let Some((name, parent)) = pair(rest) else {
        return Err(Cause::Words);
    };
    let Some(name) = read_identifier(name) else {
        return Err(Cause::Words);
    };
    let Some(parent) = read_identifier(parent) else {
        return Err(Cause::Words);
    };
    Ok(Said::Class { name, parent })
}

/// The number of elements at the end of a line, where it says one.
fn read_count(rest: &[u8]) -> Result<Option<Number>, Cause>
    ensures { result ≡ count_of (line_words rest.now) }
{
    let Some((word, rest)) = first_word(rest) else {
        return Ok(None);
    };
    if is_over(rest) && is_digits(word) {
        Ok(Some(read_number(word)))
    } else {
        Err(Cause::Words)
    }
}

/// What the elements of a field are, and what stands behind that.
fn field_of<'a>(rest: &'a [u8]) -> Option<(FieldOf<'a>, &'a [u8])>
    ensures { MatchOption result (field_of (line_words rest.now) ≡ None) (λ r. field_of (line_words rest.now) ≡ Some (r.0, line_words r.1.now)) }
{
    let (word, rest) = first_word(rest)?;
    if word == b"ref".as_slice() {
        let (class, rest) = first_word(rest)?;
        Some((FieldOf::Ref(read_identifier(class)?), rest))
    } else if word == b"weak".as_slice() {
        Some((FieldOf::Weak, rest))
    } else if word == b"int".as_slice() {
        Some((FieldOf::Int, rest))
    } else {
        None
    }
}

/// The two words in front, as identifiers, and what stands behind them.
fn two_names<'a>(rest: &'a [u8]) -> Option<(Identifier<'a>, Identifier<'a>, &'a [u8])>
    ensures { MatchOption result (two_names (line_words rest.now) ≡ None) (λ r. two_names (line_words rest.now) ≡ Some (r.0, r.1, line_words r.2.now)) }
{
    let (class, rest) = first_word(rest)?;
    let (name, rest) = first_word(rest)?;
    let class = read_identifier(class)?;
    let name = read_identifier(name)?;
    Some((class, name, rest))
}

/// What a line that begins with `field` says.
pub fn field_line<'a>(in_header: bool, rest: &'a [u8]) -> Result<Said<'a>, Cause>
    ensures { result ≡ field_line in_header (line_words rest.now) }
{
    if !in_header {
        return Err(Cause::UnknownCommand);
    }
    let Some((class, name, rest)) = two_names(rest) else {
        return Err(Cause::Words);
    };
    let Some((of, rest)) = field_of(rest) else {
        return Err(Cause::Words);
    };
    let count = read_count(rest)?;
    Ok(Said::Field {
        class,
        name,
        of,
        count,
    })
}

/// What a line that begins with `gc` says.
pub fn collector_line<'a>(rest: &'a [u8]) -> Result<Said<'a>, Cause>
    ensures { result ≡ collector_line (line_words rest.now) }
{
    let Some((word, rest)) = first_word(rest) else {
        return Err(Cause::UnknownCommand);
    };
    if word != b"full".as_slice() {
        return Err(Cause::UnknownCommand);
    }
    if is_over(rest) {
        Ok(Said::Full)
    } else {
        Err(Cause::Words)
    }
}

/// A command with one word behind it.
fn one<'a>(verb: Verb, form: Form, rest: &'a [u8]) -> Option<Does<'a>>
    ensures { result ≡ does_one verb form (only_of (line_words rest.now)) }
{
    let word = only(rest)?;
    let first = read_operand(form, word)?;
    Some(Does {
        verb,
        binds: Binds::Nothing,
        first,
        second: Operand::Nothing,
    })
}

/// A command with two words behind it.
fn two<'a>(verb: Verb, one: Form, two: Form, rest: &'a [u8]) -> Option<Does<'a>>
    ensures { result ≡ does_two verb one two (pair_of (line_words rest.now)) }
{
    let (first, second) = pair(rest)?;
    let first = read_operand(one, first)?;
    let second = read_operand(two, second)?;
    Some(Does {
        verb,
        binds: Binds::Nothing,
        first,
        second,
    })
}

/// A command with a variable that it binds and another word behind it.
fn binding<'a>(verb: Verb, form: Form, rest: &'a [u8]) -> Option<Does<'a>>
    ensures { result ≡ does_binds verb binds.Var form (pair_of (line_words rest.now)) }
{
    let (var, first) = pair(rest)?;
    let var = read_variable(var)?;
    let first = read_operand(form, first)?;
    Some(Does {
        verb,
        binds: Binds::Var(var),
        first,
        second: Operand::Nothing,
    })
}

/// The same with a weak variable.
fn binding_weak<'a>(verb: Verb, form: Form, rest: &'a [u8]) -> Option<Does<'a>>
    ensures { result ≡ does_binds verb binds.Weak form (pair_of (line_words rest.now)) }
{
    let (weak, first) = pair(rest)?;
    let weak = read_variable(weak)?;
    let first = read_operand(form, first)?;
    Some(Does {
        verb,
        binds: Binds::Weak(weak),
        first,
        second: Operand::Nothing,
    })
}

/// A command with the members of a cluster behind it.
fn members<'a>(verb: Verb, rest: &'a [u8]) -> Option<Does<'a>>
    ensures { result ≡ does_members verb (members_of (line_words rest.now)) }
{
    let words = read_members(rest)?;
    Some(Does {
        verb,
        binds: Binds::Members(words),
        first: Operand::Nothing,
        second: Operand::Nothing,
    })
}

/// What a lane does by a command, where the words behind it are those that follow it.
pub fn read_does<'a>(verb: Verb, rest: &'a [u8]) -> Option<Does<'a>>
    ensures { result ≡ does_of verb (tail_of verb) (line_words rest.now) }
{
    match tail_of(verb) {
        Tail::Alone => {
            if is_over(rest) {
                Some(Does {
                    verb,
                    binds: Binds::Nothing,
                    first: Operand::Nothing,
                    second: Operand::Nothing,
                })
            } else {
                None
            }
        }
        Tail::One(form) => one(verb, form, rest),
        Tail::Two(first, second) => two(verb, first, second, rest),
        Tail::Binds(form) => binding(verb, form, rest),
        Tail::BindsWeak(form) => binding_weak(verb, form, rest),
        Tail::Members => members(verb, rest),
    }
}
