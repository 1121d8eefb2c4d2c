//! The text of a reply, which is written behind what a buffer has.
ghost use Rattle.std.specs.Prelude.{◌≡◌, ◌++◌, OnOk, string_bytes};
ghost use Rattle.std.specs.Prelude.{codes, decimal, flat_map, length, ◌<◌, if◌then◌else◌};
ghost use Rattle.world_play.specs.Types.reply;
ghost use Rattle.world_play.specs.Text.{text_of, HasText, phase_text, object_text, weak_text, name_text, names_text, full_text};

use crate::reply::Reply;
use level_script::ClassTable;
use std::alloc::AllocError;
use world_model::{ClassId, Name, Phase};

fn phase_word(phase: Phase) -> &'static str
    ensures { result.now ≡ phase_text phase }
{
    match phase {
        Phase::Idle => "idle",
        Phase::Marking => "marking",
        Phase::Gathering => "gathering",
    }
}

// Names, each behind a space.
fn push_listed(text: &mut String, names: &[Name]) -> Result<(), AllocError>
    ensures { OnOk result (string_bytes text.new ≡ string_bytes text.old ++ flat_map name_text names.now) }
{
    for name in names {
        write!(text, " {}:{}", name.lane, name.count)?;
    }
    Ok(())
}

// The names of a whole collection, if there are any.
fn push_names(text: &mut String, names: &[Name]) -> Result<(), AllocError>
    ensures { OnOk result (string_bytes text.new ≡ string_bytes text.old ++ names_text names.now) }
{
    if names.is_empty() {
        return Ok(());
    }
    text.push_str(":")?;
    push_listed(text, names)
}

fn push_full(text: &mut String, removed: u32, left: u32, found: &[Name]) -> Result<(), AllocError>
    ensures { OnOk result (string_bytes text.new ≡ string_bytes text.old ++ full_text removed left found.now) }
{
    write!(text, "gc full removed {removed} left {left}")?;
    push_names(text, found)?;
    text.push_str("\n")?;
    Ok(())
}

fn push_names_spent(text: &mut String, lane: u32, left: u64) -> Result<(), AllocError>
    ensures { OnOk result (string_bytes text.new ≡ string_bytes text.old ++ decimal lane ++ (codes " names spent " ++ (decimal left ++ codes "\n"))) }
{
    write!(text, "{lane} names spent {left}\n")
}

/// How many serials a lane has drawn, all that it has.
fn push_serials_spent(text: &mut String, lane: u32, made: u32) -> Result<(), AllocError>
    ensures { OnOk result (string_bytes text.new ≡ string_bytes text.old ++ (decimal lane ++ (codes " serials spent " ++ (decimal made ++ codes "\n")))) }
{
    write!(text, "{lane} serials spent {made}\n")
}

fn push_was_root(text: &mut String, lane: u32, was: bool) -> Result<(), AllocError>
    ensures { OnOk result (string_bytes text.new ≡ string_bytes text.old ++ decimal lane ++ (codes " was " ++ ((if was then codes "on" else codes "off") ++ codes "\n"))) }
{
    let word = if was { "on" } else { "off" };
    write!(text, "{lane} was {word}\n")
}

fn push_opened(text: &mut String, lane: u32, phase: Phase) -> Result<(), AllocError>
    ensures { OnOk result (string_bytes text.new ≡ string_bytes text.old ++ decimal lane ++ (codes " open " ++ (phase_text phase ++ codes "\n"))) }
{
    let word = phase_word(phase);
    write!(text, "{lane} open {word}\n")
}

fn push_running(text: &mut String, phase: Phase) -> Result<(), AllocError>
    ensures { OnOk result (string_bytes text.new ≡ string_bytes text.old ++ codes "gc running " ++ (phase_text phase ++ codes "\n")) }
{
    let word = phase_word(phase);
    write!(text, "gc running {word}\n")
}

fn push_new(text: &mut String, lane: u32, name: Name) -> Result<(), AllocError>
    ensures { OnOk result (string_bytes text.new ≡ string_bytes text.old ++ decimal lane ++ (codes " new " ++ (decimal name.lane ++ (codes ":" ++ (decimal name.count ++ codes "\n"))))) }
{
    write!(text, "{lane} new {}:{}\n", name.lane, name.count)
}

fn push_cluster(text: &mut String, lane: u32, first: Name, count: u32) -> Result<(), AllocError>
    ensures { OnOk result (string_bytes text.new ≡ string_bytes text.old ++ decimal lane ++ (codes " cluster " ++ (decimal first.lane ++ (codes ":" ++ (decimal first.count ++ (codes " " ++ (decimal count ++ codes "\n"))))))) }
{
    write!(
        text,
        "{lane} cluster {}:{} {count}\n",
        first.lane, first.count
    )
}

fn push_numbered(text: &mut String, words: &str, number: u32) -> Result<(), AllocError>
    ensures { OnOk result (string_bytes text.new ≡ string_bytes text.old ++ words.now ++ (decimal number ++ codes "\n")) }
{
    write!(text, "{words}{number}\n")
}

// An object or none.
fn push_object(text: &mut String, name: Option<Name>) -> Result<(), AllocError>
    ensures { OnOk result (string_bytes text.new ≡ string_bytes text.old ++ object_text name) }
{
    match name {
        Some(name) => write!(text, "{}:{}", name.lane, name.count),
        None => text.push_str("none"),
    }
}

// An object or none, behind words.
fn push_told(
    text: &mut String,
    lane: u32,
    words: &str,
    name: Option<Name>,
) -> Result<(), AllocError>
    ensures { OnOk result (string_bytes text.new ≡ string_bytes text.old ++ decimal lane ++ (words.now ++ (object_text name ++ codes "\n"))) }
{
    write!(text, "{lane}{words}")?;
    push_object(text, name)?;
    text.push_str("\n")
}

/// Whether there is a weak pointer, behind words.
fn push_weak(text: &mut String, lane: u32, words: &str, there: bool) -> Result<(), AllocError>
    ensures { OnOk result (string_bytes text.new ≡ string_bytes text.old ++ decimal lane ++ (words.now ++ (weak_text there ++ codes "\n"))) }
{
    let word = if there { "weak" } else { "none" };
    write!(text, "{lane}{words}{word}\n")
}

/// Whether two pairs are the same.
fn push_same(text: &mut String, lane: u32, same: bool) -> Result<(), AllocError>
    ensures { OnOk result (string_bytes text.new ≡ string_bytes text.old ++ decimal lane ++ (codes " same " ++ ((if same then codes "yes" else codes "no") ++ codes "\n"))) }
{
    let word = if same { "yes" } else { "no" };
    write!(text, "{lane} same {word}\n")
}

fn push_class(
    text: &mut String,
    classes: &ClassTable,
    lane: u32,
    name: Name,
    class: ClassId,
) -> Result<(), AllocError>
    requires { class.0 < length classes.now.classes }
    ensures { OnOk result (string_bytes text.new ≡ string_bytes text.old ++ text_of classes.now.classes (reply.Object lane name class)) }
{
    let word = classes.class_name(class);
    write!(text, "{lane} object {}:{} {word}\n", name.lane, name.count)
}

// Words behind a lane.
fn push_worded(text: &mut String, lane: u32, words: &str) -> Result<(), AllocError>
    ensures { OnOk result (string_bytes text.new ≡ string_bytes text.old ++ (decimal lane ++ words.now)) }
{
    write!(text, "{lane}{words}")
}

/// The line of a reply, with its line feed.
pub(crate) fn push_line(
    text: &mut String,
    classes: &ClassTable,
    reply: &Reply,
) -> Result<(), AllocError>
    requires { HasText classes.now.classes reply.now }
    ensures { OnOk result (string_bytes text.new ≡ string_bytes text.old ++ text_of classes.now.classes reply.now) }
{
    match reply {
        Reply::Opened(lane, phase) => push_opened(text, *lane, *phase),
        Reply::Closed(lane) => push_worded(text, *lane, " close\n"),
        Reply::New(lane, name) => push_new(text, *lane, *name),
        Reply::Cluster(lane, first, count) => push_cluster(text, *lane, *first, *count),
        Reply::Full(lane, free) => write!(text, "{lane} full {free}\n"),
        Reply::NamesSpent(lane, left) => push_names_spent(text, *lane, *left),
        Reply::WasRoot(lane, was) => push_was_root(text, *lane, *was),
        Reply::Was(lane, old) => push_told(text, *lane, " was ", *old),
        Reply::WasNumber(lane, old) => write!(text, "{lane} was {old}\n"),
        Reply::Is(lane, got) => push_told(text, *lane, " is ", *got),
        Reply::IsNumber(lane, got) => write!(text, "{lane} is {got}\n"),
        Reply::WasWeak(lane, was) => push_weak(text, *lane, " was ", *was),
        Reply::IsWeak(lane, is) => push_weak(text, *lane, " is ", *is),
        Reply::WeakMade(lane, name) => push_told(text, *lane, " weak ", Some(*name)),
        Reply::SerialsSpent(lane, made) => push_serials_spent(text, *lane, *made),
        Reply::Forged(lane) => push_worded(text, *lane, " forged\n"),
        Reply::Same(lane, same) => push_same(text, *lane, *same),
        Reply::Object(lane, name, class) => push_class(text, classes, *lane, *name, *class),
        Reply::NoObject(lane) => push_worded(text, *lane, " none\n"),
        Reply::NoField(lane) => push_worded(text, *lane, " no field\n"),
        Reply::WrongKind(lane) => push_worded(text, *lane, " wrong kind\n"),
        Reply::NoElement(lane) => push_worded(text, *lane, " no element\n"),
        Reply::WrongClass(lane) => push_worded(text, *lane, " wrong class\n"),
        Reply::Running(phase) => push_running(text, *phase),
        Reply::Purging(left) => push_numbered(text, "gc purging ", *left),
        Reply::Pending(frames) => push_numbered(text, "gc pending frames ", *frames),
        Reply::FullGc(removed, left, names) => push_full(text, *removed, *left, names.as_slice()),
    }
}
