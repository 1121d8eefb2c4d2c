//! Reading a whole input.
ghost use Rattle.std.specs.Prelude.{◌≡◌, ◌≤◌, IfOk, IsTrue, OnOk};
ghost use Rattle.std.specs.Str.{IsAscii};
ghost use Rattle.level_script.specs.Frames.{IsPlayable};
ghost use Rattle.level_script.specs.Lines.{input_lines};
ghost use Rattle.level_script.specs.Context.{AreLawful};
ghost use Rattle.level_script.specs.Reading.{bad_at, after_numbered, read_from, TakesLine, ReadsLines, Reads};

use crate::cause::{Cause, ParseErr, ScriptErr, Stop};
use crate::context::Context;
use crate::limits::Limits;
use crate::lines::first_line;
use crate::script::Script;
use std::alloc::Global;

/// The most bytes of an input.
const BYTES: usize = 16777216;

/// The most lines of an input.
const LINES: u32 = 200000;

/// The answer for a faulty line.
fn bad(line: u32, cause: Cause) -> ParseErr
    ensures { result ≡ bad_at line cause }
{
    ParseErr::Bad(ScriptErr { line, cause })
}

/// Takes one line.
#[tactic(auto, unfolding(crate::specs::Reading::after_numbered))]
fn take_line(
    context: &mut Context,
    number: u32,
    line: &[u8],
    is_ascii: bool,
) -> Result<(), ParseErr>
    requires { IsTrue is_ascii → IsAscii line.now }
    ensures after_line { TakesLine (after_numbered number context.old line.now) number context.new result }
    ensures within { OnOk result (number ≤ 200000) }
{
    if number > LINES {
        return Err(bad(number, Cause::TooLong));
    }
    match context.read(number, line, is_ascii) {
        Ok(()) => Ok(()),
        Err(Stop::Faulty(cause)) => Err(bad(number, cause)),
        Err(Stop::Memory) => Err(ParseErr::Memory),
    }
}

/// Takes all lines. Of ASCII alone, as most inputs are, no line is looked at again for its UTF-8.
fn take_lines(context: &mut Context, bytes: &[u8]) -> Result<(), ParseErr>
    ensures { ReadsLines (read_from 1 context.old (input_lines bytes.now)) context.new result }
{
    let is_ascii = bytes.is_ascii();
    let mut rest = bytes;
    let mut number = 1;
    while let Some((line, after)) = first_line(rest) {
        if let Err(error) = take_line(context, number, line, is_ascii) {
            return Err(error);
        }
        number += 1;
        rest = after;
    }
    Ok(())
}

/// Reads an input as a script for a world with these limits, each in its range.
///
/// `Bad` names the first faulty line and its first cause, and comes exactly where a line is faulty.
/// After `Memory` nothing is known of the input.
#[tactic(auto, unfolding(crate::specs::Reading::outcome_of, crate::specs::Reading::script_of, crate::specs::Reading::fault_of))]
pub fn parse(alloc: Global, bytes: &[u8], limits: Limits) -> Result<Script, ParseErr>
    requires { AreLawful limits }
    ensures outcome { Reads bytes.now limits result }
    ensures playable { IfOk result (IsPlayable limits) }
{
    if bytes.len() > BYTES {
        return Err(bad(0, Cause::TooLong));
    }
    let Ok(mut context) = Context::new(alloc, &limits) else {
        return Err(ParseErr::Memory);
    };
    take_lines(&mut context, bytes)?;
    match context.into_script(alloc) {
        Ok(script) => Ok(script),
        Err(_) => Err(ParseErr::Memory),
    }
}
