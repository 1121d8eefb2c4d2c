//! Whole scripts.
ghost use Rattle.std.specs.Prelude.{◌≡◌, ◌≤◌, true, false, [], length, replicate, OnOk, OnErr};
ghost use Rattle.level_script.specs.Frames.{are_framed, fits_script};
ghost use Rattle.std.specs.List.{list_all};
ghost use Rattle.world_play.specs.Streams.{PutCounts};
ghost use Rattle.world_play.specs.Turns.{IsReady, Answered, Unanswered, Played, Stopped};
ghost use Rattle.world_play.specs.Variables.{standing, shown};
ghost use Rattle.class_schema.specs.Lawful.{IsSchema};

use crate::header::Header;
use crate::stream::put_all;
use crate::text::push_line;
use crate::turn::turn;
use crate::variables::Variables;
use level_script::Line;
use play_io::{PutErr, Sink};
use std::alloc::Global;
use world_model::{Engine, Shape};

/// Plays a line, and puts the text of its reply as one piece. The text is written into a buffer,
/// whatever stands in it.
fn play_line<S: Shape, E: Engine<S>, K: Sink>(
    alloc: Global,
    engine: &mut E,
    header: &Header<'_>,
    variables: &mut Variables,
    budget: u32,
    line: &Line,
    text: &mut String,
    out: &mut K,
) -> Result<(), PutErr>
    requires some { 1 ≤ budget }
    requires ready { IsReady S.sizes (E.history engine.old) (E.holds engine.old) (standing variables.old) header.now line.now.cmd }
    ensures faults { PutCounts (K.faults out.old) (K.faults out.new) result }
    ensures answered { OnOk result (Answered S.sizes budget header.now (E.history engine.old) (E.history engine.new) (E.holds engine.new) (standing variables.old) (standing variables.new) line.now (K.held out.old) (K.held out.new)) }
    ensures unanswered { OnErr result (Unanswered S.sizes budget header.now (E.history engine.old) (E.history engine.new) (shown (standing variables.old)) line.now (K.held out.old) (K.held out.new)) }
{
    let Ok(reply) = turn::<S, E>(alloc, engine, header, variables, budget, &line.cmd) else {
        return Err(PutErr::Memory);
    };
    engine.lawful();
    text.clear();
    let Ok(()) = push_line(text, header.classes, &reply) else {
        return Err(PutErr::Memory);
    };
    put_all(out, text.as_bytes())
}

/// Plays the lines in order with slices of so many objects, items or steps, where each lane has so
/// many variables and the script has so many weak ones, and puts the text of
/// each reply when its line is done. `written` counts the lines that were put whole.
pub fn play<S: Shape, E: Engine<S>, K: Sink>(
    alloc: Global,
    engine: &mut E,
    header: &Header<'_>,
    lines: &[Line],
    counts: &[u32],
    weaks: u32,
    budget: u32,
    out: &mut K,
    written: &mut u64,
) -> Result<(), PutErr>
    requires some { 1 ≤ budget }
    requires lanes { length counts.now ≡ S.sizes.lanes }
    requires framed { are_framed counts.now (length header.now.classes.classes) (length header.now.fields) (replicate S.sizes.lanes false) lines.now ≡ true }
    requires beside { list_all (λ line. fits_script weaks S.sizes.strong line.cmd) lines.now ≡ true }
    requires slots { header.now.classes.slots ≡ S.sizes.slots }
    requires schema { IsSchema header.now.classes }
    requires start { E.history engine.old ≡ [] }
    requires none { written.old ≡ 0 }
    ensures faults { PutCounts (K.faults out.old) (K.faults out.new) result }
    ensures plays { OnOk result (Played S.sizes budget header.now lines.now (E.history engine.new) (K.held out.old) (K.held out.new)) }
    ensures written { OnOk result (written.new ≡ length lines.now) }
    ensures stopped { OnErr result (Stopped S.sizes budget header.now lines.now (E.history engine.new) (K.held out.old) (K.held out.new) written.new) }
{
    let Ok(mut variables) = Variables::new(alloc, counts, weaks) else {
        return Err(PutErr::Memory);
    };
    let mut text = String::new(alloc);
    for line in lines {
        play_line::<S, E, K>(
            alloc,
            engine,
            header,
            &mut variables,
            budget,
            line,
            &mut text,
            out,
        )?;
        *written += 1;
    }
    engine.lawful();
    Ok(())
}
