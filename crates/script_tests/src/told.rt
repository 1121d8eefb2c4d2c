//! A script that was read, as a text: `0 set a.n[1] b` in line 7 is told as `7: 0 set v0.f1[1] v1`, with the numbers of
//! variables, fields and classes in place of their names.
use level_script::{Cmd, GcCmd, LaneCmd, Line, Member, Script, Spot};
use std::alloc::{AllocError, Global};

fn element(alloc: Global, spot: Spot) -> Result<String, AllocError> {
    let var = spot.var;
    let field = spot.field;
    let element = spot.element;
    format!(in alloc; "v{var}.f{field}[{element}]")
}

fn root(alloc: Global, var: u32, on: bool) -> Result<String, AllocError> {
    let on = if on { "on" } else { "off" };
    format!(in alloc; "root v{var} {on}")
}

fn set(alloc: Global, spot: Spot, to: Option<u32>) -> Result<String, AllocError> {
    let spot = element(alloc, spot)?;
    match to {
        Some(var) => format!(in alloc; "set {spot} v{var}"),
        None => format!(in alloc; "set {spot} none"),
    }
}

fn get(alloc: Global, var: u32, spot: Spot) -> Result<String, AllocError> {
    let spot = element(alloc, spot)?;
    format!(in alloc; "get v{var} {spot}")
}

fn put(alloc: Global, spot: Spot, value: u64) -> Result<String, AllocError> {
    let spot = element(alloc, spot)?;
    format!(in alloc; "put {spot} {value}")
}

fn take(alloc: Global, spot: Spot) -> Result<String, AllocError> {
    let spot = element(alloc, spot)?;
    format!(in alloc; "take {spot}")
}

fn new(alloc: Global, var: u32, class: u32) -> Result<String, AllocError> {
    format!(in alloc; "new v{var} c{class}")
}

fn store(alloc: Global, spot: Spot, weak: Option<u32>) -> Result<String, AllocError> {
    let spot = element(alloc, spot)?;
    match weak {
        Some(weak) => format!(in alloc; "store {spot} w{weak}"),
        None => format!(in alloc; "store {spot} none"),
    }
}

fn load(alloc: Global, weak: u32, spot: Spot) -> Result<String, AllocError> {
    let spot = element(alloc, spot)?;
    format!(in alloc; "load w{weak} {spot}")
}

fn hold(alloc: Global, h: u32, to: Option<u32>) -> Result<String, AllocError> {
    match to {
        Some(var) => format!(in alloc; "hold {h} v{var}"),
        None => format!(in alloc; "hold {h} none"),
    }
}

fn cluster(alloc: Global, members: &[Member]) -> Result<String, AllocError> {
    let mut text = String::from_str(alloc, "cluster")?;
    for member in members {
        let var = member.var;
        let class = member.class.0;
        let said = format!(in alloc; " v{var}:c{class}")?;
        text.push_str(said.as_str())?;
    }
    Ok(text)
}

fn command(alloc: Global, cmd: &LaneCmd) -> Result<String, AllocError> {
    match cmd {
        LaneCmd::Open => String::from_str(alloc, "open"),
        LaneCmd::Close => String::from_str(alloc, "close"),
        LaneCmd::New { var, class } => new(alloc, *var, class.0),
        LaneCmd::Cluster { members } => cluster(alloc, members.as_slice()),
        LaneCmd::Root { var, on } => root(alloc, *var, *on),
        LaneCmd::Set { spot, to } => set(alloc, *spot, *to),
        LaneCmd::Get { var, spot } => get(alloc, *var, *spot),
        LaneCmd::Put { spot, value } => put(alloc, *spot, *value),
        LaneCmd::Take { spot } => take(alloc, *spot),
        LaneCmd::Print { var } => format!(in alloc; "print v{var}"),
        LaneCmd::Store { spot, weak } => store(alloc, *spot, *weak),
        LaneCmd::Load { weak, spot } => load(alloc, *weak, *spot),
        LaneCmd::Hold { h, to } => hold(alloc, *h, *to),
        LaneCmd::Held { var, h } => format!(in alloc; "held v{var} {h}"),
        LaneCmd::Weak { weak, var } => format!(in alloc; "weak w{weak} v{var}"),
        LaneCmd::Resolve { var, weak } => format!(in alloc; "resolve v{var} w{weak}"),
        LaneCmd::Forge { weak, index } => format!(in alloc; "forge w{weak} {index}"),
        LaneCmd::Same { left, right } => format!(in alloc; "same w{left} w{right}"),
    }
}

/// A line of a script.
pub(crate) fn told_line(alloc: Global, line: &Line) -> Result<String, AllocError> {
    let number = line.number;
    match &line.cmd {
        Cmd::Lane(lane, cmd) => {
            let said = command(alloc, cmd)?;
            format!(in alloc; "{number}: {lane} {said}")
        }
        Cmd::Gc(GcCmd::Full) => format!(in alloc; "{number}: gc full"),
    }
}

/// The lines of a script, with `|` between two of them.
pub(crate) fn told(alloc: Global, script: &Script) -> Result<String, AllocError> {
    let mut text = String::new(alloc);
    for next in script.lines.as_slice() {
        if !text.as_str().is_empty() {
            text.push_str("|")?;
        }
        let said = told_line(alloc, next)?;
        text.push_str(said.as_str())?;
    }
    Ok(text)
}
