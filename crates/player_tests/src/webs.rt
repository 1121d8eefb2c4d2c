//! Random webs of objects and of clusters: what a collection removes is what a plain walk over the units does not reach.
ghost use Rattle.std.specs.Prelude.{◌<◌};

use crate::runs::plays;
use std::alloc::Global;
use std::thread::Threads;
use world_play::Status;

// Whether `play` of this input writes this text of so many lines, and all is well.
fn writes<R: Threads + Sync>(rt: &R, alloc: Global, input: &str, text: &str, lines: u64) -> bool {
    plays(rt, alloc, input, 4096, Status::Ok, text, lines)
}

/// Numbers that repeat from run to run, by a linear congruence.
#[derive(Drop)]
struct Numbers {
    last: u64,
}

impl Numbers {
    // A number below `bound`.
    fn below(&mut self, bound: u32) -> u32
        requires { 0 < bound }
    {
        self.last = self
            .last
            .wrapping_mul(6364136223846793005)
            .wrapping_add(1442695040888963407);
        ((self.last >> 33) % (bound as u64)) as u32
    }
}

const OBJECTS: u32 = 240;

const CELLS: u32 = 4;

/// A graph of objects in units of so many: for each cell 0, or one more than the object that it names; the
/// rooted objects; and the objects that were reached.
#[derive(Drop)]
struct Graph {
    width: u32,
    cells: Vec<u32>,
    rooted: Vec<bool>,
    reached: Vec<bool>,
}

fn has(marks: &[bool], at: u32) -> bool {
    match marks.get(at as usize) {
        Some(mark) => *mark,
        None => false,
    }
}

fn mark(marks: &mut [bool], at: u32) {
    let at = at as usize;
    if at < marks.len() {
        marks[at] = true;
    }
}

impl Graph {
    fn new(alloc: Global, width: u32) -> Option<Graph> {
        let cells = vec![in alloc; 0u32; 960].ok()?;
        let rooted = vec![in alloc; false; 240].ok()?;
        let reached = vec![in alloc; false; 240].ok()?;
        Some(Graph {
            width,
            cells,
            rooted,
            reached,
        })
    }

    fn cell(&self, of: u32, slot: u32) -> u32 {
        let at = (of as usize)
            .saturating_mul(4)
            .saturating_add(slot as usize);
        match self.cells.get(at) {
            Some(cell) => *cell,
            None => 0,
        }
    }

    fn set(&mut self, of: u32, slot: u32, to: u32) {
        let at = (of as usize)
            .saturating_mul(4)
            .saturating_add(slot as usize);
        if at < self.cells.len() {
            self.cells[at] = to;
        }
    }

    // Marks an object with all members of its unit, and tells whether it was not marked.
    fn take(&mut self, of: u32) -> bool {
        if has(self.reached.as_slice(), of) {
            return false;
        }
        let place = if self.width == 0 { 0 } else { of % self.width };
        let first = of.saturating_sub(place);
        for k in 0..self.width {
            mark(self.reached.as_mut_slice(), first.saturating_add(k));
        }
        true
    }

    // Marks the units of the objects that those marked so far name, and tells whether there were new
    // ones.
    fn spread(&mut self) -> bool {
        let mut more = false;
        for of in 0..OBJECTS {
            if has(self.reached.as_slice(), of) {
                for slot in 0..CELLS {
                    let to = self.cell(of, slot);
                    if to > 0 && self.take(to - 1) {
                        more = true;
                    }
                }
            }
        }
        more
    }

    fn reach(&mut self) {
        for of in 0..OBJECTS {
            if has(self.rooted.as_slice(), of) {
                let _ = self.take(of);
            }
        }
        for round in 0..OBJECTS {
            let _ = round;
            if !self.spread() {
                return;
            }
        }
    }
}

// A cell's object as a reply tells it.
fn told(alloc: Global, cell: u32) -> Option<String> {
    if cell == 0 {
        String::from_str(alloc, "none").ok()
    } else {
        format!(in alloc; "0:{cell}").ok()
    }
}

// Adds the lines that make the objects, in units of so many, and number them, with their replies; tells how many lines.
fn make_units(alloc: Global, width: u32, script: &mut String, text: &mut String) -> Option<u64> {
    let mut lines = 0u64;
    for of in 0..OBJECTS {
        let made = of + 1;
        if width < 2 {
            let line = format!(in alloc; "0 new v{of} A\n").ok()?;
            script.push_str(line.as_str()).ok()?;
            let line = format!(in alloc; "0 new 0:{made}\n").ok()?;
            text.push_str(line.as_str()).ok()?;
            lines = lines.saturating_add(1);
        } else if of % width == 0 {
            script.push_str("0 cluster").ok()?;
            for k in 0..width {
                let var = of.saturating_add(k);
                let word = format!(in alloc; " v{var}:A").ok()?;
                script.push_str(word.as_str()).ok()?;
            }
            script.push_str("\n").ok()?;
            let line = format!(in alloc; "0 cluster 0:{made} {width}\n").ok()?;
            text.push_str(line.as_str()).ok()?;
            lines = lines.saturating_add(1);
        }
    }
    for of in 0..OBJECTS {
        let made = of + 1;
        let line = format!(in alloc; "0 put v{of}.n[1] {made}\n").ok()?;
        script.push_str(line.as_str()).ok()?;
        text.push_str("0 was 0\n").ok()?;
        lines = lines.saturating_add(1);
    }
    Some(lines)
}

// Plays a script of random stores and roots over objects in units of so many, a divisor of their number, and compares
// what is removed with what the graph says.
fn random_web<R: Threads + Sync>(
    rt: &R,
    alloc: Global,
    width: u32,
    seed: u64,
    stores: u32,
    roots: u32,
) -> Option<bool> {
    let mut numbers = Numbers { last: seed };
    let mut graph = Graph::new(alloc, width)?;
    let mut script = String::from_str(
        alloc,
        "class A Object\nfield A m int\nfield A r ref A 4\nfield A n int 2\n0 open\n",
    )
    .ok()?;
    let mut text = String::from_str(alloc, "0 open idle\n").ok()?;
    let made = make_units(alloc, width, &mut script, &mut text)?;
    for count in 0..stores {
        let _ = count;
        let of = numbers.below(OBJECTS);
        let slot = numbers.below(CELLS);
        let to = numbers.below(OBJECTS);
        let line = format!(in alloc; "0 set v{of}.r[{slot}] v{to}\n").ok()?;
        script.push_str(line.as_str()).ok()?;
        let was = told(alloc, graph.cell(of, slot))?;
        let line = format!(in alloc; "0 was {was}\n").ok()?;
        text.push_str(line.as_str()).ok()?;
        graph.set(of, slot, to.saturating_add(1));
    }
    for count in 0..roots {
        let _ = count;
        let of = numbers.below(OBJECTS);
        let line = format!(in alloc; "0 root v{of} on\n").ok()?;
        script.push_str(line.as_str()).ok()?;
        text.push_str(if has(graph.rooted.as_slice(), of) {
            "0 was on\n"
        } else {
            "0 was off\n"
        })
        .ok()?;
        mark(graph.rooted.as_mut_slice(), of);
    }
    graph.reach();
    let mut removed = 0u32;
    let mut names = String::new(alloc);
    for of in 0..OBJECTS {
        if !has(graph.reached.as_slice(), of) {
            removed = removed.saturating_add(1);
            let made = of + 1;
            let name = format!(in alloc; " 0:{made}").ok()?;
            names.push_str(name.as_str()).ok()?;
        }
    }
    script.push_str("0 close\ngc full\ngc full\n").ok()?;
    let colon = if removed == 0 { "" } else { ":" };
    let line = format!(in alloc;
        "0 close\ngc full removed {removed} left 0{colon}{names}\ngc full removed 0 left 0\n"
    ).ok()?;
    text.push_str(line.as_str()).ok()?;
    let lines = (stores as u64)
        .saturating_add(roots as u64)
        .saturating_add(made)
        .saturating_add(4);
    Some(
        removed > 0
            && removed < OBJECTS
            && writes(rt, alloc, script.as_str(), text.as_str(), lines),
    )
}

#[test]
fn random_webs_of_objects(rt: HostRuntime) {
    for seed in 0..6u64 {
        assert!(rt; random_web(&rt, rt.alloc(), 1, seed, 300, 4) == Some(true));
        assert!(rt; random_web(&rt, rt.alloc(), 1, seed + 6, 420, 3) == Some(true));
        assert!(rt; random_web(&rt, rt.alloc(), 1, seed + 12, 150, 30) == Some(true));
    }
}

#[test]
fn random_webs_of_clusters(rt: HostRuntime) {
    for seed in 0..6u64 {
        assert!(rt; random_web(&rt, rt.alloc(), 2, seed, 160, 4) == Some(true));
        assert!(rt; random_web(&rt, rt.alloc(), 3, seed + 6, 100, 4) == Some(true));
        assert!(rt; random_web(&rt, rt.alloc(), 8, seed + 12, 36, 3) == Some(true));
    }
}
