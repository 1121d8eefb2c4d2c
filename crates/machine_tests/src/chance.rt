//! Events by chance on a small machine. After each of them nothing that is reached is doomed, by a walk of the test's own.
ghost use Rattle.std.specs.Prelude.{◌<◌};

use mark_core::{Core, Event};
use world_model::Phase;

const UNITS: u32 = 4;

// A generator of numbers.
#[derive(Clone, Copy)]
struct Chance {
    state: u64,
}

impl Chance {
    // A number below n.
    fn draw(&mut self, n: u32) -> u32
        requires { 0 < n }
    {
        self.state = self
            .state
            .wrapping_mul(6364136223846793005)
            .wrapping_add(1442695040888963407);
        ((self.state >> 33) % n as u64) as u32
    }

    // Lanes act seldom, so that now and then a unit is white at the end of a marking.
    fn actor(&mut self) -> u32 {
        match self.draw(24) {
            0 => 0,
            1 => 1,
            n => {
                if n < 8 {
                    2
                } else if n < 14 {
                    3
                } else {
                    4
                }
            }
        }
    }

    fn event(&mut self) -> Event {
        let unit = self.draw(UNITS);
        let cell = self.draw(10);
        let row = self.draw(3);
        match self.draw(18) {
            0 => Event::FrameOpen,
            1 => Event::FrameClose,
            2 => Event::BeginExchange,
            3 => Event::Shade { unit },
            4 => Event::SwapCell {
                cell,
                to: Some(unit),
            },
            5 => Event::SwapCell { cell, to: None },
            6 => Event::LoadCell { cell },
            7 => Event::AddRow { row, unit },
            8 => Event::TakeRow { row, word: 0 },
            9 => Event::SetDirty,
            10 => Event::ClearDirty,
            11 => Event::LoadRow { row, word: 0 },
            12 => Event::CommitExchange,
            13 => Event::LoadHead { unit },
            14 => Event::DoomHead { unit },
            15 => Event::Settle,
            16 => Event::RootBit { unit, on: None },
            _ => Event::RootBit {
                unit,
                on: Some(row == 0),
            },
        }
    }
}

fn reach(reached: &mut [bool; 4], target: Option<u32>) {
    if let Some(u) = target {
        if (u as usize) < reached.len() {
            reached[u as usize] = true;
        }
    }
}

// The units that a walk from a root bit or strong pointer reaches: cells 0 to 7 are those of the units, two each, and
// cells 8 and 9 the strong pointers.
fn reached(core: &Core) -> [bool; 4] {
    let mut reached = [false; 4];
    for u in 0..4u32 {
        if u < core.shape().units && core.is_root(u) {
            reach(&mut reached, Some(u));
        }
    }
    for n in 8..10u32 {
        reach(&mut reached, core.target(n));
    }
    for _ in 0..4 {
        for n in 0..8u32 {
            if reached[n as usize / 2] {
                reach(&mut reached, core.target(n));
            }
        }
    }
    reached
}

fn nothing_reached_is_doomed(core: &Core) -> bool {
    let reached = reached(core);
    for u in 0..4u32 {
        if reached[u as usize] && core.is_doomed(u) {
            return false;
        }
    }
    true
}

fn doomed(core: &Core) -> u32 {
    let mut n: u32 = 0;
    for u in 0..4u32 {
        if core.is_doomed(u) {
            n = n.saturating_add(1);
        }
    }
    n
}

// How many collections ended, or none where something reached was doomed.
fn play(core: &mut Core, chance: &mut Chance, tries: u32) -> Option<u32> {
    let mut ended: u32 = 0;
    for _ in 0..tries {
        let actor = chance.actor();
        let event = chance.event();
        let before = core.phase();
        if core.allows(actor, event) {
            core.step(actor, event);
            if !nothing_reached_is_doomed(core) {
                return None;
            }
            if before == Phase::Gathering && core.phase() == Phase::Idle {
                ended = ended.saturating_add(1);
            }
        }
    }
    Some(ended)
}

#[test]
fn nothing_reached_is_doomed_by_chance(rt: HostRuntime) {
    let mut ended: u32 = 0;
    let mut dead: u32 = 0;
    for seed in 0..16u64 {
        let mut core = Core::new(rt.alloc(), 2, 2, 4, 2).expect(&rt, "memory");
        let mut chance = Chance { state: seed };
        let collections = play(&mut core, &mut chance, 30000);
        assert!(rt; collections.is_some());
        ended = ended.saturating_add(collections.unwrap_or(0));
        dead = dead.saturating_add(doomed(&core));
    }
    // Chance went far enough to end collections, and to doom units.
    assert!(rt; ended >= 8);
    assert!(rt; dead >= 2);
}
