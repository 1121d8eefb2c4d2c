//! The variables of a script.
ghost use Rattle.std.specs.Prelude.{◌≡◌, ◌<◌, ℕ, length, replicate, IfOk, IfSome, None, option_and_then, slice_set};
ghost use Rattle.world_play.specs.Pairs.{no_pair};
ghost use Rattle.world_play.specs.Slots.{slot_of, AreDated};

use std::alloc::{AllocError, Global};
use world_model::{Ref, Weak};

/// The object that a variable was bound to, and in which of its lane's frames.
#[derive(Clone, Copy)]
struct Bound {
    frame: u64,
    at: Ref,
}

/// The variables of one lane by number. One that was bound in an earlier frame of the lane stands
/// for nothing, so a frame ends them all at once.
#[derive(Drop)]
struct LaneVariables {
    frame: u64,
    slots: Vec<Option<Bound>>,
    ghost dated: { AreDated frame slots.items },
}

/// Empties all slots.
fn clear(slots: &mut [Option<Bound>])
    ensures { slots.new ≡ replicate (length slots.old) None }
{
    for at in 0..slots.len() {
        slots[at] = None;
    }
}

impl LaneVariables {
    ghost use Rattle.world_play.specs.Variables.{lane_ref};

    // So many variables, of which none stands for an object.
    fn new(alloc: Global, count: u32) -> Result<LaneVariables, AllocError>
        ensures slots { IfOk result (λ lane. lane.slots.items ≡ replicate count None) }
    {
        let slots = vec![in alloc; None; count as usize]?;
        Ok(LaneVariables { frame: 0, slots })
    }

    // Lets a variable stand for an object, or for none.
    fn bind(&mut self, var: u32, to: Option<Ref>)
        requires { var < length self.old.slots.items }
        ensures frame { self.new.frame ≡ self.old.frame }
        ensures slots { self.new.slots.items ≡ slice_set self.old.slots.items var (slot_of self.old.frame to) }
    {
        let frame = self.frame;
        self.slots[var as usize] = match to {
            Some(at) => Some(Bound { frame, at }),
            None => None,
        };
    }

    // Ends all variables. Where the frames are at the end of their range, they start anew.
    fn end(&mut self)
        ensures none { (var : ℕ) → lane_ref self.new var ≡ None }
        ensures count { length self.new.slots.items ≡ length self.old.slots.items }
    {
        if self.frame == u64::MAX {
            clear(self.slots.as_mut_slice());
            self.frame = 0;
        } else {
            self.frame += 1;
        }
    }

    // The object that a variable stands for.
    fn get(&self, var: u32) -> Option<Ref>
        requires { var < length self.now.slots.items }
        ensures { result ≡ lane_ref self.now var }
    {
        let Some(bound) = self.slots[var as usize] else {
            return None;
        };
        if bound.frame == self.frame {
            Some(bound.at)
        } else {
            None
        }
    }
}

/// The empty pair.
pub(crate) const NO_PAIR: Weak = Weak {
    index: 0,
    serial: 0,
};

/// So many empty pairs.
fn empty_pairs(alloc: Global, count: u32) -> Result<Vec<Weak>, AllocError>
    ensures { IfOk result (λ weaks. weaks.items ≡ replicate count no_pair) }
{
    let weaks = vec![in alloc; NO_PAIR; count as usize]?;
    Ok(weaks)
}

/// The variables of all lanes, and the weak variables of the script.
#[derive(Drop)]
pub(crate) struct Variables {
    lanes: Vec<LaneVariables>,
    weaks: Vec<Weak>,
}

impl Variables {
    ghost use Rattle.world_play.specs.Pairs.{stored};
    ghost use Rattle.world_play.specs.Variables.{standing, unbound, with_ref, with_weak, without_refs, HasVariable, HasWeak};

    /// So many variables of each lane, of which none stands for an object, and so many weak
    /// variables, of which each has the empty pair.
    pub(crate) fn new(alloc: Global, counts: &[u32], weaks: u32) -> Result<Variables, AllocError>
        ensures { IfOk result (λ variables. standing variables ≡ unbound counts.now weaks) }
    {
        let mut lanes = Vec::new(alloc);
        for count in counts {
            lanes.push(LaneVariables::new(alloc, *count)?)?;
        }
        let weaks = empty_pairs(alloc, weaks)?;
        Ok(Variables { lanes, weaks })
    }

    /// The object that a variable of a lane stands for.
    pub(crate) fn get(&self, lane: u32, var: u32) -> Option<Ref>
        requires { HasVariable (standing self.now) lane var }
        ensures { result ≡ (standing self.now).refs lane var }
    {
        self.lanes[lane as usize].get(var)
    }

    /// Lets a variable of a lane stand for an object, or for none.
    pub(crate) fn bind(&mut self, lane: u32, var: u32, to: Option<Ref>)
        requires { HasVariable (standing self.old) lane var }
        ensures { standing self.new ≡ with_ref (standing self.old) lane var to }
    {
        self.lanes[lane as usize].bind(var, to);
    }

    /// The pair that a weak variable has.
    pub(crate) fn weak(&self, weak: u32) -> Weak
        requires { HasWeak (standing self.now) weak }
        ensures { result ≡ (standing self.now).weaks weak }
    {
        self.weaks[weak as usize]
    }

    /// Gives a weak variable a pair.
    pub(crate) fn bind_weak(&mut self, weak: u32, pair: Weak)
        requires { HasWeak (standing self.old) weak }
        ensures { standing self.new ≡ with_weak (standing self.old) weak pair }
    {
        self.weaks[weak as usize] = pair;
    }

    /// The pair of `store`: that of a weak variable, or the empty one.
    pub(crate) fn stored(&self, weak: Option<u32>) -> Weak
        requires { IfSome weak (HasWeak (standing self.now)) }
        ensures { result ≡ stored no_pair (standing self.now).weaks weak }
    {
        match weak {
            Some(weak) => self.weak(weak),
            None => NO_PAIR,
        }
    }

    /// The object of the value of `set` and `hold`: that of a variable, or none.
    pub(crate) fn value(&self, lane: u32, to: Option<u32>) -> Option<Ref>
        requires { IfSome to (HasVariable (standing self.now) lane) }
        ensures { result ≡ option_and_then ((standing self.now).refs lane) to }
    {
        match to {
            Some(var) => self.get(lane, var),
            None => None,
        }
    }

    /// Ends all variables of a lane, as its frame ends.
    pub(crate) fn end(&mut self, lane: u32)
        requires { lane < length (standing self.old).counts.lanes }
        ensures { standing self.new ≡ without_refs (standing self.old) lane }
    {
        self.lanes[lane as usize].end();
    }
}
