//! The commands of a lane. This file and `specs/LaneCommands` say all that is said of one command: which word it has, what
//! words follow, what it wants of the lane's frame, and which command of a script it is. The other files go by forms and
//! frames, and know no command.
ghost use Rattle.std.specs.Prelude.{◌≡◌};
ghost use Rattle.level_script.specs.LaneCommands.{verb_of, pointer_verb_of, tail_of, frame_of, command_of, pointer_command_of};

use crate::operand::{Form, Frame, Known, Tail};
use crate::script::Spot;
use world_model::{ClassId, Sequence};

/// A member of a cluster.
#[derive(Clone, Copy, Debug, PartialEq, Eq)]
pub struct Member {
    /// The variable that stands for it.
    pub var: u32,
    pub class: ClassId,
}

/// The members of a cluster, in order.
pub type Members = Sequence<Member>;

/// What a lane does. Variables are numbers of the lane's object variables, from 0 in the order in
/// which the lane's lines mention them first. Weak variables are those of the whole script, numbered
/// from 0 in the order in which lines bind them first.
#[derive(Clone, Debug, Drop, PartialEq, Eq)]
pub enum LaneCmd {
    /// The lane opens its frame.
    Open,
    /// The lane closes its frame, and its variables end.
    Close,
    /// The lane makes an object of a class, for which the variable then stands.
    New { var: u32, class: ClassId },
    /// The lane makes a cluster of 1 to 1,024 objects, for each of which its member's variable then
    /// stands. No two members have one variable.
    Cluster { members: Members },
    /// The object of the variable becomes a root, or is one no longer.
    Root { var: u32, on: bool },
    /// A reference to the object of a variable, or to none, is stored in an element.
    Set { spot: Spot, to: Option<u32> },
    /// The variable stands for what an element refers to.
    Get { var: u32, spot: Spot },
    /// A number is stored in an element.
    Put { spot: Spot, value: u64 },
    /// The number in an element is told.
    Take { spot: Spot },
    /// The object of the variable is told, with its class.
    Print { var: u32 },
    /// The pair of a weak variable, or the empty one, is stored in an element.
    Store { spot: Spot, weak: Option<u32> },
    /// The weak variable stands for the pair in an element.
    Load { weak: u32, spot: Spot },
    /// The strong pointer with this number gets the object of a variable, or none.
    Hold { h: u32, to: Option<u32> },
    /// The variable stands for what the strong pointer names.
    Held { var: u32, h: u32 },
    /// The weak variable stands for the pair of the variable's object.
    Weak { weak: u32, var: u32 },
    /// The variable stands for the object that the weak variable gives.
    Resolve { var: u32, weak: u32 },
    /// The weak variable stands for a pair of this index, which no object ever has.
    Forge { weak: u32, index: u32 },
    /// Two pairs are compared.
    Same { left: u32, right: u32 },
}

/// Which command a line of a lane has.
#[derive(Clone, Copy)]
pub enum Verb {
    Open,
    Close,
    New,
    Cluster,
    Root,
    Set,
    Get,
    Put,
    Take,
    Print,
    Store,
    Load,
    Hold,
    Held,
    Weak,
    Resolve,
    Forge,
    Same,
}

/// The command with this word.
pub fn verb_of(word: &[u8]) -> Option<Verb>
    ensures { result ≡ verb_of word.now }
{
    if word == b"open".as_slice() {
        Some(Verb::Open)
    } else if word == b"close".as_slice() {
        Some(Verb::Close)
    } else if word == b"new".as_slice() {
        Some(Verb::New)
    } else if word == b"cluster".as_slice() {
        Some(Verb::Cluster)
    } else if word == b"root".as_slice() {
        Some(Verb::Root)
    } else if word == b"set".as_slice() {
        Some(Verb::Set)
    } else if word == b"get".as_slice() {
        Some(Verb::Get)
    } else if word == b"put".as_slice() {
        Some(Verb::Put)
    } else if word == b"take".as_slice() {
        Some(Verb::Take)
    } else if word == b"print".as_slice() {
        Some(Verb::Print)
    } else {
        pointer_verb_of(word)
    }
}

/// The same of the commands of strong and weak pointers.
fn pointer_verb_of(word: &[u8]) -> Option<Verb>
    ensures { result ≡ pointer_verb_of word.now }
{
    if word == b"store".as_slice() {
        Some(Verb::Store)
    } else if word == b"load".as_slice() {
        Some(Verb::Load)
    } else if word == b"hold".as_slice() {
        Some(Verb::Hold)
    } else if word == b"held".as_slice() {
        Some(Verb::Held)
    } else if word == b"weak".as_slice() {
        Some(Verb::Weak)
    } else if word == b"resolve".as_slice() {
        Some(Verb::Resolve)
    } else if word == b"forge".as_slice() {
        Some(Verb::Forge)
    } else if word == b"same".as_slice() {
        Some(Verb::Same)
    } else {
        None
    }
}

/// What words follow the command's.
pub fn tail_of(verb: Verb) -> Tail
    ensures { result ≡ tail_of verb }
{
    match verb {
        Verb::Open => Tail::Alone,
        Verb::Close => Tail::Alone,
        Verb::New => Tail::Binds(Form::Class),
        Verb::Cluster => Tail::Members,
        Verb::Root => Tail::Two(Form::Var, Form::Switch),
        Verb::Set => Tail::Two(Form::Spot, Form::Target),
        Verb::Get => Tail::Binds(Form::Spot),
        Verb::Put => Tail::Two(Form::Spot, Form::Value),
        Verb::Take => Tail::One(Form::Spot),
        Verb::Print => Tail::One(Form::Var),
        Verb::Store => Tail::Two(Form::Spot, Form::WeakTarget),
        Verb::Load => Tail::BindsWeak(Form::Spot),
        Verb::Hold => Tail::Two(Form::Strong, Form::Target),
        Verb::Held => Tail::Binds(Form::Strong),
        Verb::Weak => Tail::BindsWeak(Form::Var),
        Verb::Resolve => Tail::Binds(Form::Weak),
        Verb::Forge => Tail::BindsWeak(Form::Index),
        Verb::Same => Tail::Two(Form::Weak, Form::Weak),
    }
}

/// What the command wants of the lane's frame, and does to it.
pub fn frame_of(verb: Verb) -> Frame
    ensures { result ≡ frame_of verb }
{
    match verb {
        Verb::Open => Frame::Opens,
        Verb::Close => Frame::Closes,
        Verb::Forge => Frame::Anywhere,
        Verb::Same => Frame::Anywhere,
        _ => Frame::Inside,
    }
}

/// The command of a script, where its words stand for these things: the variable that it binds, and what the words
/// behind that name.
pub fn command_of(verb: Verb, binds: Known, first: Known, second: Known) -> Option<LaneCmd>
    ensures { result ≡ command_of verb binds first second }
{
    match verb {
        Verb::Open => Some(LaneCmd::Open),
        Verb::Close => Some(LaneCmd::Close),
        Verb::New => {
            let var = binds.var()?;
            let class = first.class()?;
            Some(LaneCmd::New { var, class })
        }
        Verb::Cluster => {
            let members = binds.members()?;
            Some(LaneCmd::Cluster { members })
        }
        Verb::Root => {
            let var = first.var()?;
            let on = second.switch()?;
            Some(LaneCmd::Root { var, on })
        }
        Verb::Set => {
            let spot = first.spot()?;
            let to = second.target()?;
            Some(LaneCmd::Set { spot, to })
        }
        Verb::Get => {
            let var = binds.var()?;
            let spot = first.spot()?;
            Some(LaneCmd::Get { var, spot })
        }
        Verb::Put => {
            let spot = first.spot()?;
            let value = second.value()?;
            Some(LaneCmd::Put { spot, value })
        }
        Verb::Take => {
            let spot = first.spot()?;
            Some(LaneCmd::Take { spot })
        }
        Verb::Print => {
            let var = first.var()?;
            Some(LaneCmd::Print { var })
        }
        _ => pointer_command_of(verb, binds, first, second),
    }
}

/// The same of the commands of strong and weak pointers.
fn pointer_command_of(verb: Verb, binds: Known, first: Known, second: Known) -> Option<LaneCmd>
    ensures { result ≡ pointer_command_of verb binds first second }
{
    match verb {
        Verb::Store => {
            let spot = first.spot()?;
            let weak = second.weak_target()?;
            Some(LaneCmd::Store { spot, weak })
        }
        Verb::Load => {
            let weak = binds.weak()?;
            let spot = first.spot()?;
            Some(LaneCmd::Load { weak, spot })
        }
        Verb::Hold => {
            let h = first.strong()?;
            let to = second.target()?;
            Some(LaneCmd::Hold { h, to })
        }
        Verb::Held => {
            let var = binds.var()?;
            let h = first.strong()?;
            Some(LaneCmd::Held { var, h })
        }
        Verb::Weak => {
            let weak = binds.weak()?;
            let var = first.var()?;
            Some(LaneCmd::Weak { weak, var })
        }
        Verb::Resolve => {
            let var = binds.var()?;
            let weak = first.weak()?;
            Some(LaneCmd::Resolve { var, weak })
        }
        Verb::Forge => {
            let weak = binds.weak()?;
            let index = first.index()?;
            Some(LaneCmd::Forge { weak, index })
        }
        Verb::Same => {
            let left = first.weak()?;
            let right = second.weak()?;
            Some(LaneCmd::Same { left, right })
        }
        _ => None,
    }
}
