//! The words behind the word of a lane's command: their forms, what they say, and what that stands for.
ghost use Rattle.std.specs.Prelude.{◌≡◌};
ghost use Rattle.level_script.specs.Operands.{allows, switch_of, target_of, digits_of, operand_of, below, element_in, is_in_range, var_known, target_known, class_known, spot_known, switch_known, value_known, strong_known, index_known, weak_known, weak_target_known, members_known};

use crate::forms::{Identifier, Number, is_digits, read_identifier, read_number, read_variable};
use crate::lane_cmd::Members;
use crate::members::MemberWords;
use crate::script::Spot;
use crate::spot::read_spot;
use world_model::ClassId;

/// What a command wants of its lane's frame, and does to it.
#[derive(Clone, Copy)]
pub enum Frame {
    /// The frame is closed, and opens.
    Opens,
    /// The frame is open, and closes; the lane's variables end.
    Closes,
    /// The frame is open, and stays so.
    Inside,
    /// The frame may be open or not, and stays so.
    Anywhere,
}

impl Frame {
    /// Whether the command may stand here.
    pub fn allows(self, opened: bool) -> bool
        ensures { result ≡ allows self opened }
    {
        match self {
            Frame::Opens => !opened,
            Frame::Closes => opened,
            Frame::Inside => opened,
            Frame::Anywhere => true,
        }
    }
}

/// The form of a word.
#[derive(Clone, Copy)]
pub enum Form {
    /// A variable that is bound.
    Var,
    /// A variable that is bound, or `none`.
    Target,
    /// A class.
    Class,
    /// An element of a field of a variable's object.
    Spot,
    /// `on` or `off`.
    Switch,
    /// A number below 2^64.
    Value,
    /// The number of a strong pointer.
    Strong,
    /// A number below 2^32.
    Index,
    /// A weak variable that is bound.
    Weak,
    /// A weak variable that is bound, or `none`.
    WeakTarget,
}

/// The words behind the word of a command.
#[derive(Clone, Copy)]
pub enum Tail {
    /// None.
    Alone,
    One(Form),
    Two(Form, Form),
    /// A variable that the line binds, and another word.
    Binds(Form),
    /// A weak variable that the line binds, and another word.
    BindsWeak(Form),
    /// Members of a cluster, whose variables the line binds.
    Members,
}

/// The variables that a line binds.
#[derive(Drop)]
pub enum Binds<'a> {
    Nothing,
    Var(Identifier<'a>),
    Weak(Identifier<'a>),
    Members(MemberWords<'a>),
}

/// An element of a field of an object.
#[derive(Drop)]
pub struct Place<'a> {
    pub var: Identifier<'a>,
    pub field: Identifier<'a>,
    pub element: Number,
}

/// What a word says.
#[derive(Drop)]
pub enum Operand<'a> {
    /// There is no word.
    Nothing,
    Var(Identifier<'a>),
    Target(Option<Identifier<'a>>),
    Class(Identifier<'a>),
    Spot(Place<'a>),
    Switch(bool),
    Value(Number),
    Strong(Number),
    Index(Number),
    Weak(Identifier<'a>),
    WeakTarget(Option<Identifier<'a>>),
}

/// What a word stands for.
#[derive(Drop)]
pub enum Known {
    Nothing,
    Var(u32),
    Target(Option<u32>),
    Class(ClassId),
    Spot(Spot),
    Switch(bool),
    Value(u64),
    Strong(u32),
    Index(u32),
    Weak(u32),
    WeakTarget(Option<u32>),
    /// The members of a cluster, whose words are those behind the command's.
    Members(Members),
}

impl Known {
    /// The number of the variable, if it is one.
    pub fn var(self) -> Option<u32>
        ensures { result ≡ var_known self }
    {
        match self {
            Known::Var(var) => Some(var),
            _ => None,
        }
    }

    /// The number of the variable or none, if it is one of these.
    pub fn target(self) -> Option<Option<u32>>
        ensures { result ≡ target_known self }
    {
        match self {
            Known::Target(to) => Some(to),
            _ => None,
        }
    }

    /// The class, if it is one.
    pub fn class(self) -> Option<ClassId>
        ensures { result ≡ class_known self }
    {
        match self {
            Known::Class(class) => Some(class),
            _ => None,
        }
    }

    /// The element, if it is one.
    pub fn spot(self) -> Option<Spot>
        ensures { result ≡ spot_known self }
    {
        match self {
            Known::Spot(spot) => Some(spot),
            _ => None,
        }
    }

    /// True for `on`, false for `off`, if it is one of these.
    pub fn switch(self) -> Option<bool>
        ensures { result ≡ switch_known self }
    {
        match self {
            Known::Switch(on) => Some(on),
            _ => None,
        }
    }

    /// The number, if it is one.
    pub fn value(self) -> Option<u64>
        ensures { result ≡ value_known self }
    {
        match self {
            Known::Value(value) => Some(value),
            _ => None,
        }
    }

    /// The number of the strong pointer, if it is one.
    pub fn strong(self) -> Option<u32>
        ensures { result ≡ strong_known self }
    {
        match self {
            Known::Strong(h) => Some(h),
            _ => None,
        }
    }

    /// The index, if it is one.
    pub fn index(self) -> Option<u32>
        ensures { result ≡ index_known self }
    {
        match self {
            Known::Index(index) => Some(index),
            _ => None,
        }
    }

    /// The number of the weak variable, if it is one.
    pub fn weak(self) -> Option<u32>
        ensures { result ≡ weak_known self }
    {
        match self {
            Known::Weak(weak) => Some(weak),
            _ => None,
        }
    }

    /// The number of the weak variable or none, if it is one of these.
    pub fn weak_target(self) -> Option<Option<u32>>
        ensures { result ≡ weak_target_known self }
    {
        match self {
            Known::WeakTarget(to) => Some(to),
            _ => None,
        }
    }

    /// The members of a cluster, if it is these.
    pub fn members(self) -> Option<Members>
        ensures { result ≡ members_known self }
    {
        match self {
            Known::Members(members) => Some(members),
            _ => None,
        }
    }
}

/// True for `on`, false for `off`.
fn read_switch(word: &[u8]) -> Option<bool>
    ensures { result ≡ switch_of word.now }
{
    if word == b"on".as_slice() {
        Some(true)
    } else if word == b"off".as_slice() {
        Some(false)
    } else {
        None
    }
}

/// The variable whose value is stored, or none.
fn read_target<'a>(word: &'a [u8]) -> Option<Option<Identifier<'a>>>
    ensures { result ≡ target_of word.now }
{
    if word == b"none".as_slice() {
        Some(None)
    } else {
        Some(Some(read_identifier(word)?))
    }
}

/// The number that a word of digits says.
fn read_digits(word: &[u8]) -> Option<Number>
    ensures { result ≡ digits_of word.now }
{
    if is_digits(word) {
        Some(read_number(word))
    } else {
        None
    }
}

/// What a word of this form says.
pub fn read_operand<'a>(form: Form, word: &'a [u8]) -> Option<Operand<'a>>
    ensures { result ≡ operand_of form word.now }
{
    match form {
        Form::Var => Some(Operand::Var(read_variable(word)?)),
        Form::Target => Some(Operand::Target(read_target(word)?)),
        Form::Class => Some(Operand::Class(read_identifier(word)?)),
        Form::Spot => Some(Operand::Spot(read_spot(word)?)),
        Form::Switch => Some(Operand::Switch(read_switch(word)?)),
        Form::Value => Some(Operand::Value(read_digits(word)?)),
        Form::Strong => Some(Operand::Strong(read_digits(word)?)),
        Form::Index => Some(Operand::Index(read_digits(word)?)),
        Form::Weak => Some(Operand::Weak(read_variable(word)?)),
        Form::WeakTarget => Some(Operand::WeakTarget(read_target(word)?)),
    }
}

/// A number below this one.
pub fn below(number: &Number, most: u32) -> Option<u32>
    ensures { result ≡ below most number.now }
{
    match number.get() {
        Some(value) if value < most as u64 => Some(value as u32),
        _ => None,
    }
}

/// The number of an element, or of an index, below 2^32.
pub fn element_in(number: &Number) -> Option<u32>
    ensures { result ≡ element_in number.now }
{
    match number.get() {
        Some(value) if value < 4294967296 => Some(value as u32),
        _ => None,
    }
}

impl<'a> Operand<'a> {
    /// Whether the number that the word says, if any, is in its range, where a lane has so many
    /// strong pointers.
    pub fn is_in_range(&self, strong: u32) -> bool
        ensures { result ≡ is_in_range strong self.now }
    {
        match self {
            Operand::Spot(place) => element_in(&place.element).is_some(),
            Operand::Value(number) => number.get().is_some(),
            Operand::Strong(number) => below(number, strong).is_some(),
            Operand::Index(number) => element_in(number).is_some(),
            _ => true,
        }
    }
}
