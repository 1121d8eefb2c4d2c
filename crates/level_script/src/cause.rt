//! Why an input is no script.

use class_schema::SchemaErr;

/// What is wrong with a line. Of several causes the first in this order is given.
#[derive(Clone, Copy, Debug, PartialEq, Eq)]
pub enum Cause {
    /// The input has more than 16,777,216 bytes, which is told of line 0 and before all others; or
    /// this is line 200,001.
    TooLong,
    /// The bytes of the line are no UTF-8.
    Utf8,
    /// The words are those of no command, or of a command of the header after the header.
    UnknownCommand,
    /// The command has other words, in number or in form.
    Words,
    /// A number is out of its range.
    Number,
    /// The lane's frame is open where it must be closed, or closed where it must be open.
    Frame,
    /// A name stands for nothing here.
    UnknownName,
    /// A line binds one variable twice.
    NameTwice,
    /// A line does not fit a parallel block.
    ParShape,
    /// The table of classes refuses the line.
    Schema(SchemaErr),
}

/// The first faulty line of an input, and its first cause.
#[derive(Clone, Copy, Debug, PartialEq, Eq)]
pub struct ScriptErr {
    /// The number of the line, from 1, or 0 for the input as a whole.
    pub line: u32,
    pub cause: Cause,
}

/// Why there is no script.
#[derive(Clone, Copy, Debug, PartialEq, Eq)]
pub enum ParseErr {
    /// The input is no script.
    Bad(ScriptErr),
    /// There was no memory for the script.
    Memory,
}

/// Why a line was not taken.
#[derive(Clone, Copy, Debug, PartialEq, Eq)]
pub enum Stop {
    /// The line is faulty.
    Faulty(Cause),
    /// There was no memory.
    Memory,
}
