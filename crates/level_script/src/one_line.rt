//! Lines, which are read and done at once, one level of the grammar a function.
ghost use Rattle.std.specs.Prelude.{◌≡◌, IsTrue};
ghost use Rattle.std.specs.Str.{IsAscii};
ghost use Rattle.level_script.specs.Lines.{line_words};
ghost use Rattle.level_script.specs.Commands.{lane_command, of_lane, lane_line, class_line, field_line, collector_line, said_by_words};
ghost use Rattle.level_script.specs.Context.{if_said, after_line, Takes};

use crate::cause::{Cause, Stop};
use crate::command::{class_line, collector_line, field_line, read_does};
use crate::context::Context;
use crate::forms::{Number, is_comment, is_digits, read_number};
use crate::lane_cmd::verb_of;
use crate::lines::first_word;
use crate::said::Said;

impl Context {
    /// A line of a lane, from the word of its command on.
    fn command(&mut self, number: u32, lane: &Number, word: &[u8], rest: &[u8]) -> Result<(), Stop>
        ensures { Takes (if_said number self.old (of_lane lane.now (lane_command word.now (line_words rest.now)))) self.new result }
    {
        let Some(verb) = verb_of(word) else {
            return Err(Stop::Faulty(Cause::UnknownCommand));
        };
        let Some(does) = read_does(verb, rest) else {
            return Err(Stop::Faulty(Cause::Words));
        };
        self.lane_line(number, lane, &does)
    }

    /// A line of a lane, behind the lane's number.
    fn of_lane(&mut self, number: u32, lane: &Number, rest: &[u8]) -> Result<(), Stop>
        ensures { Takes (if_said number self.old (lane_line lane.now (line_words rest.now))) self.new result }
    {
        let Some((word, rest)) = first_word(rest) else {
            return Err(Stop::Faulty(Cause::UnknownCommand));
        };
        self.command(number, lane, word, rest)
    }

    /// Takes what was read of a line.
    fn take(&mut self, number: u32, said: &Result<Said<'_>, Cause>) -> Result<(), Stop>
        ensures { Takes (if_said number self.old said.now) self.new result }
    {
        match said {
            Ok(said) => self.act(number, said),
            Err(cause) => Err(Stop::Faulty(*cause)),
        }
    }

    /// A line that begins with `class`.
    fn of_class(&mut self, number: u32, rest: &[u8]) -> Result<(), Stop>
        ensures { Takes (if_said number self.old (class_line self.old.in_header (line_words rest.now))) self.new result }
    {
        let in_header = self.is_in_header();
        self.take(number, &class_line(in_header, rest))
    }

    /// A line that begins with `field`.
    fn of_field(&mut self, number: u32, rest: &[u8]) -> Result<(), Stop>
        ensures { Takes (if_said number self.old (field_line self.old.in_header (line_words rest.now))) self.new result }
    {
        let in_header = self.is_in_header();
        self.take(number, &field_line(in_header, rest))
    }

    /// A line that begins with `gc`.
    fn of_collector(&mut self, number: u32, rest: &[u8]) -> Result<(), Stop>
        ensures { Takes (if_said number self.old (collector_line (line_words rest.now))) self.new result }
    {
        self.take(number, &collector_line(rest))
    }

    /// Each kind of line has a function of its own, which pays for its locals alone.
    fn take_text(&mut self, number: u32, line: &[u8]) -> Result<(), Stop>
        ensures { Takes (if_said number self.old (said_by_words self.old.in_header (line_words line.now))) self.new result }
    {
        let Some((word, rest)) = first_word(line) else {
            return Ok(());
        };
        if is_comment(word) {
            Ok(())
        } else if word == b"class".as_slice() {
            self.of_class(number, rest)
        } else if word == b"field".as_slice() {
            self.of_field(number, rest)
        } else if word == b"gc".as_slice() {
            self.of_collector(number, rest)
        } else if is_digits(word) {
            self.of_lane(number, &read_number(word), rest)
        } else {
            Err(Stop::Faulty(Cause::UnknownCommand))
        }
    }

    /// Takes the line with this number, which may be known to be ASCII. After an error nothing is
    /// said of the context.
    pub fn read(&mut self, number: u32, line: &[u8], is_ascii: bool) -> Result<(), Stop>
        requires { IsTrue is_ascii → IsAscii line.now }
        ensures { Takes (after_line number self.old line.now) self.new result }
    {
        if is_ascii {
            return self.take_text(number, line);
        }
        match str::from_utf8(line) {
            Ok(_) => self.take_text(number, line),
            Err(_) => Err(Stop::Faulty(Cause::Utf8)),
        }
    }
}
