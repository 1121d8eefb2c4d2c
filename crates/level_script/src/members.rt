//! The members of a cluster, as a line writes them and as a script has them.
ghost use Rattle.std.specs.Prelude.{◌≡◌, ◌==◌, ◌∷◌, [], not, IfOk, MatchOption};
ghost use Rattle.level_script.specs.Forms.{member_of};
ghost use Rattle.level_script.specs.Lines.{line_words};
ghost use Rattle.level_script.specs.Members.{members_of};
ghost use Rattle.level_script.specs.Names.{all_differ};
ghost use Rattle.level_script.specs.Operands.{vars_of};
ghost use Rattle.level_script.specs.Lanes.{with_vars, members_found, or_unknown, members_bound, are_apart, with_command, Steps};

use crate::cause::{Cause, Stop};
use crate::forms::{Identifier, front_variable, read_identifier, split_front};
use crate::lane_cmd::{Member, Members};
use crate::lanes::LaneNames;
use crate::lines::first_word;
use crate::names::NumberSet;
use crate::operand::Known;
use class_schema::ClassTable;
use std::alloc::{AllocError, Global};
use std::marker::Model;

/// The most members of a cluster.
const MOST: u32 = 1024;

/// The variable and the class of a member, `V:CLASS`.
fn read_member<'a>(word: &'a [u8]) -> Option<(Identifier<'a>, Identifier<'a>)>
    ensures { result ≡ member_of word.now }
{
    let (var, behind) = split_front(word);
    let var = front_variable(var)?;
    let (colon, class) = behind.split_first()?;
    if *colon != b':' {
        return None;
    }
    let class = read_identifier(class)?;
    Some((var, class))
}

/// The words of members. Contracts see them as the members, each a variable and a class.
#[derive(Drop)]
pub struct MemberWords<'a> {
    text: &'a [u8],
}

impl<'a> Model for MemberWords<'a> {
    ghost use Rattle.std.specs.Prelude.{ℕ, List, ◌≡◌, true};
    ghost use Rattle.level_script.specs.Lines.{line_words};
    ghost use Rattle.level_script.specs.Members.{each_member, are_members, or_nothing};

    ghost Value = { List (List ℕ × List ℕ) };

    ghost view = { λ w. or_nothing (each_member (line_words w.text.now)) };

    ghost invariant = { λ w. are_members (each_member (line_words w.text.now)) ≡ true };
}

impl<'a> MemberWords<'a> {
    /// The same members.
    fn again(&self) -> MemberWords<'a>
        ensures { result ≡ self.now }
    {
        MemberWords { text: self.text }
    }

    /// The first member, and those behind it.
    fn split_first(&self) -> Option<((Identifier<'a>, Identifier<'a>), MemberWords<'a>)>
        ensures { MatchOption result (self.now ≡ []) (λ r. self.now ≡ r.0 ∷ r.1) }
    {
        let (word, text) = first_word(self.text)?;
        let member = read_member(word)?;
        Some((member, MemberWords { text }))
    }
}

/// The members that the words are, if they are 1 to 1,024.
pub fn read_members<'a>(rest: &'a [u8]) -> Option<MemberWords<'a>>
    ensures { result ≡ members_of (line_words rest.now) }
{
    let mut left = rest;
    let mut count = 0;
    while let Some((word, after)) = first_word(left) {
        if count == MOST || read_member(word).is_none() {
            return None;
        }
        count += 1;
        left = after;
    }
    if count == 0 {
        return None;
    }
    Some(MemberWords { text: rest })
}

/// Whether two members have one variable. `seen` is emptied first, and is left with the variables
/// that were looked at.
fn has_twice(members: &[Member], seen: &mut NumberSet) -> Result<bool, AllocError>
    ensures { IfOk result (λ twice. twice ≡ not (all_differ (λ a b. a == b) (vars_of members.now))) }
{
    seen.clear();
    for member in members {
        if seen.has(member.var) {
            return Ok(true);
        }
        seen.add(member.var)?;
    }
    Ok(false)
}

impl LaneNames {
    /// Binds the variables of members in order, and gives the members.
    fn members(
        &mut self,
        alloc: Global,
        classes: &ClassTable,
        words: &MemberWords<'_>,
    ) -> Result<Members, Stop>
        ensures { Steps (with_command (with_vars words.now self.old) (or_unknown (members_found classes.now.classes self.old.names words.now))) self.new result }
    {
        let mut members = Vec::new(alloc);
        let mut rest = words.again();
        while let Some(((var, class), after)) = rest.split_first() {
            let Some(class) = classes.find_class(class.as_str()) else {
                return Err(Stop::Faulty(Cause::UnknownName));
            };
            let Ok(var) = self.bind_var(var.as_str()) else {
                return Err(Stop::Memory);
            };
            if members.push(Member { var, class }).is_err() {
                return Err(Stop::Memory);
            }
            rest = after;
        }
        Ok(Members::from_vec(members))
    }

    /// Binds the variables of members in order. No variable may stand twice.
    pub fn bind_members(
        &mut self,
        classes: &ClassTable,
        seen: &mut NumberSet,
        words: &MemberWords<'_>,
    ) -> Result<Known, Stop>
        ensures { Steps (with_command (with_vars words.now self.old) (members_bound (are_apart words.now) (members_found classes.now.classes self.old.names words.now))) self.new result }
    {
        let members = self.members(seen.alloc(), classes, words)?;
        match has_twice(members.as_slice(), seen) {
            Ok(false) => Ok(Known::Members(members)),
            Ok(true) => Err(Stop::Faulty(Cause::NameTwice)),
            Err(_) => Err(Stop::Memory),
        }
    }
}
