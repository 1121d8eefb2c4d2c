//! What a script tells before its lines.
ghost use Rattle.std.specs.Prelude.{◌≡◌};

use level_script::{ClassTable, FieldNames};
use std::marker::Model;

/// The classes of a script, and the names of its fields, by number.
#[derive(Drop)]
pub struct Header<'a> {
    pub classes: &'a ClassTable,
    pub fields: &'a FieldNames,
}

impl<'a> Model for Header<'a> {
    ghost use Rattle.world_play.specs.Header.{Header};

    ghost Value = { Header };

    ghost view = { λ h. record { classes = h.classes.now; fields = h.fields.now } };
}
