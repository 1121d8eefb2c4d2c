//! What the objects of a script do when they are destroyed.
ghost use Rattle.std.specs.Prelude.{◌≡◌, None};
ghost use Rattle.world_play.specs.Collections.{is_ready};

use level_script::ClassTable;
use world_model::{ClassId, Hooks, Name, Ready};

/// Hooks by the classes of a script: an object agrees to be finished where its class is one of the
/// table and has refused as many polls as it does. They tell no calls.
#[derive(Drop)]
pub struct ClassHooks<'a> {
    pub classes: &'a ClassTable,
}

impl Hooks for ClassHooks<'_> {
    ghost use Rattle.std.specs.Prelude.{◌≡◌, None};
    ghost use Rattle.world_play.specs.Collections.{is_ready};

    ghost calls = { λ _. None };

    ghost test = { λ h n class poll answer. answer ≡ is_ready h.classes.now class poll };

    fn begin(&mut self, name: Name, class: ClassId) {
        let _ = name;
        let _ = class;
    }

    fn ready(&mut self, name: Name, class: ClassId, poll: u32) -> bool {
        let _ = name;
        if !self.classes.has_class(class) {
            return false;
        }
        match self.classes.kind(class).ready {
            Ready::After(refused) => poll > refused,
            Ready::Never => false,
        }
    }

    fn finish(&mut self, name: Name, class: ClassId) {
        let _ = name;
        let _ = class;
    }
}
