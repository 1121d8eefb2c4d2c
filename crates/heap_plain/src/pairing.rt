//! Weak pointers: what one gives, and the note that one was drawn.
ghost use Rattle.std.specs.Prelude.{◌≡◌, ◌∷◌, [], ◌++◌, ◌<◌, IsSome, Some, length, ℕ};
ghost use Rattle.world_model.specs.Engines.{act_of_weak};
ghost use Rattle.heap_plain.specs.Types.{Lane};
ghost use Rattle.heap_plain.specs.Parts.{name_at, life_at};
ghost use Rattle.heap_plain.specs.Pairing.{given_of};
ghost use Rattle.heap_plain.specs.Storing.{Refers};

use crate::life::Life;
use crate::marking::named;
use world_model::{Diary, Name, Pass, Ref, SerialsSpent, Weak};

/// Notes that a lane was given a new weak pointer to an object, or that it has drawn all its serials.
pub(crate) fn draws(lane: u32, at: Name, drawn: Result<Weak, SerialsSpent>, diary: &mut Diary)
    ensures { diary.new ≡ diary.old ++ record { pass = Lane lane; act = act_of_weak at drawn } ∷ [] }
{
    match drawn {
        Ok(weak) => diary.weak_of(Pass::Lane(lane), at, weak),
        Err(spent) => diary.no_serial(Pass::Lane(lane), at, spent.made),
    }
}

/// The object at an index, if there is one, while it lives and is not garbage.
pub(crate) fn given(
    names: &[Option<Name>],
    lives: &[Life],
    garbage: &[bool],
    found: Option<u32>,
) -> Option<Ref>
    requires life { (i : ℕ) → found ≡ Some i → i < length lives.now }
    requires garbage { (i : ℕ) → found ≡ Some i → i < length garbage.now }
    requires named { (i : ℕ) → life_at lives.now i ≡ Life.Live → IsSome (name_at names.now i) }
    ensures { Refers names.now (given_of lives.now garbage.now found) result }
{
    let Some(index) = found else {
        return None;
    };
    match lives[index as usize] {
        Life::Live => {}
        _ => return None,
    }
    if garbage[index as usize] {
        return None;
    }
    Some(Ref {
        index,
        name: named(names, index as usize),
    })
}
