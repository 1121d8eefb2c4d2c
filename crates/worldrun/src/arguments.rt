//! The words after the program's name.
ghost use Rattle.std.specs.Prelude.{◌≡◌, ◌⊎◌, drop, IfOk, IfErr};
ghost use Rattle.std.specs.Vec.Iter.{into_iter_items};
ghost use Rattle.world_play.specs.declared.status.Status.TheVariants as status;

use std::alloc::Global;
use std::env;
use std::env::Args;
use std::io::ErrorKind;
use std::rt::Env;
use world_play::Status;

fn collected(alloc: Global, all: Args) -> Result<Vec<String>, Status>
    ensures words { IfOk result (λ v. v.items ≡ into_iter_items all) }
    ensures memory { IfErr result (λ s. s ≡ status.Memory) }
{
    match all.collect(alloc) {
        Ok(words) => Ok(words),
        Err(_) => Err(Status::Memory),
    }
}

/// All words of the command, the program's name in front. Words that are not UTF-8 are those of no
/// command.
pub fn words<R: Env + AllocGlobal>(rt: &R) -> Result<Vec<String>, Status>
    ensures { IfErr result (λ s. (s ≡ status.Usage) ⊎ (s ≡ status.Memory)) }
{
    match env::args(rt) {
        Ok(all) => collected(rt.alloc(), all),
        Err(e) if e.kind() == ErrorKind::OutOfMemory => Err(Status::Memory),
        Err(_) => Err(Status::Usage),
    }
}

/// The words after the program's name.
pub fn behind_name(words: &[String]) -> &[String]
    ensures { result.now ≡ drop 1 words.now }
{
    match words {
        [] => words,
        [_, rest @ ..] => rest,
    }
}
