//! How each act is told to the diary: as the pass and its parts, in their order.
ghost use Rattle.world_model.specs.Types.act;

use crate::diary::Tells;
use crate::kind::Kind;
use crate::name::{Name, Weak};
use crate::pass::{Pass, Phase};
use crate::reply::{Begin, Commit, Marked, Purged, Swept};

pub struct OpensFrame;

impl Tells<(Pass, Phase)> for OpensFrame {
    ghost entry = { λ x. record { pass = x.0; act = act.FrameOpen x.1 } };
}

pub struct ClosesFrame;

impl Tells<Pass> for ClosesFrame {
    ghost entry = { λ x. record { pass = x; act = act.FrameClose } };
}

pub struct Makes;

impl<'a> Tells<(Pass, &'a [Kind], u64)> for Makes {
    ghost entry = { λ x. record { pass = x.0; act = act.Make x.1.now x.2 } };
}

pub struct IsFull;

impl Tells<(Pass, u32, u32)> for IsFull {
    ghost entry = { λ x. record { pass = x.0; act = act.Full x.1 x.2 } };
}

pub struct SpendsNames;

impl Tells<(Pass, u32, u64)> for SpendsNames {
    ghost entry = { λ x. record { pass = x.0; act = act.NamesSpent x.1 x.2 } };
}

pub struct ReadsRef;

impl Tells<(Pass, Name, u32, Option<Name>)> for ReadsRef {
    ghost entry = { λ x. record { pass = x.0; act = act.ReadRef x.1 x.2 x.3 } };
}

pub struct WritesRef;

impl Tells<(Pass, Name, u32, Option<Name>, Option<Name>)> for WritesRef {
    ghost entry = { λ x. record { pass = x.0; act = act.WriteRef x.1 x.2 x.3 x.4 } };
}

pub struct ReadsPlain;

impl Tells<(Pass, Name, u32, u64)> for ReadsPlain {
    ghost entry = { λ x. record { pass = x.0; act = act.ReadPlain x.1 x.2 x.3 } };
}

pub struct WritesPlain;

impl Tells<(Pass, Name, u32, u64, u64)> for WritesPlain {
    ghost entry = { λ x. record { pass = x.0; act = act.WritePlain x.1 x.2 x.3 x.4 } };
}

pub struct Roots;

impl Tells<(Pass, Name, bool, bool)> for Roots {
    ghost entry = { λ x. record { pass = x.0; act = act.Root x.1 x.2 x.3 } };
}

pub struct SetsStrong;

impl Tells<(Pass, u32, Option<Name>, Option<Name>)> for SetsStrong {
    ghost entry = { λ x. record { pass = x.0; act = act.SetStrong x.1 x.2 x.3 } };
}

pub struct GetsStrong;

impl Tells<(Pass, u32, Option<Name>)> for GetsStrong {
    ghost entry = { λ x. record { pass = x.0; act = act.GetStrong x.1 x.2 } };
}

pub struct GivesWeak;

impl Tells<(Pass, Name, Weak)> for GivesWeak {
    ghost entry = { λ x. record { pass = x.0; act = act.WeakOf x.1 x.2 } };
}

pub struct LacksSerial;

impl Tells<(Pass, Name, u32)> for LacksSerial {
    ghost entry = { λ x. record { pass = x.0; act = act.NoSerial x.1 x.2 } };
}

pub struct Resolves;

impl Tells<(Pass, Weak, Option<Name>)> for Resolves {
    ghost entry = { λ x. record { pass = x.0; act = act.Resolve x.1 x.2 } };
}

pub struct Loosens;

impl Tells<(Pass, Name)> for Loosens {
    ghost entry = { λ x. record { pass = x.0; act = act.Loose x.1 } };
}

pub struct Dissolves;

impl Tells<(Pass, Name, u32)> for Dissolves {
    ghost entry = { λ x. record { pass = x.0; act = act.Dissolve x.1 x.2 } };
}

pub struct RefusesToDissolve;

impl Tells<(Pass, Name)> for RefusesToDissolve {
    ghost entry = { λ x. record { pass = x.0; act = act.NoDissolve x.1 } };
}

pub struct MarksGarbage;

impl Tells<(Pass, Name, bool)> for MarksGarbage {
    ghost entry = { λ x. record { pass = x.0; act = act.MarkGarbage x.1 x.2 } };
}

pub struct TellsValid;

impl Tells<(Pass, Name, bool)> for TellsValid {
    ghost entry = { λ x. record { pass = x.0; act = act.IsValid x.1 x.2 } };
}

pub struct BeginsGc;

impl Tells<(Pass, Begin)> for BeginsGc {
    ghost entry = { λ x. record { pass = x.0; act = act.BeginGc x.1 } };
}

pub struct OpensSlice;

impl Tells<Pass> for OpensSlice {
    ghost entry = { λ x. record { pass = x; act = act.SliceOpen } };
}

pub struct Keeps;

impl Tells<(Pass, Name)> for Keeps {
    ghost entry = { λ x. record { pass = x.0; act = act.Kept x.1 } };
}

pub struct Scans;

impl Tells<(Pass, Name)> for Scans {
    ghost entry = { λ x. record { pass = x.0; act = act.Scanned x.1 } };
}

pub struct ClosesSlice;

impl Tells<(Pass, u32, Marked)> for ClosesSlice {
    ghost entry = { λ x. record { pass = x.0; act = act.Slice x.1 x.2 } };
}

pub struct CommitsGc;

impl Tells<(Pass, Commit)> for CommitsGc {
    ghost entry = { λ x. record { pass = x.0; act = act.CommitGc x.1 } };
}

pub struct Sweeps;

impl<'a> Tells<(Pass, u32, Swept, &'a [Name])> for Sweeps {
    ghost entry = { λ x. record { pass = x.0; act = act.Sweep x.1 x.2 x.3.now } };
}

pub struct Begins;

impl Tells<(Pass, Name)> for Begins {
    ghost entry = { λ x. record { pass = x.0; act = act.Begun x.1 } };
}

pub struct Asks;

impl Tells<(Pass, Name, u32, bool)> for Asks {
    ghost entry = { λ x. record { pass = x.0; act = act.Asked x.1 x.2 x.3 } };
}

pub struct Finishes;

impl Tells<(Pass, Name)> for Finishes {
    ghost entry = { λ x. record { pass = x.0; act = act.Finished x.1 } };
}

pub struct Releases;

impl Tells<(Pass, Name)> for Releases {
    ghost entry = { λ x. record { pass = x.0; act = act.Released x.1 } };
}

pub struct PurgesGc;

impl Tells<(Pass, u32, Purged)> for PurgesGc {
    ghost entry = { λ x. record { pass = x.0; act = act.PurgeGc x.1 x.2 } };
}
