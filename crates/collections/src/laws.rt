//! Laws of turns, each the contract of a function that does nothing.

ghost use Rattle.collections.specs.Laws.{ExtendsItself, GoesFurther, HasOneCount, HasOneState, HasOneVersion, HoldsOne, LeavesStart, ReadsFindRoom, RestsAtStart, ZerosHoldNothing};
ghost use Rattle.collections.specs.Trusting.{TrustingKeepsState};
ghost use Rattle.collections.specs.Versions.{PinsStay, SinceStartStays, VersionsStay};

use page::Disk;

/// Until the commit, a crash leaves the collections as the turn began.
pub fn leaves_start<D: Disk>()
    ensures { LeavesStart D.history }
{}

/// A turn that has changed nothing stands for what it began with.
pub fn rests_at_start<D: Disk>()
    ensures { RestsAtStart D.history }
{}

/// There is one state at most.
pub fn has_one_state<D: Disk>()
    ensures { HasOneState D.history }
{}

/// An image holds one list of collections at most.
pub fn holds_one()
    ensures { HoldsOne }
{}

/// The pages of an image are counted in one way.
pub fn has_one_count()
    ensures { HasOneCount }
{}

/// An image whose root sectors are zeros holds no collection.
pub fn zeros_hold_nothing()
    ensures { ZerosHoldNothing }
{}

/// A turn goes on from where it is, with nothing done.
pub fn goes_from_itself<D: Disk>()
    ensures { ExtendsItself D.history }
{}

/// What goes on from where a turn has come goes on from where it was.
pub fn goes_further<D: Disk>()
    ensures { GoesFurther D.history }
{}

/// What only reads is never refused because no page is free.
pub fn reads_find_room<D: Disk>()
    ensures { ReadsFindRoom D.history }
{}

/// A state that collections have where something is true they have on a disk whose word counts only there.
pub fn trusting_keeps_state<D: Disk>()
    ensures { TrustingKeepsState D.history }
{}

/// What reads, and takes and retires pages, keeps what each version has.
pub fn versions_stay<D: Disk>()
    ensures { VersionsStay D.history }
{}

/// It pins nothing, and ends no pin.
pub fn pins_stay<D: Disk>()
    ensures { PinsStay D.history }
{}

/// It keeps also what each version has had since the turn began.
pub fn since_start_stays<D: Disk>()
    ensures { SinceStartStays D.history }
{}

/// A version has one list of collections at most.
pub fn has_one_version<D: Disk>()
    ensures { HasOneVersion D.history }
{}
