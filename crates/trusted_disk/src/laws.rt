//! Laws of trusted disks, each the contract of a function that does nothing.
ghost use Rattle.std.specs.Prelude.{ℕ, List};
ghost use Rattle.trusted_disk.specs.Laws.{HasSectors, LeavesAlike, PassesOn, StaysTrusted, TakesBack, TellsWord, TrustsAll};

/// A kind of image, of which laws say that crashes leave no other.
pub trait Images {
    // whether an image is of the kind
    ghost hold: { (ℕ → List ℕ) → Type 0 };
}

/// The word is kept just where the disk keeps it and the truth value is true.
pub fn tells_word()
    ensures { TellsWord }
{}

/// Its sectors, and what reads give, are the disk's.
pub fn has_sectors()
    ensures { HasSectors }
{}

/// A crash may have left the same images.
pub fn leaves_alike()
    ensures { LeavesAlike }
{}

/// Where the truth value is true all is as the disk says it.
pub fn trusts_all()
    ensures { TrustsAll }
{}

/// A disk that goes on, only reads or only syncs does so under any truth value, and crashes leave images of the same kind.
pub fn passes_on<I: Images>()
    ensures { PassesOn I.hold }
{}

/// What is so under truth values that are true is so of the disk.
pub fn takes_back<I: Images>()
    ensures { TakesBack I.hold }
{}

/// A trusted disk that keeps its word, and has time, stays trusted.
pub fn stays_trusted()
    ensures { StaysTrusted }
{}
