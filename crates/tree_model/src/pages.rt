// The pages of a tree.
ghost use Rattle.std.specs.Prelude.{◌≡◌, IfErr, IfOk, MatchResult};
ghost use Rattle.tree_model.specs.Reading.{IsNotFull};
ghost use Rattle.tree_model.specs.Store.{HasCause, HasFailed, IsAt, IsMade, IsRetired, IsSame, KeepsWord, Stays, Store};
ghost use Rattle.page.specs.Content.{Content};
ghost use Rattle.page.specs.Format.{IsFit};
ghost use Rattle.tree_model.specs.View.{content_in};

use page::{PageContent, SharedPage};
use std::alloc::AllocError;

/// Why a call of a tree gave no answer.
#[derive(Clone, Copy, Debug, PartialEq, Eq)]
pub enum TreeFault {
    /// A page of another kind than its place asks for.
    Kind,
    /// A page that names another number than its own.
    Number,
    /// Keys that don't rise or don't lie between the bounds above them, or more than 32 levels.
    Order,
    /// A length that doesn't fit, or an end where more was said to come.
    Length,
    /// The device failed.
    Device,
    /// A growth was refused.
    Memory,
    /// No page is free, or the tree would have more than 32 levels.
    Full,
}

impl From<AllocError> for TreeFault {
    ghost use Rattle.tree_model.specs.declared.pages.TreeFault.TheVariants.{Memory};

    ghost from_gives = { λ _ e. e ≡ Memory };

    fn from(_error: AllocError) -> TreeFault {
        TreeFault::Memory
    }
}

/// Pages that are written once, read often, and given back. What is said of a call holds while the device that keeps
/// them keeps its word after it.
pub trait Pages {
    /// The pages now.
    ghost store: { Self → Store };

    /// The page of this number. Device where the device failed; one of the other faults where it is no page. It takes no
    /// page.
    fn read(&mut self, page: u32) -> Result<SharedPage, TreeFault>
        ensures stays { Stays (store self.old) (store self.new) }
        ensures same { KeepsWord (store self.new) → IsSame (store self.old) (store self.new) }
        ensures takes { (store self.new).failed_allocations ≡ (store self.old).failed_allocations }
        ensures full { IfErr result IsNotFull }
        ensures value { KeepsWord (store self.new)
            → IfOk result (λ shared. (store self.old).page page ≡ shared.content) }
        ensures cause { KeepsWord (store self.new) → (content : Content)
            → IsAt (store self.old) page content
            → IfErr result (HasCause (store self.old) (store self.new)) };

    /// Writes a page that nothing reaches. Full where no page is free.
    fn allocate(&mut self, content: PageContent) -> Result<u32, TreeFault>
        requires { IsFit (content_in content) }
        ensures stays { Stays (store self.old) (store self.new) }
        ensures makes { KeepsWord (store self.new) → MatchResult result
            (λ page. IsMade (store self.old) (store self.new) page (content_in content))
            (HasFailed (store self.old) (store self.new)) };

    /// Notes that the page isn't reached by what will be written.
    fn retire(&mut self, page: u32) -> Result<(), TreeFault>
        ensures stays { Stays (store self.old) (store self.new) }
        ensures retires { KeepsWord (store self.new) → MatchResult result
            (λ done. IsRetired (store self.old) (store self.new) page)
            (HasFailed (store self.old) (store self.new)) };
}
