//! How many values nest how deep.

ghost use Rattle.std.specs.Prelude.{◌≡◌, ℕ, ◌+◌, ◌<◌, ◌≤◌, ◌^◌};
ghost use Rattle.bson.specs.Depths.{one_at, Counts, IsDeepest};

/// How many levels a value may have, none among them.
const DEPTHS: usize = 101;

/// How many values nest how deep, so that the deepest is known when one of them goes.
#[derive(Debug, Drop)]
pub(crate) struct Depths {
    counts: [usize; DEPTHS],
}

impl Depths {
    /// Of no values.
    pub(crate) fn new() -> Depths
        ensures { Counts result.counts (λ _. 0) }
    {
        Depths {
            counts: [0; DEPTHS],
        }
    }

    /// Takes in a value that nests so deep.
    pub(crate) fn add(&mut self, depth: u32)
        requires { depth ≤ 100 }
        ensures { (f g : ℕ → ℕ) → Counts self.old.counts f
            → ((l : ℕ) → g l ≡ f l + one_at depth l) → g depth < 2 ^ 64
            → Counts self.new.counts g }
    {
        self.counts[depth as usize] = self.counts[depth as usize].saturating_add(1);
    }

    /// Takes in that a value which nested `old` levels gave way to one of `new`.
    pub(crate) fn replace(&mut self, old: u32, new: u32)
        requires { (old ≤ 100) × (new ≤ 100) }
        ensures { (f g : ℕ → ℕ) → Counts self.old.counts f
            → ((l : ℕ) → g l + one_at old l ≡ f l + one_at new l) → 1 ≤ f old → g new < 2 ^ 64
            → Counts self.new.counts g }
    {
        self.counts[old as usize] = self.counts[old as usize].saturating_sub(1);
        self.counts[new as usize] = self.counts[new as usize].saturating_add(1);
    }

    /// How deep the values nest, where that is at most so deep.
    pub(crate) fn deepest(&self, most: u32) -> u32
        requires { most ≤ 100 }
        ensures { (f : ℕ → ℕ) (depth : ℕ) → Counts self.now.counts f → IsDeepest f depth
            → depth ≤ most → result ≡ depth }
    {
        let mut levels = most;
        'depths: while 0 < levels && self.counts[levels as usize] == 0 {
            levels -= 1;
        }
        levels
    }
}
