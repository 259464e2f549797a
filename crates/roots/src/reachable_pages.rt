//! The pages that a root's tree reaches, found by one walk.
ghost use Rattle.std.specs.Prelude.{◌≡◌, ◌≢◌, ◌<◌, ◌≤◌, ◌+◌, ◌-◌, ◌++◌, ◌∷◌, [], ℕ, zero, List, Ok, length, map, IfOk, IfErr, OnOk, MatchResult};
ghost use Rattle.std.specs.Option.{option_map};
ghost use Rattle.page.specs.History.{KeepsWord, now, reads};
ghost use Rattle.page.specs.Format.{PageModel};
ghost use Rattle.page.specs.CellView.{place_of as place_in};
ghost use Rattle.page.specs.Content.{IsLeaf, IsPlace};
ghost use Rattle.page.specs.ImageView.{model_of};
ghost use Rattle.tree_model.specs.Calls.{IsPart};
ghost use Rattle.tree_model.specs.Keys.{Each, Entry, IsBetween, Pair};
ghost use Rattle.tree_model.specs.Tree.{Body, HasChain, HasLinks, Shows, item_of, next_of, pair_keys, place_of, pages_of};
ghost use Rattle.tree_model.specs.Reach.{AreOnce};
ghost use Rattle.roots.specs.Found.{HasFoundChain, HasFoundPairs, HasFoundPart, HasFoundValue, ReachesDepth};
ghost use Rattle.roots.specs.Image.{HoldsTree, model_at};
ghost use Rattle.roots.specs.Walk.{is_of_tree, CanReach, KeepsMarks, Looks, Reaches, pages_in, pages_so_far};

use crate::opening::OpenFault;
use crate::root::Root;
use page::{Disk, Leaf, PageContent, PageFault, PageImage, Stored, read_page};
use std::alloc::Global;
use tree_model::{high_bound, is_between, is_within, low_bound};

/// The most bytes of a value in one page of its chain.
const LINK: usize = 4076;

/// Pages that were reached, and for each page of the file whether it was.
#[derive(Drop)]
struct Reached {
    pages: Vec<u32>,
    seen: Vec<bool>,
}

impl Reached {
    /// Notes a page of the file that wasn't reached before.
    fn note(&mut self, page: u32) -> Result<(), OpenFault>
        ensures noted { OnOk result (pages_so_far self.new ≡ pages_so_far self.old ++ page ∷ []) }
        ensures refused { IfErr result (λ fault. fault ≡ OpenFault.Damaged
            → (limit : ℕ) → CanReach limit self.old (page ∷ []) → page < limit → ⊥) }
        ensures marks { KeepsMarks self.old self.new result }
        ensures kinds { IfErr result (λ fault. (fault ≢ OpenFault.Device)
            × ((fault ≢ OpenFault.NotADatabase) × (fault ≢ OpenFault.NewerFormat))) }
    {
        match self.seen.get(page as usize) {
            Some(false) => {}
            _ => return Err(OpenFault::Damaged),
        }
        if self.pages.push(page).is_err() {
            return Err(OpenFault::Memory);
        }
        self.seen[page as usize] = true;
        Ok(())
    }
}

/// The page of this number in a file with this root.
pub(crate) fn read_model<D: Disk>(
    alloc: Global,
    disk: &mut D,
    root: Root,
    page: u32,
) -> Result<PageImage, OpenFault>
    ensures looks { Looks result (D.history disk.old) (D.history disk.new) }
    ensures model { let model = model_at (reads (now (D.history disk.old))) root page in
        KeepsWord (D.history disk.new) → MatchResult result
        (λ image. model ≡ Ok (model_of image))
        (λ fault. fault ≡ OpenFault.Damaged → (found : PageModel) → model ≡ Ok found → ⊥) }
{
    if page == 0 || page >= root.pages {
        return Err(OpenFault::Damaged);
    }
    let mut bytes = [0; 4096];
    read_page(disk, page, &mut bytes)?;
    match PageImage::read(alloc, &bytes, page, root.generation) {
        Ok(image) => Ok(image),
        Err(PageFault::Memory) => Err(OpenFault::Memory),
        Err(_) => Err(OpenFault::Damaged),
    }
}

/// Whether a page is one of a tree, and not of a value's chain or of a list.
pub(crate) fn is_of_tree(image: &PageImage) -> bool
    ensures { result ≡ is_of_tree (model_of image.now).content }
{
    matches!(image.content, PageContent::Leaf(_) | PageContent::Branch(_))
}

/// Reaches the pages of a value's chain.
fn walk_chain<D: Disk>(
    alloc: Global,
    disk: &mut D,
    root: Root,
    first: u32,
    len: u32,
    reached: &mut Reached,
) -> Result<(), OpenFault>
    ensures looks { Looks result (D.history disk.old) (D.history disk.new) }
    ensures reaches { KeepsWord (D.history disk.new) → (links value : List ℕ)
        → HasLinks (pages_in (D.history disk.old) root) links value
        → next_of links ≡ first → length value ≡ len → CanReach root.pages reached.old links
        → Reaches links reached.old reached.new result }
    ensures marks { KeepsMarks reached.old reached.new result }
    ensures found { KeepsWord (D.history disk.new)
        → OnOk result (HasFoundChain (pages_in (D.history disk.old) root) first len
        (pages_so_far reached.old) (pages_so_far reached.new)) }
{
    let mut page = first;
    let mut left = len as usize;
    while left > 0 {
        reached.note(page)?;
        let image = read_model(alloc, disk, root, page)?;
        let PageContent::Chain { next, bytes } = &image.content else {
            return Err(OpenFault::Damaged);
        };
        if bytes.len() != left.min(LINK) {
            return Err(OpenFault::Damaged);
        }
        left -= bytes.len();
        page = *next;
    }
    if page == 0 {
        Ok(())
    } else {
        Err(OpenFault::Damaged)
    }
}

/// Reaches the pages of a value.
fn walk_value<D: Disk>(
    alloc: Global,
    disk: &mut D,
    root: Root,
    stored: Stored<'_>,
    reached: &mut Reached,
) -> Result<(), OpenFault>
    ensures looks { Looks result (D.history disk.old) (D.history disk.new) }
    ensures reaches { KeepsWord (D.history disk.new) → (x : Pair)
        → place_of x.links x.value ≡ place_in stored.entry
        → HasChain (pages_in (D.history disk.old) root) x
        → CanReach root.pages reached.old x.links
        → Reaches x.links reached.old reached.new result }
    ensures marks { KeepsMarks reached.old reached.new result }
    ensures found { KeepsWord (D.history disk.new) → IsPlace (place_in stored.entry)
        → OnOk result (HasFoundValue (pages_in (D.history disk.old) root) (place_in stored.entry)
        (pages_so_far reached.old) (pages_so_far reached.new)) }
{
    match stored {
        Stored::Inline(_) => Ok(()),
        Stored::Chained { len, first } => walk_chain(alloc, disk, root, first, len, reached),
    }
}

/// Reaches the pages of a leaf's values. Its keys lie between the bounds.
fn walk_leaf<D: Disk>(
    alloc: Global,
    disk: &mut D,
    root: Root,
    leaf: &Leaf,
    low: &[u8],
    high: Option<&[u8]>,
    reached: &mut Reached,
) -> Result<(), OpenFault>
    ensures looks { Looks result (D.history disk.old) (D.history disk.new) }
    ensures reaches { KeepsWord (D.history disk.new) → (pairs : List Pair)
        → leaf.now ≡ map item_of pairs → Shows (pages_in (D.history disk.old) root) zero pairs
        → Each (IsBetween low.now (option_map (λ b. b.now) high.entry)) (pair_keys pairs)
        → CanReach root.pages reached.old (pages_of zero pairs)
        → Reaches (pages_of zero pairs) reached.old reached.new result }
    ensures marks { KeepsMarks reached.old reached.new result }
    ensures lawful { IsLeaf leaf.now }
    ensures found { KeepsWord (D.history disk.new)
        → OnOk result (HasFoundPairs (pages_in (D.history disk.old) root)
        low.now (option_map (λ b. b.now) high.entry) leaf.now
        (pages_so_far reached.old) (pages_so_far reached.new)) }
{
    for i in 0..leaf.len() {
        let cell = leaf.cell(i);
        if !is_between(cell.key, low, high) {
            return Err(OpenFault::Damaged);
        }
        walk_value(alloc, disk, root, cell.stored, reached)?;
    }
    Ok(())
}

/// Reaches a page of the tree and all below it, whose keys lie between the bounds; how many levels are below it.
fn walk_below<D: Disk>(
    alloc: Global,
    disk: &mut D,
    root: Root,
    page: u32,
    level: u32,
    low: &[u8],
    high: Option<&[u8]>,
    reached: &mut Reached,
) -> Result<u32, OpenFault>
    ensures looks { Looks result (D.history disk.old) (D.history disk.new) }
    ensures reaches { KeepsWord (D.history disk.new) → (d : ℕ) (body : Body d)
        → IsPart (pages_in (D.history disk.old) root) page level d
        low.now (option_map (λ b. b.now) high.entry) body
        → CanReach root.pages reached.old (page ∷ pages_of d body)
        → ReachesDepth d (page ∷ pages_of d body) (pages_so_far reached.old)
        (pages_so_far reached.new) result }
    ensures marks { KeepsMarks reached.old reached.new result }
    ensures depth { IfOk result (λ d. d ≤ 31 - level) }
    ensures found { KeepsWord (D.history disk.new)
        → IfOk result (λ d. HasFoundPart (pages_in (D.history disk.old) root) page d
        low.now (option_map (λ b. b.now) high.entry)
        (pages_so_far reached.old) (pages_so_far reached.new)) }
{
    if !is_within(low, high) {
        return Err(OpenFault::Damaged);
    }
    reached.note(page)?;
    let image = read_model(alloc, disk, root, page)?;
    let branch = match &image.content {
        PageContent::Leaf(leaf) => {
            walk_leaf(alloc, disk, root, leaf, low, high, reached)?;
            return Ok(0);
        }
        PageContent::Branch(branch) => branch,
        _ => return Err(OpenFault::Damaged),
    };
    if level >= 31 {
        return Err(OpenFault::Damaged);
    }
    let mut depth = 0;
    for i in 0..branch.len() {
        let from = low_bound(branch, i, low);
        let to = high_bound(branch, i, high);
        let child = branch.child(i).page;
        let below = walk_below(alloc, disk, root, child, level + 1, from, to, reached)?;
        if i > 0 && below != depth {
            return Err(OpenFault::Damaged);
        }
        depth = below;
    }
    Ok(depth + 1)
}

/// The pages that the tree of this root reaches, each once, in the order of its keys.
pub(crate) fn reached_pages<D: Disk>(
    alloc: Global,
    disk: &mut D,
    root: Root,
) -> Result<Vec<u32>, OpenFault>
    ensures looks { Looks result (D.history disk.old) (D.history disk.new) }
    ensures pages { let models = model_at (reads (now (D.history disk.old))) root in
        KeepsWord (D.history disk.new) → (pages : List ℕ) (entries : List Entry)
        → HoldsTree models root pages entries
        → MatchResult result (λ v. v.items ≡ pages) (λ fault. fault ≢ OpenFault.Damaged) }
    ensures once { IfOk result (λ v. AreOnce v.items) }
    ensures found { let models = model_at (reads (now (D.history disk.old))) root in
        KeepsWord (D.history disk.new)
        → IfOk result (λ v. (entries : List Entry) × HoldsTree models root v.items entries) }
{
    if root.tree == 0 {
        return Ok(Vec::new(alloc));
    }
    let mut reached = Reached {
        pages: Vec::new(alloc),
        seen: vec![in alloc; false; root.pages as usize]?,
    };
    walk_below(alloc, disk, root, root.tree, 0, &[], None, &mut reached)?;
    Ok(reached.pages)
}
