//! Pages that were read, kept in memory.

ghost use Rattle.std.specs.Prelude.{◌≡◌, ◌≢◌, ◌⊎◌, ℕ, Some, None, IfOk, IfSome};
ghost use Rattle.page.specs.Cache.{kept};
ghost use Rattle.page.specs.ImageView.{model_of};

use crate::PageImage;
use lru::LruCache;
use std::alloc::{AllocError, Global};
use std::marker::Model;
use std::num::NonZeroUsize;
use std::rc::Rc;

/// The most pages of a cache.
pub const CACHED_PAGES: usize = 1024;

/// A page with several owners: the cache, and who reads it.
#[derive(Drop)]
pub struct SharedPage {
    image: Rc<PageImage>,
}

impl Model for SharedPage {
    ghost use Rattle.page.specs.Format.{PageModel};
    ghost use Rattle.page.specs.ImageView.{model_of};

    ghost Value = { PageModel };

    ghost view = { λ a. model_of a.image.value };
}

impl SharedPage {
    /// The page, with one owner.
    pub fn new(alloc: Global, image: PageImage) -> Result<SharedPage, AllocError>
        ensures { IfOk result (λ shared. shared ≡ model_of image) }
    {
        let image = Rc::new(alloc, image)?;
        Ok(SharedPage { image })
    }

    pub fn image(&self) -> &PageImage
        ensures { model_of result.now ≡ self.now }
    {
        self.image.as_ref()
    }

    /// One more owner.
    pub fn clone_ref(&self) -> Result<SharedPage, AllocError>
        ensures { IfOk result (λ shared. shared ≡ self.now) }
    {
        let image = self.image.clone()?;
        Ok(SharedPage { image })
    }
}

/// Pages by their numbers, at most 1,024. Where there is no room, the one that was used longest ago goes.
#[derive(Drop)]
pub struct PageCache {
    pages: LruCache<u32, SharedPage>,
}

impl PageCache {
    /// An empty cache.
    pub fn new(alloc: Global) -> Result<PageCache, AllocError>
        ensures { IfOk result (λ cache. (k : ℕ) → kept cache k ≡ None) }
    {
        let most = NonZeroUsize::new(CACHED_PAGES).unwrap();
        let pages = LruCache::new(alloc, most)?;
        Ok(PageCache { pages })
    }

    /// The page that was put last under this number and not removed since, or None: it was never put, had to go, or there
    /// is no memory for one more owner.
    pub fn get(&mut self, page: u32) -> Option<SharedPage>
        ensures found { IfSome result (λ image. kept self.old page ≡ Some image) }
        ensures same { (k : ℕ) → kept self.new k ≡ kept self.old k }
    {
        let found = self.pages.get(&page)?;
        found.clone_ref().ok()
    }

    /// Keeps a page in place of the one that was kept under its number, which another one may have to leave for. Without
    /// memory nothing changes, and then no page was kept under it.
    pub fn put(&mut self, page: u32, image: SharedPage)
        ensures this { (kept self.new page ≡ Some image) ⊎ (kept self.new page ≡ None) }
        ensures others { (k : ℕ) → k ≢ page
            → (kept self.new k ≡ kept self.old k) ⊎ (kept self.new k ≡ None) }
    {
        let _ = self.pages.put(page, image);
    }

    /// Forgets the page of this number, which is taken again.
    pub fn remove(&mut self, page: u32)
        ensures this { kept self.new page ≡ None }
        ensures others { (k : ℕ) → k ≢ page → kept self.new k ≡ kept self.old k }
    {
        if self.pages.len() > 0 {
            let _ = self.pages.pop(&page);
        }
    }
}
