//! Pages as 4,096 bytes.

ghost use Rattle.std.specs.Prelude.{IsTrue, ◌≡◌, ◌≢◌, ◌≤◌, ◌<◌, ◌*◌, ◌^◌, ◌++◌, length, IfOk, vec_len};
ghost use Rattle.byteorder.specs.Endian.{little_bytes};
ghost use Rattle.page.specs.Content.{IsContent, chain, free_list, is_of_tree};
ghost use Rattle.page.specs.Format.{header, IsFit, page_bytes, chain_in, free_list_in, numbers_in, generation_in, content_in, model_in};
ghost use Rattle.page.specs.View.{content_of};
ghost use Rattle.outcome.specs.Outcome.{Gives};

use crate::{Branch, Leaf, PageContent, PageFault, is_all_zero};
use byteorder::{ByteOrder, LittleEndian};
use std::alloc::{AllocError, Global};

/// The bytes of a page.
pub const PAGE_BYTES: usize = 4096;
/// The bytes of a page behind its header.
pub const BODY_BYTES: usize = 4080;
/// The most bytes of a chain's page.
pub const CHAIN_BYTES: usize = 4076;
/// The most numbers of a page of the free list.
pub const FREE_NUMBERS: usize = 1019;

/// A page: its own number, the generation of the commit that wrote it, and its content.
#[derive(Debug, Drop)]
pub struct PageImage {
    pub page: u32,
    pub generation: u64,
    pub content: PageContent,
    ghost fits: { IsFit (content_of content) },
}

/// A chain's page behind the header's first four bytes.
fn read_chain(
    alloc: Global,
    count: usize,
    next: u32,
    bytes: &[u8],
) -> Result<PageContent, PageFault>
    requires { length bytes.now ≡ 4076 }
    ensures gives { Gives PageFault.Memory content_of result (chain_in count next bytes.now) }
    ensures fits { IfOk result (λ content. IsFit (content_of content)) }
{
    if count > CHAIN_BYTES || (next != 0 && count < CHAIN_BYTES) {
        return Err(PageFault::Length);
    }
    let (front, rest) = bytes.split_at(count);
    if !is_all_zero(rest) {
        return Err(PageFault::Length);
    }
    let bytes = Vec::from_slice(alloc, front)?;
    Ok(PageContent::Chain { next, bytes })
}

/// A page of the free list behind the number of the next one.
fn read_free_list(
    alloc: Global,
    count: usize,
    next: u32,
    bytes: &[u8],
) -> Result<PageContent, PageFault>
    requires { length bytes.now ≡ 4076 }
    ensures gives { Gives PageFault.Memory content_of result (free_list_in count next bytes.now) }
    ensures fits { IfOk result (λ content. IsFit (content_of content)) }
{
    if count > FREE_NUMBERS || !is_all_zero(&bytes[4 * count..]) {
        return Err(PageFault::Length);
    }
    let pages = numbers_of(alloc, count, bytes)?;
    Ok(PageContent::FreeList { next, pages })
}

/// So many numbers, from the front.
fn numbers_of(alloc: Global, count: usize, bytes: &[u8]) -> Result<Vec<u32>, AllocError>
    requires { 4 * count ≤ length bytes.now }
    ensures numbers { IfOk result (λ v. v.items ≡ numbers_in count bytes.now) }
    ensures len { IfOk result (λ v. vec_len v ≡ count) }
{
    let mut numbers = Vec::with_capacity(alloc, count)?;
    for i in 0..count {
        numbers.push(LittleEndian::read_u32(&bytes[4 * i..]))?;
    }
    Ok(numbers)
}

/// The generation of the page of this number, in a file whose root has this generation.
fn read_generation(bytes: &[u8], page: u32, generation: u64) -> Result<u64, PageFault>
    requires { length bytes.now ≡ 4096 }
    ensures { Gives PageFault.Memory (λ n. n) result (generation_in page generation bytes.now) }
{
    if bytes[0] == 0 || bytes[0] > 4 || bytes[1] != 0 {
        return Err(PageFault::Kind);
    }
    let own = LittleEndian::read_u32(&bytes[4..]);
    let born = LittleEndian::read_u64(&bytes[8..]);
    if own != page || born == 0 || generation < born {
        return Err(PageFault::Number);
    }
    Ok(born)
}

/// The content of a page of this kind and count, by what stands behind its header.
fn read_content(
    alloc: Global,
    kind: u8,
    count: usize,
    body: &[u8],
) -> Result<PageContent, PageFault>
    requires { length body.now ≡ 4080 }
    ensures gives { Gives PageFault.Memory content_of result (content_in kind count body.now) }
    ensures fits { IfOk result (λ content. IsFit (content_of content)) }
{
    match kind {
        1 => Ok(PageContent::Leaf(Leaf::read(alloc, count, body)?)),
        2 => Ok(PageContent::Branch(Branch::read(alloc, count, body)?)),
        3 => read_chain(alloc, count, LittleEndian::read_u32(body), &body[4..]),
        _ => read_free_list(alloc, count, LittleEndian::read_u32(body), &body[4..]),
    }
}

/// The header of a page.
fn page_head(kind: u8, count: u16, page: u32, generation: u64) -> [u8; 16]
    ensures { result ≡ header kind count page generation }
{
    let mut head = [0; 16];
    head[0] = kind;
    LittleEndian::write_u16(&mut head[2..4], count);
    LittleEndian::write_u32(&mut head[4..8], page);
    LittleEndian::write_u64(&mut head[8..16], generation);
    head
}

/// The header of a page that names the next one of its chain or list, and that page.
fn linked_head(kind: u8, count: u16, page: u32, generation: u64, next: u32) -> [u8; 20]
    ensures { result ≡ header kind count page generation ++ little_bytes 4 next }
{
    let mut head = [0; 20];
    head[0] = kind;
    LittleEndian::write_u16(&mut head[2..4], count);
    LittleEndian::write_u32(&mut head[4..8], page);
    LittleEndian::write_u64(&mut head[8..16], generation);
    LittleEndian::write_u32(&mut head[16..20], next);
    head
}

/// Writes a page that holds these bytes of a chain, and names the page that goes on.
fn write_chain_page(generation: u64, page: u32, next: u32, content: &[u8], bytes: &mut [u8; 4096])
    requires { length content.now ≤ 4076 }
    ensures { bytes.new ≡ page_bytes (record {
      page = page;
      generation = generation;
      content = chain next content.now;
    }) }
{
    let count = content.len();
    *bytes = [0; 4096];
    bytes[..20].copy_from_slice(&linked_head(3, count as u16, page, generation, next));
    bytes[20..20 + count].copy_from_slice(content);
}

/// A page that holds these bytes of a chain, and names the page that goes on.
pub fn chain_page(generation: u64, page: u32, next: u32, content: &[u8]) -> [u8; 4096]
    requires { length content.now ≤ 4076 }
    ensures { result ≡ page_bytes (record {
      page = page;
      generation = generation;
      content = chain next content.now;
    }) }
{
    let mut bytes = [0; 4096];
    write_chain_page(generation, page, next, content, &mut bytes);
    bytes
}

/// Writes a page of the tree: its header, and the 4,080 bytes behind it.
fn write_tree_page(
    kind: u8,
    count: usize,
    page: u32,
    generation: u64,
    body: &[u8],
    bytes: &mut [u8; 4096],
)
    requires count { count < 2 ^ 16 }
    requires body { length body.now ≡ 4080 }
    ensures { bytes.new ≡ header kind count page generation ++ body.now }
{
    bytes[..16].copy_from_slice(&page_head(kind, count as u16, page, generation));
    bytes[16..].copy_from_slice(body);
}

/// Writes a page of the free list that holds these numbers, and names the list's next page.
fn write_free_list_page(
    generation: u64,
    page: u32,
    next: u32,
    numbers: &[u32],
    bytes: &mut [u8; 4096],
)
    requires { length numbers.now ≤ 1019 }
    ensures { bytes.new ≡ page_bytes (record {
      page = page;
      generation = generation;
      content = free_list next numbers.now;
    }) }
{
    let count = numbers.len();
    *bytes = [0; 4096];
    bytes[..20].copy_from_slice(&linked_head(4, count as u16, page, generation, next));
    LittleEndian::write_u32_into(numbers, &mut bytes[20..20 + 4 * count]);
}

/// A page of the free list that holds these numbers, and names the list's next page.
pub fn free_list_page(generation: u64, page: u32, next: u32, numbers: &[u32]) -> [u8; 4096]
    requires { length numbers.now ≤ 1019 }
    ensures { result ≡ page_bytes (record {
      page = page;
      generation = generation;
      content = free_list next numbers.now;
    }) }
{
    let mut bytes = [0; 4096];
    write_free_list_page(generation, page, next, numbers, &mut bytes);
    bytes
}

impl PageImage {
    ghost use Rattle.page.specs.ImageView.{model_of};

    /// Whether a tree may have this page, which is read back once it is written: one of a chain that names the next page has
    /// to be full.
    pub fn is_of_tree(&self) -> bool
        ensures exact { result ≡ is_of_tree (content_of self.now.content) }
        ensures content { IsTrue result → IsContent (content_of self.now.content) }
    {
        match &self.content {
            PageContent::Leaf(leaf) => leaf.len() > 0,
            PageContent::Branch(branch) => branch.len() > 1,
            PageContent::Chain { next, bytes } => *next == 0 || bytes.len() == CHAIN_BYTES,
            PageContent::FreeList { .. } => false,
        }
    }

    /// Writes the page's bytes. It takes no memory.
    pub fn write(&self, bytes: &mut [u8; 4096])
        ensures { bytes.new ≡ page_bytes (model_of self.now) }
    {
        let (page, generation) = (self.page, self.generation);
        match &self.content {
            PageContent::Leaf(leaf) => {
                write_tree_page(1, leaf.len(), page, generation, leaf.bytes(), bytes)
            }
            PageContent::Branch(branch) => {
                write_tree_page(2, branch.len(), page, generation, branch.bytes(), bytes)
            }
            PageContent::Chain {
                next,
                bytes: content,
            } => write_chain_page(generation, page, *next, content, bytes),
            PageContent::FreeList { next, pages } => {
                write_free_list_page(generation, page, *next, pages, bytes)
            }
        }
    }

    /// The page of this number that these bytes are, in a file whose root has this generation.
    pub fn read(
        alloc: Global,
        bytes: &[u8; 4096],
        page: u32,
        generation: u64,
    ) -> Result<PageImage, PageFault>
        ensures { Gives PageFault.Memory model_of result (model_in page generation bytes.now) }
    {
        let generation = read_generation(bytes, page, generation)?;
        let count = LittleEndian::read_u16(&bytes[2..]) as usize;
        let content = read_content(alloc, bytes[0], count, &bytes[16..])?;
        Ok(PageImage {
            page,
            generation,
            content,
        })
    }
}
