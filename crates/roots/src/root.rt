//! A root sector.
ghost use Rattle.std.specs.Prelude.{◌≡◌, length};
ghost use Rattle.roots.specs.Root.{root_head, root_bytes, begins_right, fields_in, is_possible, is_sound, root_in};

use crate::opening::OpenFault;
use byteorder::{ByteOrder, LittleEndian};
use page::is_all_zero;

/// The bytes that a root sector begins with.
const MAGIC: [u8; 8] = *b"DOCPAGE1";
/// The format that this program writes, and the greatest that it reads.
const FORMAT: u32 = 1;
/// The bytes of a page.
const PAGE_SIZE: u32 = 4096;
/// The most pages that a file has.
pub const MAX_PAGES: u32 = 1_048_576;

/// What a commit makes durable: its number, the root page of its tree (0 where there are no entries), how many pages the file has,
/// with page 0, and the first page of the list of free pages and how many that names. Both are 0 where it names no list.
#[derive(Clone, Copy, Debug, PartialEq, Eq)]
pub struct Root {
    pub generation: u64,
    pub tree: u32,
    pub pages: u32,
    pub free_list: u32,
    pub free_count: u32,
}

/// The root of a file that was never committed.
const NO_ROOT: Root = Root {
    generation: 0,
    tree: 0,
    pages: 1,
    free_list: 0,
    free_count: 0,
};

fn begins_right(sector: &[u8]) -> bool
    requires { length sector.now ≡ 512 }
    ensures { result ≡ begins_right sector.now }
{
    LittleEndian::read_u64(&sector[0..]) == LittleEndian::read_u64(&MAGIC)
}

impl Root {
    /// The bytes of the root's sector up to the zeros.
    fn head(&self) -> [u8; 40]
        ensures { result ≡ root_head self.now }
    {
        let mut head = [0; 40];
        head[..8].copy_from_slice(&MAGIC);
        LittleEndian::write_u32(&mut head[8..12], FORMAT);
        LittleEndian::write_u32(&mut head[12..16], PAGE_SIZE);
        LittleEndian::write_u64(&mut head[16..24], self.generation);
        LittleEndian::write_u32(&mut head[24..28], self.tree);
        LittleEndian::write_u32(&mut head[28..32], self.pages);
        LittleEndian::write_u32(&mut head[32..36], self.free_list);
        LittleEndian::write_u32(&mut head[36..40], self.free_count);
        head
    }

    /// The sector that holds this root.
    pub fn sector(&self) -> [u8; 512]
        ensures { result ≡ root_bytes self.now }
    {
        let mut sector = [0; 512];
        sector[..40].copy_from_slice(&self.head());
        sector
    }

    /// The root whose fields stand in a sector.
    fn fields(sector: &[u8]) -> Root
        requires { length sector.now ≡ 512 }
        ensures { result ≡ fields_in sector.now }
    {
        Root {
            generation: LittleEndian::read_u64(&sector[16..]),
            tree: LittleEndian::read_u32(&sector[24..]),
            pages: LittleEndian::read_u32(&sector[28..]),
            free_list: LittleEndian::read_u32(&sector[32..]),
            free_count: LittleEndian::read_u32(&sector[36..]),
        }
    }

    fn is_possible(&self) -> bool
        ensures { result ≡ is_possible self.now }
    {
        0 < self.generation
            && self.tree < self.pages
            && self.pages <= MAX_PAGES
            && self.free_list < self.pages
            && self.free_count < self.pages
    }

    #[tactic(auto, unfolding(crate::specs::Root::is_sound))]
    /// Whether a commit may have written a sector of this program's format.
    fn is_sound(sector: &[u8]) -> bool
        requires { length sector.now ≡ 512 }
        ensures { result ≡ is_sound sector.now }
    {
        if LittleEndian::read_u32(&sector[8..]) != FORMAT {
            return false;
        }
        if LittleEndian::read_u32(&sector[12..]) != PAGE_SIZE {
            return false;
        }
        if !Root::fields(sector).is_possible() {
            return false;
        }
        is_all_zero(&sector[40..])
    }

    /// The root in a sector. Zeros are the root of a file that was never committed.
    pub(crate) fn read(sector: &[u8; 512]) -> Result<Root, OpenFault>
        ensures { result ≡ root_in sector.now }
    {
        if is_all_zero(sector) {
            return Ok(NO_ROOT);
        }
        if !begins_right(sector) {
            return Err(OpenFault::NotADatabase);
        }
        if LittleEndian::read_u32(&sector[8..]) > FORMAT {
            return Err(OpenFault::NewerFormat);
        }
        if Root::is_sound(sector) {
            Ok(Root::fields(sector))
        } else {
            Err(OpenFault::Damaged)
        }
    }
}
