//! A disk in a file. It promises nothing: what a file keeps can't be known here.
ghost use Rattle.std.specs.Prelude.{◌≡◌, ◌≤◌, length};
ghost use Rattle.page.specs.Unknown.{unknown_history};

use crate::{DeviceFault, Disk};
use std::alloc::Global;
use std::fs::{File, OpenOptions, TryLockError};
use std::io;
use std::os::unix::fs::FileExt;
use std::rt::Files;

/// The bytes of a sector.
const SECTOR: usize = 512;
/// The most bytes that are gathered into one write: those of sixteen pages.
const GATHERED: usize = 65_536;
/// The sectors that are read at once: those of a page.
const PAGE_SECTORS: u64 = 8;

/// Why a file isn't opened.
#[derive(Clone, Copy, Debug, PartialEq, Eq)]
pub enum FileFault {
    /// The file can't be opened, made or locked, its folder can't be opened or synced, or memory ran out for its buffer.
    Device = 1,
    /// Someone has the file open to write it, or to read it where it is to be written.
    Locked,
}

impl FileFault {
    ghost use Rattle.page.specs.FaultNames.{file_fault_name};

    /// The fault's name, as it is printed.
    pub fn name(self) -> &'static str
        ensures { result.now ≡ file_fault_name self }
    {
        match self {
            FileFault::Device => "Device",
            FileFault::Locked => "Locked",
        }
    }
}

/// Sectors of a file, which is locked while it is open. Writes of sectors that lie side by side are gathered into one, and
/// a page is read at once. After a write or a sync that failed, each later call fails.
#[derive(Drop)]
pub struct FileDisk {
    file: File,
    // writes that were not handed on yet, from this sector on
    first: u64,
    gathered: Vec<u8>,
    // a write or a sync failed, so what the file holds isn't known any more
    has_failed: bool,
    // the page that was read last
    page: Option<u64>,
    bytes: [u8; 4096],
}

impl FileDisk {
    /// Opens a file for reading and writing. Where that is asked for, it makes a missing one, and syncs the folder whether it was
    /// missing or not. No one else can open it meanwhile.
    pub fn open<R: Files<File = File> + AllocGlobal>(
        rt: &R,
        path: &str,
        make: bool,
    ) -> Result<FileDisk, FileFault> {
        let file = if make {
            open_or_make(rt, path)
        } else {
            open_file(rt, path)
        };
        let Ok(file) = file else {
            return Err(FileFault::Device);
        };
        lock_answer(file.try_lock())?;
        FileDisk::over(rt.alloc(), file)
    }

    /// Opens a file for reading alone. Others can do so at the same time, and none can open it to write.
    pub fn open_to_read<R: Files<File = File> + AllocGlobal>(
        rt: &R,
        path: &str,
    ) -> Result<FileDisk, FileFault> {
        let Ok(file) = File::open(rt, path) else {
            return Err(FileFault::Device);
        };
        lock_answer(file.try_lock_shared())?;
        FileDisk::over(rt.alloc(), file)
    }

    fn over(alloc: Global, file: File) -> Result<FileDisk, FileFault> {
        match Vec::with_capacity(alloc, GATHERED) {
            Ok(gathered) => Ok(FileDisk {
                file,
                first: 0,
                gathered,
                has_failed: false,
                page: None,
                bytes: [0; 4096],
            }),
            Err(_) => Err(FileFault::Device),
        }
    }

    /// Hands on the writes that were gathered.
    fn flush(&mut self) -> Result<(), DeviceFault> {
        if self.has_failed {
            return Err(DeviceFault);
        }
        if self.gathered.is_empty() {
            return Ok(());
        }
        let place = self.first.wrapping_mul(512);
        let written = self.file.write_all_at(&self.gathered, place);
        self.gathered.clear();
        self.has_failed = written.is_err();
        written.map_err(|_| DeviceFault)
    }

    /// Whether a sector lies right behind those that are gathered, and finds room there.
    fn goes_on(&self, sector: u64) -> bool {
        let sectors = (self.gathered.len() / SECTOR) as u64;
        self.gathered.len() < GATHERED && self.first.wrapping_add(sectors) == sector
    }

    /// Reads a page, with zeros for what lies past the file's end.
    fn load(&mut self, page: u64) -> Result<(), DeviceFault> {
        self.page = None;
        read_or_zeros(&self.file, &mut self.bytes, page.wrapping_mul(4096)).map_err(
            |_| DeviceFault,
        )?;
        self.page = Some(page);
        Ok(())
    }
}

/// What the answer to a lock says of an opening.
fn lock_answer(answer: Result<(), TryLockError>) -> Result<(), FileFault> {
    match answer {
        Ok(()) => Ok(()),
        Err(TryLockError::WouldBlock) => Err(FileFault::Locked),
        Err(TryLockError::Error(_)) => Err(FileFault::Device),
    }
}

fn open_file<R: Files<File = File>>(rt: &R, path: &str) -> io::Result<File> {
    OpenOptions::new().read(true).write(true).open(rt, path)
}

/// Opens a file, or makes it where it is missing, and makes durable that it stands in its folder. One that is there needs that
/// too: whoever made it may have ended before.
fn open_or_make<R: Files<File = File>>(rt: &R, path: &str) -> io::Result<File> {
    let file = File::create_new(rt, path).or_else(|_| open_file(rt, path))?;
    File::open(rt, folder_of(path))?.sync_all()?;
    Ok(file)
}

/// The folder of a file.
fn folder_of(path: &str) -> &str {
    match path.rsplit_once('/') {
        Some(("", _)) => "/",
        Some((folder, _)) => folder,
        None => ".",
    }
}

/// Fills a buffer from a place in the file on; what lies past the file's end is zeros.
fn read_or_zeros(file: &File, buffer: &mut [u8], place: u64) -> io::Result<()> {
    let mut filled = 0;
    for _ in 0..u64::MAX {
        if filled >= buffer.len() {
            break;
        }
        match file.read_at(&mut buffer[filled..], place.wrapping_add(filled as u64)) {
            Ok(0) => break,
            Ok(count) => filled += count,
            Err(error) => {
                if error.kind() != io::ErrorKind::Interrupted {
                    return Err(error);
                }
            }
        }
    }
    if let Some(rest) = buffer.get_mut(filled..) {
        rest.fill(0);
    }
    Ok(())
}

impl Disk for FileDisk {
    ghost history = { λ _. unknown_history };

    fn read(&mut self, sector: u64, bytes: &mut [u8; 512]) -> Result<(), DeviceFault> {
        self.flush()?;
        let page = sector / PAGE_SECTORS;
        if self.page != Some(page) {
            self.load(page)?;
        }
        let at = SECTOR * (sector % PAGE_SECTORS) as usize;
        bytes.copy_from_slice(&self.bytes[at..at + SECTOR]);
        Ok(())
    }

    fn write(&mut self, sector: u64, bytes: &[u8; 512]) -> Result<(), DeviceFault> {
        if self.has_failed {
            return Err(DeviceFault);
        }
        if self.page == Some(sector / PAGE_SECTORS) {
            self.page = None;
        }
        if !self.goes_on(sector) {
            self.flush()?;
            self.first = sector;
        }
        self.gathered
            .extend_from_slice(bytes)
            .map_err(|_| DeviceFault)
    }

    fn sync(&mut self) -> Result<(), DeviceFault> {
        self.flush()?;
        let synced = self.file.sync_data();
        self.has_failed = synced.is_err();
        synced.map_err(|_| DeviceFault)
    }
}
