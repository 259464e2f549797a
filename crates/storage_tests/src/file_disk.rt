//! A disk in a file: the same calls as on one in memory, who may open it, and what a failure leaves.

use page::{DeviceFault, Disk, FileDisk, FileFault, MemDisk};
use std::fs;
use std::test::Fail;

/// Whether both disks give the same bytes of the sectors from one up to another.
fn same_sectors(file: &mut FileDisk, memory: &mut MemDisk, from: u64, to: u64) -> bool {
    for sector in from..to {
        let mut one = [1; 512];
        let mut other = [2; 512];
        let read = file.read(sector, &mut one).is_ok() && memory.read(sector, &mut other).is_ok();
        if !read || one != other {
            return false;
        }
    }
    true
}

/// Writes so many neighbouring sectors.
fn write_run(file: &mut FileDisk, memory: &mut MemDisk, first: u64, count: u64, seed: u8) -> bool {
    for i in 0..count {
        let mut bytes = [seed; 512];
        bytes[7] = (i % 256) as u8;
        let sector = first.wrapping_add(i);
        if file.write(sector, &bytes).is_err() || memory.write(sector, &bytes).is_err() {
            return false;
        }
    }
    true
}

/// One call, or a run of writes, on both, by numbers that look random. Whether both gave the same.
fn step(file: &mut FileDisk, memory: &mut MemDisk, random: u64) -> bool {
    let sector = random % 64;
    match random / 64 % 8 {
        0 => file.sync().is_ok() && memory.sync().is_ok(),
        1 | 2 | 3 => same_sectors(file, memory, sector, sector + 1),
        _ => write_run(
            file,
            memory,
            sector,
            random / 512 % 16,
            (random / 8_192 % 256) as u8,
        ),
    }
}

/// The first of two thousand steps after which the two differ.
fn first_wrong_step(file: &mut FileDisk, memory: &mut MemDisk) -> Option<u32> {
    let mut random: u64 = 88_172_645_463_325_252;
    for i in 0..2000 {
        random ^= random << 13;
        random ^= random >> 7;
        random ^= random << 17;
        if !step(file, memory, random) {
            return Some(i);
        }
    }
    None
}

/// Two thousand steps. What was synced is there when the file is opened again, also where it would have been made.
#[test]
fn a_file_beside_memory(rt: HostRuntime) -> Result<(), Fail> {
    let path = "storage_tests_random_calls";
    let Ok(mut file) = FileDisk::open(&rt, path, true) else {
        panic!(&rt; "the file isn't made");
    };
    let mut memory = MemDisk::new(rt.alloc());
    let wrong = first_wrong_step(&mut file, &mut memory);
    let synced = same_sectors(&mut file, &mut memory, 0, 128) && file.sync().is_ok();
    drop(file);
    let Ok(mut again) = FileDisk::open(&rt, path, true) else {
        panic!(&rt; "the file isn't opened again");
    };
    let kept = same_sectors(&mut again, &mut memory, 0, 128);
    drop(again);
    drop(memory);
    assert_eq!(rt; wrong, None);
    assert!(rt; synced && kept);
    fs::remove_file(&rt, path)?;
    Ok(())
}

/// One writer, or many readers.
#[test]
fn a_file_is_locked(rt: HostRuntime) -> Result<(), Fail> {
    let path = "storage_tests_locks";
    let Ok(writer) = FileDisk::open(&rt, path, true) else {
        panic!(&rt; "the file isn't made");
    };
    assert!(rt; FileDisk::open(&rt, path, true).err() == Some(FileFault::Locked));
    assert!(rt; FileDisk::open_to_read(&rt, path).err() == Some(FileFault::Locked));
    drop(writer);
    let Ok(reader) = FileDisk::open_to_read(&rt, path) else {
        panic!(&rt; "the lock is still held");
    };
    assert!(rt; FileDisk::open_to_read(&rt, path).err().is_none());
    assert!(rt; FileDisk::open(&rt, path, false).err() == Some(FileFault::Locked));
    drop(reader);
    assert!(rt; FileDisk::open(&rt, path, false).err().is_none());
    fs::remove_file(&rt, path)?;
    assert!(rt; FileDisk::open(&rt, path, false).err() == Some(FileFault::Device));
    Ok(())
}

/// Whether a disk is read and written, and then not synced.
fn works_till_sync(disk: &mut FileDisk) -> bool {
    let mut bytes = [1; 512];
    let read = disk.read(3, &mut bytes).is_ok() && bytes == [0; 512];
    let written = disk.write(0, &bytes).is_ok();
    read && written && disk.sync() == Err(DeviceFault)
}

fn each_call_fails(disk: &mut FileDisk) -> bool {
    let mut bytes = [1; 512];
    let synced = disk.sync();
    let read = disk.read(3, &mut bytes);
    let written = disk.write(0, &bytes);
    synced == Err(DeviceFault) && read == Err(DeviceFault) && written == Err(DeviceFault)
}

/// A file that can't be written: after the first failure each call fails.
#[test]
fn a_failure_stays(rt: HostRuntime) -> Result<(), Fail> {
    let path = "storage_tests_failure";
    fs::write(&rt, path, b"")?;
    let Ok(mut disk) = FileDisk::open_to_read(&rt, path) else {
        panic!(&rt; "the file isn't opened");
    };
    let (works, fails) = (works_till_sync(&mut disk), each_call_fails(&mut disk));
    drop(disk);
    assert!(rt; works && fails);
    fs::remove_file(&rt, path)?;
    Ok(())
}

/// The first of sixteen calls that is done after one has failed.
fn first_gone_on(disk: &mut FileDisk) -> Option<u64> {
    let mut has_failed = false;
    for i in 0..16 {
        let mut bytes = [1; 512];
        let call = match i % 4 {
            0 | 1 => disk.write(8 * i + 8, &bytes),
            2 => disk.sync(),
            _ => disk.read(0, &mut bytes),
        };
        if has_failed && call.is_ok() {
            return Some(i);
        }
        has_failed = call.is_err();
    }
    None
}

/// Once a call has failed, each later one fails. `tests/file_calls` refuses each write and each sync of this test in turn.
#[test]
fn a_refused_call_stays(rt: HostRuntime) -> Result<(), Fail> {
    let path = "storage_tests_refused";
    fs::write(&rt, path, b"")?;
    let Ok(mut disk) = FileDisk::open(&rt, path, false) else {
        panic!(&rt; "the file isn't opened");
    };
    let gone_on = first_gone_on(&mut disk);
    drop(disk);
    assert_eq!(rt; gone_on, None);
    fs::remove_file(&rt, path)?;
    Ok(())
}
