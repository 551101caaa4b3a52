//! Files of the system.
ghost use Rattle.std.specs.Prelude.{◌≡◌, ◌+◌, ◌<◌, ◌≤◌, ℕ, List, Option, None, IfOk, IfErr, OnOk, length, ◌++◌, vec_len};
ghost use Rattle.std.specs.Io.KnownBytes.{Consumes, IsAtEnd};
ghost use Rattle.cov_base.specs.Amounts.{LoadsAtMost};
ghost use Rattle.cov_base.specs.Loads.{Loads};
ghost use Rattle.cov_net.specs.Sizes.{IsCauseOf, IsSize, IsReadRefusal, ReadsAll, IsLoaded};
ghost use Rattle.cov_net.specs.Counted.{CountedLoad, IsUntoldRefusal};

use crate::again::{metadata_again, open_again, read_again};
use crate::calls::{Disk, ReadCall};
use cov_base::{Shelf, ShelfRefusal};
use std::alloc::Global;
use std::fs::Metadata;
use std::io;
use std::io::ErrorKind;
use std::marker::Model;

/// The bytes that one read asks for.
const PIECE: usize = 65_536;

/// Why a file can't be had after such an error.
fn refusal_of(error: &io::Error) -> ShelfRefusal
    ensures cause { IsCauseOf error.now result }
{
    if error.kind() == ErrorKind::OutOfMemory {
        ShelfRefusal::Memory
    } else {
        ShelfRefusal::Failed
    }
}

/// The bytes that the system says that the file has. A directory can't be read.
fn size_of(metadata: &Metadata, most: u64) -> Result<u64, ShelfRefusal>
    ensures size { IsSize metadata.now most result }
    ensures refusal { IfErr result (λ cause. IsUntoldRefusal most cause) }
{
    if metadata.is_dir() {
        return Err(ShelfRefusal::Failed);
    }
    let size = metadata.len();
    if size > most {
        return Err(ShelfRefusal::TooLong { size });
    }
    Ok(size)
}

/// Appends what one read brings, and says how many bytes that was.
fn append_piece<F: ReadCall>(
    file: &mut F,
    room: &mut [u8],
    bytes: &mut Vec<u8>,
    most: u64,
) -> Result<usize, ShelfRefusal>
    requires room { 0 < length room.old }
    requires most { vec_len bytes.old ≤ most }
    ensures room { length room.new ≡ length room.old }
    ensures bound { IfOk result (λ n. vec_len bytes.new ≤ most) }
    ensures longer { IfOk result (λ n. vec_len bytes.new ≡ vec_len bytes.old + n) }
    ensures refusal { IfErr result (IsReadRefusal F.remaining F.reads file.old file.new
        (vec_len bytes.old) most (length room.old)) }
    ensures bytes { IfOk result (λ n. (piece : List ℕ) × (length piece ≡ n)
        × (bytes.new.items ≡ bytes.old.items ++ piece)
        × Consumes (F.remaining file.old) (F.remaining file.new) piece) }
    ensures end { IfOk result (λ n. n ≡ 0 → IsAtEnd (F.remaining file.new)) }
{
    let count = match read_again(file, room) {
        Ok(count) => count,
        Err(error) => return Err(refusal_of(&error)),
    };
    let seen = bytes.len() as u64 + count as u64;
    if seen > most {
        return Err(ShelfRefusal::TooLong { size: seen });
    }
    match bytes.extend_from_slice(&room[..count]) {
        Ok(()) => Ok(count),
        Err(_) => Err(ShelfRefusal::Memory),
    }
}

/// All bytes that the file has left, `size` of them as the system says. No more than `most` bytes are kept.
pub(crate) fn read_whole<F: ReadCall>(
    file: &mut F,
    alloc: Global,
    size: u64,
    most: u64,
) -> Result<Vec<u8>, ShelfRefusal>
    ensures bound { LoadsAtMost result most }
    ensures refusal { IfErr result
        (IsReadRefusal F.remaining F.reads file.old file.new 0 most PIECE) }
    ensures bytes { IfOk result (λ bytes. ReadsAll F.remaining F.reads file.old bytes.items) }
{
    let capacity = size.min(most) as usize;
    let mut bytes = Vec::with_capacity(alloc, capacity).map_err(|_| ShelfRefusal::Memory)?;
    let mut room = Vec::new(alloc);
    room.resize(PIECE, 0u8).map_err(|_| ShelfRefusal::Memory)?;
    while bytes.len() as u64 <= most {
        match append_piece(file, room.as_mut_slice(), &mut bytes, most) {
            Ok(count) if count == 0 => return Ok(bytes),
            Ok(_) => {}
            Err(cause) => return Err(cause),
        }
    }
    // no more bytes are kept
    Err(ShelfRefusal::Failed)
}

/// The file's bytes. Where the system says that it has more than `most`, none is read.
fn read_file<D: Disk>(
    disk: &D,
    alloc: Global,
    name: &str,
    most: u64,
) -> Result<Vec<u8>, ShelfRefusal>
    ensures bound { LoadsAtMost result most }
    ensures loaded { IsLoaded (D.opens name.now) D.tells D.Opened.remaining D.Opened.reads most PIECE result }
{
    let mut file = match open_again(disk, name) {
        Ok(file) => file,
        Err(error) => return Err(refusal_of(&error)),
    };
    let metadata = match metadata_again(disk, &file) {
        Ok(metadata) => metadata,
        Err(error) => return Err(refusal_of(&error)),
    };
    let size = size_of(&metadata, most)?;
    read_whole(&mut file, alloc, size, most)
}

/// The files of the system, each by its path. A directory can't be read. Contracts see how often a load failed.
#[derive(Drop)]
pub struct FileShelf<'a, R> {
    rt: &'a R,
    faults: u64,
}

impl<'a, R> Model for FileShelf<'a, R> {
    ghost use Rattle.std.specs.Prelude.{ℕ};

    ghost Value = { ℕ };

    ghost view = { λ s. s.faults };
}

impl<'a, R> FileShelf<'a, R> {
    /// A shelf that hasn't failed yet.
    pub fn new(rt: &'a R) -> Self
        ensures { result ≡ 0 }
    {
        FileShelf { rt, faults: 0 }
    }
}

impl<D: Disk> Shelf for FileShelf<'_, D>
where
    D::Opened: ReadCall,
{
    ghost files = { λ s. None };

    ghost faults = { λ s. s };

    fn load(&mut self, alloc: Global, name: &str, most: u64) -> Result<Vec<u8>, ShelfRefusal>
        ensures same { ◌≡◌ {A = Option (List (List ℕ × List ℕ))} None None }
        ensures later { self.old ≤ self.new }
        ensures bound { LoadsAtMost result most }
        ensures loads { Loads None self.old self.new name.now most result }
        ensures count { CountedLoad self.old self.new result }
        ensures loaded { IsLoaded (D.opens name.now) D.tells D.Opened.remaining D.Opened.reads most PIECE result }
    {
        let answer = read_file(self.rt, alloc, name, most);
        match answer {
            Ok(_) | Err(ShelfRefusal::Memory) => {}
            Err(_) => self.faults = self.faults.saturating_add(1),
        }
        answer
    }
}
