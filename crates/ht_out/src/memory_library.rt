//! Files in memory.
ghost use Rattle.std.specs.Prelude.{◌≡◌, ◌<◌, ◌≤◌, ◌+◌, ◌-◌, ◌^◌, ◌↔◌, ◌⊎◌, Some, length, IfOk, IfSome, IsErrOf, All, Contains, MatchOption, take, map};
ghost use Rattle.ht_out.specs.Counts.{Rose, next_count};
ghost use Rattle.ht_out.specs.FileMaps.{Misses, Finds, Gives};

use crate::{Fetch, Library};
use ht_word::List;
use std::alloc::Global;
use std::marker::Model;

/// A list of bytes.
pub type Bytes = List<u8>;

/// A file: its name and its bytes.
#[derive(Drop)]
pub struct FileEntry {
    pub name: Bytes,
    pub bytes: Bytes,
}

/// A list of files. Where two have one name, the first stands.
pub type Files = List<FileEntry>;

/// Files in memory. Fails exactly at the calls whose numbers are listed, and where the name is
/// missing; the count of faults rises at the first of these alone.
#[derive(Drop)]
pub struct MemLibrary {
    files: Files,
    fail: Vec<u64>,
    calls: u64,
    faults: u64,
}

impl Model for MemLibrary {
    ghost use Rattle.std.specs.Prelude.{◌≡◌, map};
    ghost use Rattle.ht_out.specs.InMemory.{LibraryState};

    ghost Value = { LibraryState };

    ghost view = { λ s. record {
      files = map (λ f. (f.name, f.bytes)) s.files;
      fail = s.fail.items;
      calls = s.calls;
      faults = s.faults;
    } };
}

impl MemLibrary {
    /// A library of these files. Calls are counted from 0. Takes no memory.
    pub fn new(files: Files, fail: Vec<u64>) -> MemLibrary
        requires { All (λ k. k < 2 ^ 64 - 1) fail.items }
        ensures { result ≡ record { files = map (λ f. (f.name, f.bytes)) files; fail = fail.items; calls = 0; faults = 0 } }
    {
        MemLibrary {
            files,
            fail,
            calls: 0,
            faults: 0,
        }
    }
}

impl Library for MemLibrary {
    ghost files = { λ s. Some s.files };

    ghost faults = { λ s. s.faults };

    ghost asked = { λ s. s.calls };

    fn fetch(&mut self, alloc: Global, name: &str, most: usize) -> Result<Vec<u8>, Fetch>
        requires { most < 2 ^ 64 - 1 }
        ensures files { Some self.new.files ≡ Some self.old.files }
        ensures length { IfOk result (λ bytes. length bytes.items ≤ most + 1) }
        ensures bytes { IfOk result (λ bytes. Gives self.old.files name.now most bytes.items) }
        ensures later { self.old.faults ≤ self.new.faults }
        ensures kept { IfOk result (λ bytes. self.new.faults ≡ self.old.faults) }
        ensures failed { IsErrOf result Fetch.Failed → Rose self.old.faults self.new.faults ⊎ Misses (Some self.old.files) name.now }
        ensures counted { self.new.calls ≡ next_count self.old.calls }

        ensures exact { IsErrOf result Fetch.Failed ↔ (Contains self.old.fail self.old.calls ⊎ Misses (Some self.old.files) name.now) }
        ensures listed { Contains self.old.fail self.old.calls → self.new.faults ≡ next_count self.old.faults }
        ensures unlisted { ¬ Contains self.old.fail self.old.calls → self.new.faults ≡ self.old.faults }
        ensures rest { self.new.fail ≡ self.old.fail }
    {
        let failing = self.fail.contains(&self.calls);
        self.calls = self.calls.saturating_add(1);
        if failing {
            self.faults = self.faults.saturating_add(1);
            return Err(Fetch::Failed);
        }
        match find_file(self.files.as_slice(), name.as_bytes()) {
            None => Err(Fetch::Failed),
            Some(file) => front(alloc, file, most),
        }
    }
}

// The bytes of the first file of this name.
fn find_file<'a>(files: &'a [FileEntry], name: &[u8]) -> Option<&'a [u8]>
    ensures { MatchOption result
        (Misses (Some (map (λ f. (f.name, f.bytes)) files.now)) name.now)
        (λ bytes. Finds (map (λ f. (f.name, f.bytes)) files.now) name.now bytes.now) }
{
    for file in files {
        if file.name.as_slice() == name {
            return Some(file.bytes.as_slice());
        }
    }
    None
}

fn front(alloc: Global, file: &[u8], most: usize) -> Result<Vec<u8>, Fetch>
    requires { most < 2 ^ 64 - 1 }
    ensures bytes { IfOk result (λ bytes. bytes.items ≡ take (most + 1) file.now) }
    ensures failed { IsErrOf result Fetch.Failed → ⊥ }
{
    let count = file.len().min(most + 1);
    match Vec::from_slice(alloc, &file[..count]) {
        Ok(bytes) => Ok(bytes),
        Err(_) => Err(Fetch::NoMemory),
    }
}
