//! A library over the current folder.
ghost use Rattle.std.specs.Prelude.{◌≡◌, ◌≤◌, ◌<◌, ◌+◌, ◌-◌, ◌^◌, None, length, take, IfOk, IfSome, IsErrOf};
ghost use Rattle.ht_out.specs.Counts.{Rose};

use crate::{Fetch, Library, ReadSource, Source};
use std::alloc::Global;
use std::rt::Files;
use std::{fs, io};

/// The files of the current folder, of which it tells nothing. Each fetch that fails raises the
/// count of faults, also where no file has the name. A read that fails is a failure of the fetch,
/// whatever its reason, and isn't tried again.
#[derive(Drop)]
pub struct FolderLibrary<'a, R> {
    rt: &'a R,
    faults: u64,
    asked: u64,
}

impl<'a, R: Files> FolderLibrary<'a, R> {
    /// The library of the current folder, with no fault and no fetch yet. Takes no memory.
    pub fn new(rt: &'a R) -> FolderLibrary<'a, R>
        ensures files { ⟦<Self as Library>⟧.files result ≡ None }
        ensures faults { ⟦<Self as Library>⟧.faults result ≡ 0 }
        ensures asked { ⟦<Self as Library>⟧.asked result ≡ 0 }
    {
        FolderLibrary {
            rt,
            faults: 0,
            asked: 0,
        }
    }
}

impl<'a, R: Files> Library for FolderLibrary<'a, R> {
    ghost files = { λ s. None };

    ghost faults = { λ s. s.faults };

    ghost asked = { λ s. s.asked };

    fn fetch(&mut self, alloc: Global, name: &str, most: usize) -> Result<Vec<u8>, Fetch> {
        self.asked = self.asked.saturating_add(1);
        let outcome = fetch_front(self.rt, alloc, name, most);
        if let Err(Fetch::Failed) = outcome {
            self.faults = self.faults.saturating_add(1);
        }
        outcome
    }
}

// The first `most` bytes of the file of this name and one more, or all where there are fewer.
fn fetch_front<R: Files>(rt: &R, alloc: Global, name: &str, most: usize) -> Result<Vec<u8>, Fetch>
    requires { most < 2 ^ 64 - 1 }
    ensures { IfOk result (λ bytes. length bytes.items ≤ most + 1) }
{
    let file = fs::open(rt, name).map_err(fetch_of)?;
    read_front(alloc, &mut ReadSource::new(file), most)
}

// The next `most` bytes of a source and one more, or all where there are fewer. Fails where a read
// did.
fn read_front<S: Source>(alloc: Global, source: &mut S, most: usize) -> Result<Vec<u8>, Fetch>
    requires { most < 2 ^ 64 - 1 }
    ensures length { IfOk result (λ bytes. length bytes.items ≤ most + 1) }
    ensures bytes { IfOk result (λ bytes. IfSome (S.left source.old) (λ left. bytes.items ≡ take (most + 1) left)) }
    ensures kept { IfOk result (λ bytes. S.faults source.new ≡ S.faults source.old) }
    ensures failed { IsErrOf result Fetch.Failed → Rose (S.faults source.old) (S.faults source.new) }
{
    let mut buffer = [0u8; 4096];
    let mut bytes = Vec::new(alloc);
    'read: while bytes.len() <= most {
        let room = (most - bytes.len()).min(4095) + 1;
        let Ok(count) = source.next(&mut buffer[..room]) else {
            return Err(Fetch::Failed);
        };
        if count == 0 {
            return Ok(bytes);
        }
        let Ok(()) = bytes.extend_from_slice(&buffer[..count]) else {
            return Err(Fetch::NoMemory);
        };
    }
    Ok(bytes)
}

// Why no file was opened.
fn fetch_of(error: io::Error) -> Fetch {
    match error.kind() {
        io::ErrorKind::OutOfMemory => Fetch::NoMemory,
        _ => Fetch::Failed,
    }
}
