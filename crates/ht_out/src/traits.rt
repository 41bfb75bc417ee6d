//! What is asked of a source, a sink and a library.
ghost use Rattle.std.specs.Prelude.{◌≡◌, ◌+◌, ◌-◌, ◌^◌, ◌<◌, ◌≤◌, ◌⊎◌, List, ℕ, Option, length, take, IfOk, IfSome, IsErrOf};
ghost use Rattle.std.specs.Io.{ReadsAtMost};
ghost use Rattle.std.specs.Io.KnownBytes.{ReadConsumes, WriteAppends};
ghost use Rattle.ht_out.specs.Counts.{Rose, HasCause, Takes, next_count};
ghost use Rattle.ht_out.specs.FileMaps.{Misses, Gives};

use std::alloc::Global;
use thiserror::Error;

/// The outside has failed, and nothing was taken or appended.
#[derive(Clone, Copy, Debug, PartialEq, Eq, Error)]
#[error("the outside has failed")]
pub struct Failed;

/// Why a file wasn't given.
#[derive(Clone, Copy, Debug, PartialEq, Eq, Error)]
pub enum Fetch {
    /// The library failed, or has no file of this name.
    #[error("there is no such file")]
    Failed,
    /// No memory was found for the bytes.
    #[error("out of memory")]
    NoMemory,
}

/// What gives bytes, in pieces of its choice.
pub trait Source {
    /// The bytes left, where they are told.
    ghost left: { Self → Option (List ℕ) };

    /// The number of bytes taken, which ends at 2^64-1.
    ghost taken: { Self → ℕ };

    /// The count of faults, which ends at 2^64-1.
    ghost faults: { Self → ℕ };

    /// Fills the front of `buf` with the next bytes, and gives how many; 0 is the end. Fails only
    /// where the count of faults rose, and then takes nothing; where it doesn't fail the count stays.
    fn next(&mut self, buf: &mut [u8]) -> Result<usize, Failed>
        requires { 0 < length buf.old }
        ensures bound { ReadsAtMost result buf.new }
        ensures bytes { ReadConsumes (left self.old) (left self.new) result buf.new }
        ensures taken { Takes (taken self.old) (taken self.new) result }
        ensures cause { HasCause (faults self.old) (faults self.new) result };
}

/// What takes bytes, in pieces of its choice.
pub trait Sink {
    /// The bytes held, where they are told.
    ghost held: { Self → Option (List ℕ) };

    /// The count of faults, which ends at 2^64-1.
    ghost faults: { Self → ℕ };

    /// Appends the front of `bytes`, and gives how many, at least one. Fails only where the count
    /// of faults rose, and then appends nothing; where it doesn't fail the count stays.
    fn put(&mut self, bytes: &[u8]) -> Result<usize, Failed>
        requires { 0 < length bytes.now }
        ensures bound { IfOk result (λ n. (1 ≤ n) × (n ≤ length bytes.now)) }
        ensures bytes { WriteAppends (held self.old) (held self.new) result bytes.now }
        ensures cause { HasCause (faults self.old) (faults self.new) result };
}

/// What holds files by their names.
pub trait Library {
    /// The files by name, where they are told. The first of a name stands.
    ghost files: { Self → Option (List (List ℕ × List ℕ)) };

    /// The count of faults, which ends at 2^64-1.
    ghost faults: { Self → ℕ };

    /// The number of fetches made, which ends at 2^64-1.
    ghost asked: { Self → ℕ };

    /// The first `most` bytes of a file and one more, or all where there are fewer. `Failed` comes
    /// only where the count of faults rose, or the files are told and none has this name; where the
    /// bytes are given the count stays. Each call is one fetch, whatever comes of it.
    fn fetch(&mut self, alloc: Global, name: &str, most: usize) -> Result<Vec<u8>, Fetch>
        requires { most < 2 ^ 64 - 1 }
        ensures files { files self.new ≡ files self.old }
        ensures length { IfOk result (λ bytes. length bytes.items ≤ most + 1) }
        ensures bytes { IfOk result (λ bytes. IfSome (files self.old) (λ files. Gives files name.now most bytes.items)) }
        ensures later { faults self.old ≤ faults self.new }
        ensures kept { IfOk result (λ bytes. faults self.new ≡ faults self.old) }
        ensures failed { IsErrOf result Fetch.Failed → Rose (faults self.old) (faults self.new) ⊎ Misses (files self.old) name.now }
        ensures counted { asked self.new ≡ next_count (asked self.old) };
}
