//! A source over any reader.
ghost use Rattle.std.specs.Prelude.{◌≡◌};

use crate::{Failed, Source};
use std::io::Read;

/// A source over a reader, which tells the bytes left where the reader does. Each failed read
/// raises the count of faults.
#[derive(Drop)]
pub struct ReadSource<R> {
    reader: R,
    taken: u64,
    faults: u64,
}

impl<R: Read> ReadSource<R> {
    /// The source of what the reader gives, with no byte taken and no fault yet. Takes no memory.
    pub fn new(reader: R) -> ReadSource<R>
        ensures left { ⟦<ReadSource<R> as Source>⟧.left result ≡ R.remaining reader }
        ensures taken { ⟦<ReadSource<R> as Source>⟧.taken result ≡ 0 }
        ensures faults { ⟦<ReadSource<R> as Source>⟧.faults result ≡ 0 }
    {
        ReadSource {
            reader,
            taken: 0,
            faults: 0,
        }
    }
}

impl<R: Read> Source for ReadSource<R> {
    ghost left = { λ s. R.remaining s.reader };

    ghost taken = { λ s. s.taken };

    ghost faults = { λ s. s.faults };

    fn next(&mut self, buf: &mut [u8]) -> Result<usize, Failed> {
        match self.reader.read(buf) {
            Ok(count) => {
                self.taken = self.taken.saturating_add(count as u64);
                Ok(count)
            }
            Err(_) => {
                self.faults = self.faults.saturating_add(1);
                Err(Failed)
            }
        }
    }
}
