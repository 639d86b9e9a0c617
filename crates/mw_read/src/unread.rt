//! Bytes that were fed and not read.
ghost use Rattle.std.specs.Prelude.{◌≡◌, ◌≤◌, [], ◌++◌, length, drop, OnOk, OnErr};

use mw_heap::Memory;
use std::alloc::Global;
use std::marker::Model;

/// The unread bytes, after at most as many that were read.
#[derive(Drop)]
pub(crate) struct Unread {
    bytes: Vec<u8>,
    read: usize,
}

impl Model for Unread {
    ghost use Rattle.std.specs.Prelude.{List, ℕ, ◌+◌, ◌≤◌, length, drop};

    ghost Value = { List ℕ };

    ghost view = { λ u. drop u.read u.bytes.items };

    ghost invariant = { λ u. u.read + u.read ≤ length u.bytes.items };
}

impl Unread {
    /// No bytes.
    pub(crate) fn new(alloc: Global) -> Unread
        ensures { result ≡ [] }
    {
        Unread {
            bytes: Vec::new(alloc),
            read: 0,
        }
    }

    /// The unread bytes, in order.
    pub(crate) fn as_slice(&self) -> &[u8]
        ensures { result.now ≡ self.now }
    {
        &self.bytes[self.read..]
    }

    /// Puts bytes after those that are unread.
    pub(crate) fn add(&mut self, bytes: &[u8]) -> Result<(), Memory>
        ensures added { OnOk result (self.new ≡ self.old ++ bytes.now) }
        ensures err { OnErr result (self.new ≡ self.old) }
    {
        self.bytes.extend_from_slice(bytes)?;
        Ok(())
    }

    /// The first n bytes are read. What is unread is moved only where as many bytes were read before.
    pub(crate) fn pass(&mut self, n: usize)
        requires { n ≤ length self.old }
        ensures { self.new ≡ drop n self.old }
    {
        self.read += n;
        let left = self.bytes.len() - self.read;
        if left < self.read {
            self.bytes.copy_within(self.read.., 0);
            self.bytes.truncate(left);
            self.read = 0;
        }
    }
}
