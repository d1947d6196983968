//! Rows of digests, whose room is reserved before they are filled.
ghost use Rattle.std.specs.Prelude.{◌≡◌, ◌<◌, ◌≤◌, [], ◌∷◌, ◌++◌, length, take, IfOk, OnErr};

use rim_desc::{Measurement, NoMemory};
use std::alloc::Global;
use std::marker::Model;

/// The digests of some pages, in the pages' order. A row takes no memory once it is reserved, and holds no
/// more digests than it has room for.
#[derive(Drop)]
pub struct DigestRow {
    digests: Vec<Measurement>,
}

impl Model for DigestRow {
    ghost use Rattle.std.specs.Prelude.{◌≤◌, length, vec_capacity};
    ghost use Rattle.page_jobs.specs.Row.{RowView};

    ghost Value = { RowView };

    ghost view = { λ r. record { digests = r.digests.items; room = vec_capacity r.digests } };

    ghost invariant = { λ r. length r.digests.items ≤ vec_capacity r.digests };
}

impl DigestRow {
    /// An empty row with room for n digests. One for none takes no memory.
    pub fn reserve(alloc: Global, n: usize) -> Result<DigestRow, NoMemory>
        ensures empty { IfOk result (λ r. r.digests ≡ []) }
        ensures room { IfOk result (λ r. r.room ≡ n) }
        ensures growth { OnErr result (0 < n) }
    {
        let digests = Vec::with_capacity(alloc, n)?;
        Ok(DigestRow { digests })
    }

    /// How many digests it has room for.
    pub fn room(&self) -> usize
        ensures room { result ≡ self.now.room }
        ensures within { length self.now.digests ≤ self.now.room }
    {
        self.digests.capacity()
    }

    /// The digests.
    pub fn digests(&self) -> &[Measurement]
        ensures digests { result.now ≡ self.now.digests }
        ensures within { length self.now.digests ≤ self.now.room }
    {
        self.digests.as_slice()
    }

    /// Adds a digest, for which the row has room.
    pub fn push(&mut self, digest: Measurement)
        requires { length self.old.digests < self.old.room }
        ensures { self.new ≡ record self.old { digests = self.old.digests ++ digest ∷ [] } }
    {
        self.digests.push_reserved(digest);
    }

    /// Keeps the first digests, at most as many as are asked for.
    pub fn truncate(&mut self, count: usize)
        ensures { self.new ≡ record self.old { digests = take count self.old.digests } }
    {
        self.digests.truncate(count);
    }
}
