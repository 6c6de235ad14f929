// Lists that contracts see as lists.
ghost use Rattle.std.specs.Prelude.{◌≡◌, length, IfOk};

use std::alloc::{AllocError, Global};
use std::marker::Model;
use std::sync::Arc;

/// The bytes of a block, which several may have.
#[derive(Drop)]
pub struct Bytes {
    items: Arc<Vec<u8>>,
}

impl Model for Bytes {
    ghost use Rattle.std.specs.Prelude.{ℕ, List};
    ghost use Rattle.std.specs.Arc.{arc_value};

    ghost Value = { List ℕ };

    ghost view = { λ b. (arc_value b.items).items };
}

impl Bytes {
    pub fn new(alloc: Global, items: Vec<u8>) -> Result<Bytes, AllocError>
        ensures { IfOk result (λ bytes. bytes ≡ items.items) }
    {
        let items = Arc::new(alloc, items)?;
        Ok(Bytes { items })
    }

    pub fn as_slice(&self) -> &[u8]
        ensures value { result.now ≡ self.now }
    {
        self.items.as_slice()
    }

    /// Has those of another, where they are the same, so that they are kept once.
    pub fn share(&mut self, other: &Bytes)
        ensures { self.new ≡ self.old }
    {
        if self.as_slice() != other.as_slice() {
            return;
        }
        if let Ok(items) = Arc::try_clone(&other.items) {
            self.items = items;
        }
    }
}

/// Ids of blocks.
#[derive(Drop)]
pub struct Ids {
    items: Vec<u64>,
}

impl Model for Ids {
    ghost use Rattle.std.specs.Prelude.{ℕ, List};

    ghost Value = { List ℕ };

    ghost view = { λ i. i.items.items };
}

impl Ids {
    pub fn new(items: Vec<u64>) -> Ids
        ensures { result ≡ items.items }
    {
        Ids { items }
    }

    pub fn as_slice(&self) -> &[u64]
        ensures value { result.now ≡ self.now }
    {
        self.items.as_slice()
    }
}
