//! Taking and putting open writers.
ghost use Rattle.std.specs.Prelude.{◌≡◌, ◌≤◌, ◌⊎◌, ℕ, None, Some, IfOk, IfErr, OnOk, OnErr, nat_eq, ◌==◌, ◌-◌, if◌then◌else◌, option_map, IsSome};
ghost use Rattle.indexmap.specs.IndexMap.{get, spare};
ghost use Rattle.volume_layout.specs.Paths.{IsBlockId};

use crate::open_writers::OpenWriters;
use disk_model::PoolDisks;
use indexmap::IndexMap;
use pool_state::Writing;
use script_lang::reply::Reply;
use std::alloc::{AllocError, Global};
use volume_layout::BlockId;

impl<D: PoolDisks> OpenWriters<D> {
    /// None is open.
    pub fn new(alloc: Global) -> OpenWriters<D>
        ensures { (other : ℕ) → get nat_eq result.by_block other ≡ None }
    {
        OpenWriters {
            by_block: IndexMap::new(alloc),
        }
    }

    /// How many bytes the open writer of a block may still take; none where it has none.
    pub fn room_left(&self, id: BlockId) -> Option<u64>
        ensures valid { IsBlockId id }
        ensures left { result ≡ option_map (λ w. w.reserved - w.len) (get nat_eq self.now.by_block id) }
    {
        let writer = self.by_block.get(&id.get())?;
        Some(writer.left())
    }

    /// Makes sure of a place for one more writer.
    pub fn make_room(&mut self) -> Result<(), AllocError>
        ensures same { (other : ℕ) → get nat_eq self.new.by_block other ≡ get nat_eq self.old.by_block other }
        ensures room { OnOk result (1 ≤ spare self.new.by_block) }
    {
        self.by_block.reserve(1)
    }

    /// Takes the open writer of a block, and keeps a place for it. Where the block has none, or there is no memory for the
    /// place, it answers the reply that says so, and nothing has changed.
    pub fn take(&mut self, id: BlockId) -> Result<Writing<D>, Reply>
        ensures valid { IsBlockId id }
        ensures ok { IfOk result (λ w. get nat_eq self.old.by_block id ≡ Some w) }
        ensures taken { OnOk result ((other : ℕ) → get nat_eq self.new.by_block other ≡ (if other == id then None else get nat_eq self.old.by_block other)) }
        ensures room { OnOk result (1 ≤ spare self.new.by_block) }
        ensures refused { IfErr result (λ reply. ((reply ≡ Reply.NoWriter) × (get nat_eq self.old.by_block id ≡ None)) ⊎ ((reply ≡ Reply.Memory) × IsSome (get nat_eq self.old.by_block id))) }
        ensures same { OnErr result ((other : ℕ) → get nat_eq self.new.by_block other ≡ get nat_eq self.old.by_block other) }
    {
        let number = id.get();
        if !self.by_block.contains_key(&number) {
            return Err(Reply::NoWriter);
        }
        match self.make_room() {
            Ok(()) => {}
            Err(_) => return Err(Reply::Memory),
        }
        match self.by_block.swap_remove(&number) {
            Some(writer) => Ok(writer),
            None => Err(Reply::NoWriter),
        }
    }

    /// Takes the open writer of a block, if it has one. It takes no memory.
    pub fn remove(&mut self, id: BlockId) -> Option<Writing<D>>
        ensures valid { IsBlockId id }
        ensures found { result ≡ get nat_eq self.old.by_block id }
        ensures taken { (other : ℕ) → get nat_eq self.new.by_block other ≡ (if other == id then None else get nat_eq self.old.by_block other) }
    {
        self.by_block.swap_remove(&id.get())
    }

    /// Keeps a writer, for which there is a place.
    pub fn put(&mut self, writer: Writing<D>)
        requires room { 1 ≤ spare self.old.by_block }
        ensures put { (other : ℕ) → get nat_eq self.new.by_block other ≡ (if other == writer.id then Some writer else get nat_eq self.old.by_block other) }
    {
        match self.by_block.insert(writer.id.get(), writer) {
            Ok(_) | Err(_) => {}
        }
    }
}
