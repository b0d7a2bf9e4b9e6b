//! The ids whose values a batch has fixed.
ghost use Rattle.std.specs.Prelude.{◌≡◌, ◌≤◌, ℤ, [], ◌&&◌, ◌||◌, not, false, drop, length, IfOk, IfErr};
ghost use Rattle.arrow_spec.specs.declared.error.IpcError.TheVariants.{Memory};
ghost use Rattle.arrow_spec.specs.Kinds.{same};
ghost use Rattle.ipc_dictionaries.specs.Used.{used_by, is_among, Adds};

use arrow_spec::IpcError;
use std::alloc::Global;
use std::collections::BTreeSet;

/// The ids that are used, and each id in the order in which it came to be.
#[derive(Drop)]
pub(crate) struct UsedIds {
    ids: BTreeSet<i64>,
    trail: Vec<i64>,
}

impl UsedIds {
    pub(crate) fn new(alloc: Global) -> UsedIds
        ensures none { (q : ℤ) → used_by result q ≡ false }
        ensures trail { result.trail.items ≡ [] }
    {
        UsedIds {
            ids: BTreeSet::new(alloc),
            trail: Vec::new(alloc),
        }
    }

    /// Whether an id is used.
    pub(crate) fn contains(&self, id: i64) -> bool
        ensures { result ≡ used_by self.now id }
    {
        self.ids.contains(&id)
    }

    /// How many ids came to be used so far.
    pub(crate) fn count(&self) -> usize
        ensures { result ≡ length self.now.trail.items }
    {
        self.trail.len()
    }

    /// Puts an id among those that are used.
    pub(crate) fn add(&mut self, id: i64) -> Result<(), IpcError>
        ensures used { IfOk result (λ _. (q : ℤ) → used_by self.new q ≡ (used_by self.old q || same id q)) }
        ensures adds { IfOk result (λ _. Adds self.old self.new) }
        ensures memory { IfErr result (λ e. e ≡ Memory) }
    {
        if self.contains(id) {
            return Ok(());
        }
        self.trail.push(id)?;
        let _is_new = self.ids.insert(id)?;
        Ok(())
    }

    /// Takes off the ids that came after so many.
    pub(crate) fn take_off(&mut self, count: usize)
        requires { count ≤ length self.old.trail.items }
        ensures used { (q : ℤ) → used_by self.new q ≡ (used_by self.old q && not (is_among q (drop count self.old.trail.items))) }
        ensures trail { self.new.trail.items ≡ self.old.trail.items }
    {
        for i in count..self.trail.len() {
            let _is_used = self.ids.remove(&self.trail[i]);
        }
    }

    /// Puts back the ids that came after so many.
    pub(crate) fn put_back(&mut self, count: usize) -> Result<(), IpcError>
        requires { count ≤ length self.old.trail.items }
        ensures used { IfOk result (λ _. (q : ℤ) → used_by self.new q ≡ (used_by self.old q || is_among q (drop count self.old.trail.items))) }
        ensures trail { self.new.trail.items ≡ self.old.trail.items }
        ensures memory { IfErr result (λ e. e ≡ Memory) }
    {
        for i in count..self.trail.len() {
            let _is_new = self.ids.insert(self.trail[i])?;
        }
        Ok(())
    }
}
