//! The kinds of granules.
ghost use Rattle.std.specs.Prelude.{◌≡◌, true, false, not, IfOk, OnErr, Ok, None, is_some, length, []};
ghost use Rattle.rmm_model.specs.Owners.{all_delegated, give, give_all, is_delegated, kind_of};
ghost use Rattle.rmm_model.specs.declared.outcome.Kind.TheVariants.{Delegated};
ghost use Rattle.rmm_monitor.specs.inside.Owned.{all_owned};

use refusal::NoMemory;
use rmm_model::Kind;
use std::alloc::Global;
use std::collections::BTreeMap;
use std::marker::Model;

/// The granules that have a kind, by address. Each call on one granule takes the logarithm of their number.
#[derive(Drop)]
pub struct Owners {
    by_granule: BTreeMap<u64, Kind>,
}

impl Model for Owners {
    ghost use Rattle.std.specs.Prelude.{ℕ, List};
    ghost use Rattle.rmm_model.specs.declared.outcome.Kind.{Kind};

    ghost Value = { List (ℕ × Kind) };

    ghost view = { λ o. o.by_granule.entries };
}

impl Owners {
    /// No granule has a kind.
    pub fn new(alloc: Global) -> Owners
        ensures { result ≡ [] }
    {
        Owners {
            by_granule: BTreeMap::new(alloc),
        }
    }

    /// The same granules, each with its kind.
    pub fn try_clone(&self) -> Result<Owners, NoMemory>
        ensures { IfOk result (λ copy. copy ≡ self.now) }
    {
        let by_granule = self.by_granule.clone()?;
        Ok(Owners { by_granule })
    }

    /// How many granules have a kind.
    pub fn count(&self) -> usize
        ensures { result ≡ length self.now }
    {
        self.by_granule.len()
    }

    /// The kind of a granule.
    pub fn kind_of(&self, granule: u64) -> Option<Kind>
        ensures { result ≡ kind_of self.now granule }
    {
        self.by_granule.get(&granule).copied()
    }

    /// Whether a granule is DELEGATED.
    pub fn is_delegated(&self, granule: u64) -> bool
        ensures { result ≡ is_delegated self.now granule }
    {
        matches!(self.kind_of(granule), Some(Kind::Delegated))
    }

    /// Whether all these granules are.
    pub fn all_delegated(&self, granules: &[u64]) -> bool
        ensures { result ≡ all_delegated self.now granules.now }
    {
        granules.iter().all(|granule| self.is_delegated(*granule))
    }

    /// Makes a granule DELEGATED that has no kind, which needs memory; one that has a kind keeps it. Answers whether it had
    /// none.
    pub fn delegate(&mut self, granule: u64) -> Result<bool, NoMemory>
        ensures value { IfOk result (λ done. done ≡ not (is_some (kind_of self.old granule))) }
        ensures done { result ≡ Ok true → self.new ≡ give self.old granule Delegated }
        ensures kept { result ≡ Ok false → self.new ≡ self.old }
        ensures err { OnErr result (self.new ≡ self.old) }
        ensures absent { OnErr result (kind_of self.old granule ≡ None) }
    {
        match self.by_granule.insert(granule, Kind::Delegated)? {
            None => Ok(true),
            Some(kind) => {
                self.give(granule, kind);
                Ok(false)
            }
        }
    }

    /// Gives a granule another kind where it is DELEGATED, and answers whether it was.
    pub fn take(&mut self, granule: u64, kind: Kind) -> bool
        ensures value { result ≡ is_delegated self.old granule }
        ensures taken { result ≡ true → self.new ≡ give self.old granule kind }
        ensures back { result ≡ true → give self.new granule Delegated ≡ self.old }
        ensures kept { result ≡ false → self.new ≡ self.old }
    {
        let Some(found) = self.by_granule.get_mut(&granule) else {
            return false;
        };
        if !matches!(*found, Kind::Delegated) {
            return false;
        }
        *found = kind;
        true
    }

    /// Gives a granule that has a kind another.
    pub fn give(&mut self, granule: u64, kind: Kind)
        requires { is_some (kind_of self.old granule) ≡ true }
        ensures { self.new ≡ give self.old granule kind }
    {
        let _ = self.by_granule.insert(granule, kind);
    }

    /// Gives granules that have a kind another.
    pub fn give_all(&mut self, granules: &[u64], kind: Kind)
        requires { all_owned self.old granules.now ≡ true }
        ensures { self.new ≡ give_all self.old granules.now kind }
    {
        for granule in granules {
            self.give(*granule, kind);
        }
    }
}
