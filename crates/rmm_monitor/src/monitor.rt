//! The monitor. Finding a granule and giving it a kind is one search: it is put at once, and put back as it was where it had a
//! kind. A page's granule is given its kind where it is found, and given back where the page cannot have it. So refusals cost
//! more: a granule that is delegated twice takes one search more, and a page that is given data twice takes two.
ghost use Rattle.std.specs.Prelude.{◌≡◌, ◌≤◌, not, ◌||◌, ◌∷◌, Err, IfOk, length, option_map, true};
ghost use Rattle.std.specs.Bool.{OnFalse};
ghost use Rattle.refusal.specs.Answer.{Applies};
ghost use Rattle.rim_desc.specs.declared.command.Command.TheVariants.{Delegate, RealmCreate, RttCreate, InitRipas, DataCreate, DataCreateUnknown, RecCreate, Activate};
ghost use Rattle.rmm_model.specs.State.{empty_state};
ghost use Rattle.rmm_model.specs.Owners.{all_delegated, is_delegated, kind_of, repeats};
ghost use Rattle.rmm_model.specs.Space.{has};
ghost use Rattle.rmm_model.specs.Step.{step};
ghost use Rattle.rmm_monitor.specs.Growth.{adds_something};
ghost use Rattle.rmm_monitor.specs.inside.Monitor.{assigned, page_taken};
ghost use Rattle.rmm_monitor.specs.inside.Owned.{all_owned};
ghost use Rattle.rim_desc.specs.declared.rec.TheConstants.{AUX_LIMIT};

use crate::measuring::{algo_of, extended_by_data, extended_by_rec, measured_so_far};
use crate::owners::Owners;
use crate::parameters::{
    all_aligned, has, is_bad_content, is_bad_realm, is_bad_rec, is_cut, is_runnable, rec_index,
    repeats, start_tables,
};
use crate::space::IpaSpace;
use refusal::NoMemory;
use rim_desc::{
    Algo, Command, GRANULE_SIZE, HashedRec, Measurement, RealmParams, RecParams, RecRule, extends,
    hash, realm_page, rec_content,
};
use rmm_model::{Kind, Phase, Refused, extended_by_stretches, protected_end, size_of_level};
use std::alloc::Global;
use std::marker::Model;

/// A monitor with one realm.
#[derive(Drop)]
pub struct Monitor {
    phase: Phase,
    params: Option<RealmParams>,
    num_aux: u8,
    rule: Option<RecRule>,
    owners: Owners,
    space: IpaSpace,
    num_recs: u64,
    /// The page of a REC that was hashed last, so that it is hashed once for RECs with the same contents.
    hashed_rec: Option<HashedRec>,
    rim: Option<Measurement>,
    alloc: Global,
}

impl Model for Monitor {
    ghost use Rattle.rmm_model.specs.State.{State};

    ghost Value = { State };

    ghost use Rattle.rmm_monitor.specs.inside.Monitor.{shown_state};

    ghost view = { shown_state };
}

impl Monitor {
    /// A monitor without a realm, whose RECs have `num_aux` auxiliary granules each and extend the measurement by this rule,
    /// or are all runnable where there is none. It takes no memory.
    pub fn new(alloc: Global, num_aux: u8, rule: Option<RecRule>) -> Monitor
        requires { num_aux ≤ AUX_LIMIT }
        ensures { result ≡ empty_state num_aux rule }
    {
        Monitor {
            phase: Phase::Empty,
            params: None,
            num_aux,
            rule,
            owners: Owners::new(alloc),
            space: IpaSpace::new(alloc, 0, 0),
            num_recs: 0,
            hashed_rec: None,
            rim: None,
            alloc,
        }
    }

    /// A monitor that is where this one is. It takes memory for each granule, table, range and page that this one knows.
    pub fn try_clone(&self) -> Result<Monitor, NoMemory>
        ensures { IfOk result (λ copy. copy ≡ self.now) }
    {
        let owners = self.owners.try_clone()?;
        let space = self.space.try_clone()?;
        Ok(Monitor {
            phase: self.phase,
            params: self.params,
            num_aux: self.num_aux,
            rule: self.rule,
            owners,
            space,
            num_recs: self.num_recs,
            hashed_rec: self.hashed_rec,
            rim: self.rim,
            alloc: self.alloc,
        })
    }

    /// The hash algorithm of the realm; none before the realm was created.
    pub fn algo(&self) -> Option<Algo>
        ensures { result ≡ option_map (λ p. p.algo) self.now.params }
    {
        self.params.map(|params| params.algo)
    }

    /// The Realm Initial Measurement; none before the realm was created.
    pub fn rim(&self) -> Option<Measurement>
        ensures { option_map (λ m. m.bytes) result ≡ self.now.rim }
    {
        self.rim
    }

    /// Which RECs extend the measurement.
    pub fn rule(&self) -> Option<RecRule>
        ensures { result ≡ self.now.rule }
    {
        self.rule
    }

    /// The kind of the granule at a physical address; none where it is UNDELEGATED.
    pub fn owner(&self, pa: u64) -> Option<Kind>
        ensures { result ≡ kind_of self.now.owners pa }
    {
        self.owners.kind_of(pa)
    }

    /// How many granules have a kind.
    pub fn owner_count(&self) -> usize
        ensures { result ≡ length self.now.owners }
    {
        self.owners.count()
    }

    fn delegate(&mut self, granule: u64) -> Result<(), Refused>
        ensures { Applies Refused.NoMemory self.old self.new result
            (step self.old (Delegate granule)) }
    {
        if granule % GRANULE_SIZE != 0 {
            return Err(Refused::Unaligned);
        }
        if !self.owners.delegate(granule)? {
            return Err(Refused::NotUndelegated);
        }
        Ok(())
    }

    fn rtt_create(&mut self, rtt: u64, ipa: u64, level: u8) -> Result<(), Refused>
        ensures { Applies Refused.NoMemory self.old self.new result
            (step self.old (RttCreate rtt ipa level)) }
    {
        if self.phase == Phase::Empty {
            return Err(Refused::State);
        }
        if level <= self.space.start() || level > 3 {
            return Err(Refused::BadParams);
        }
        if rtt % GRANULE_SIZE != 0 || ipa % size_of_level(level - 1) != 0 {
            return Err(Refused::Unaligned);
        }
        if ipa >= self.space.protected_end() {
            return Err(Refused::OutsideProtected);
        }
        if self.space.walk_level(ipa) != level - 1 {
            return Err(Refused::WalkLevel);
        }
        if !self.owners.is_delegated(rtt) {
            return Err(Refused::NotDelegated);
        }
        self.space.add_table(level, ipa)?;
        self.owners.give(rtt, Kind::Rtt);
        Ok(())
    }

    fn realm_create(&mut self, rd: u64, params: &RealmParams) -> Result<(), Refused>
        ensures exact { Applies Refused.NoMemory self.old self.new result
            (step self.old (RealmCreate rd params.now)) }
        ensures growth { result ≡ Err Refused.NoMemory → ⊥ }
    {
        if self.phase != Phase::Empty {
            return Err(Refused::State);
        }
        if is_bad_realm(params) {
            return Err(Refused::BadParams);
        }
        if rd % GRANULE_SIZE != 0 {
            return Err(Refused::Unaligned);
        }
        let places = start_tables(params.rtt_base, params.rtt_num_start);
        let tables = &places[..params.rtt_num_start as usize];
        if cannot_hold_realm(&self.owners, rd, tables) {
            return Err(Refused::NotDelegated);
        }
        self.owners.give(rd, Kind::Rd);
        self.owners.give_all(tables, Kind::Rtt);
        self.space = IpaSpace::new(
            self.alloc,
            params.rtt_level_start,
            protected_end(params.s2sz),
        );
        self.rim = Some(hash(params.algo, &realm_page(params)));
        self.params = Some(*params);
        self.phase = Phase::New;
        Ok(())
    }

    fn init_ripas(&mut self, base: u64, top: u64) -> Result<(), Refused>
        ensures { Applies Refused.NoMemory self.old self.new result
            (step self.old (InitRipas base top)) }
    {
        if self.phase != Phase::New {
            return Err(Refused::State);
        }
        if top <= base {
            return Err(Refused::BadParams);
        }
        if base % GRANULE_SIZE != 0 || top % GRANULE_SIZE != 0 {
            return Err(Refused::Unaligned);
        }
        if top > self.space.protected_end() {
            return Err(Refused::OutsideProtected);
        }
        let level = self.space.walk_level(base);
        if is_cut(level, base, top) {
            return Err(Refused::WalkLevel);
        }
        if self.space.is_not_fresh(level, base, top) {
            return Err(Refused::NotFresh);
        }
        self.space.add_run(base, top)?;
        let entry = size_of_level(level);
        let rim = measured_so_far(self.rim);
        let count = (top - base) / entry;
        self.rim = Some(extended_by_stretches(algo_of(self.params), rim, base, entry, count));
        Ok(())
    }

    fn data_create(
        &mut self,
        granule: u64,
        ipa: u64,
        content: Option<Measurement>,
    ) -> Result<(), Refused>
        ensures { Applies Refused.NoMemory self.old self.new result
            (step self.old (DataCreate granule ipa content)) }
    {
        if self.phase != Phase::New {
            return Err(Refused::State);
        }
        let algo = algo_of(self.params);
        if is_bad_content(algo, content) {
            return Err(Refused::BadParams);
        }
        self.take_page(granule, ipa)?;
        self.rim = Some(extended_by_data(algo, measured_so_far(self.rim), ipa, content));
        Ok(())
    }

    fn data_create_unknown(&mut self, granule: u64, ipa: u64) -> Result<(), Refused>
        ensures { Applies Refused.NoMemory self.old self.new result
            (step self.old (DataCreateUnknown granule ipa)) }
    {
        if self.phase == Phase::Empty {
            return Err(Refused::State);
        }
        self.take_page(granule, ipa)
    }

    /// Gives a page data in a granule, where both may have it.
    fn take_page(&mut self, granule: u64, ipa: u64) -> Result<(), Refused>
        ensures { Applies Refused.NoMemory self.old self.new result
            (page_taken self.old granule ipa) }
    {
        if granule % GRANULE_SIZE != 0 || ipa % GRANULE_SIZE != 0 {
            return Err(Refused::Unaligned);
        }
        if ipa >= self.space.protected_end() {
            return Err(Refused::OutsideProtected);
        }
        if self.space.walk_level(ipa) != 3 {
            return Err(Refused::WalkLevel);
        }
        if !self.space.is_ram(ipa) {
            return Err(Refused::NotRam);
        }
        self.assign(granule, ipa)
    }

    /// Gives a page data in a granule. The granule is taken first, so that each tree is searched once, and is given back
    /// where the page cannot have it.
    fn assign(&mut self, granule: u64, ipa: u64) -> Result<(), Refused>
        ensures { Applies Refused.NoMemory self.old self.new result
            (assigned self.old granule ipa) }
    {
        if !self.owners.take(granule, Kind::DataPage) {
            return Err(if self.space.has_data(ipa) {
                Refused::Assigned
            } else {
                Refused::NotDelegated
            });
        }
        match self.space.add_page(ipa) {
            Ok(true) => Ok(()),
            Ok(false) => {
                self.owners.give(granule, Kind::Delegated);
                Err(Refused::Assigned)
            }
            Err(fault) => {
                self.owners.give(granule, Kind::Delegated);
                Err(fault.into())
            }
        }
    }

    fn rec_create(&mut self, rec: u64, params: &RecParams) -> Result<(), Refused>
        ensures exact { Applies Refused.NoMemory self.old self.new result
            (step self.old (RecCreate rec params.now)) }
        ensures growth { result ≡ Err Refused.NoMemory → ⊥ }
    {
        if self.phase != Phase::New {
            return Err(Refused::State);
        }
        if is_bad_rec(self.rule, params) {
            return Err(Refused::BadParams);
        }
        let aux = params.aux();
        if rec % GRANULE_SIZE != 0 || !all_aligned(aux) {
            return Err(Refused::Unaligned);
        }
        if rec_index(params.mpidr()) != self.num_recs {
            return Err(Refused::RecIndex);
        }
        if params.num_aux() != self.num_aux {
            return Err(Refused::AuxCount);
        }
        if cannot_hold_rec(&self.owners, rec, aux) {
            return Err(Refused::NotDelegated);
        }
        self.owners.give(rec, Kind::Rec);
        self.owners.give_all(aux, Kind::RecAux);
        self.num_recs += 1;
        if extends(self.rule, is_runnable(params.flags())) {
            let algo = algo_of(self.params);
            let content = rec_content(algo, params, &mut self.hashed_rec);
            let rim = measured_so_far(self.rim);
            self.rim = Some(extended_by_rec(algo, rim, content));
        }
        Ok(())
    }

    fn activate(&mut self) -> Result<(), Refused>
        ensures exact { Applies Refused.NoMemory self.old self.new result (step self.old Activate) }
        ensures growth { result ≡ Err Refused.NoMemory → ⊥ }
    {
        if self.phase != Phase::New {
            return Err(Refused::State);
        }
        self.phase = Phase::Active;
        Ok(())
    }

    /// Takes a command, or refuses it by the first check of its row that holds, and by NoMemory where a
    /// command that no check refuses needs memory that is refused. After a refusal the monitor is as
    /// it was. RealmCreate, RecCreate and Activate take no memory and are never refused so.
    ///
    /// Delegate, RttCreate, DataCreate and DataCreateUnknown take the logarithm of the number of granules, tables, ranges
    /// and pages; InitRipas besides a hash for each entry, RealmCreate and DataCreate one, RecCreate two, or
    /// one where the REC before it has the same contents.
    pub fn apply(&mut self, command: &Command) -> Result<(), Refused>
        ensures exact { Applies Refused.NoMemory self.old self.new result
            (step self.old command.now) }
        ensures growth { result ≡ Err Refused.NoMemory → adds_something command.now ≡ true }
    {
        match command {
            Command::Delegate { granule } => self.delegate(*granule),
            Command::RealmCreate { rd, params } => self.realm_create(*rd, params),
            Command::RttCreate { rtt, ipa, level } => self.rtt_create(*rtt, *ipa, *level),
            Command::InitRipas { base, top } => self.init_ripas(*base, *top),
            Command::DataCreate {
                granule,
                ipa,
                content,
            } => self.data_create(*granule, *ipa, *content),
            Command::DataCreateUnknown { granule, ipa } => self.data_create_unknown(*granule, *ipa),
            Command::RecCreate { rec, params } => self.rec_create(*rec, params),
            Command::Activate => self.activate(),
        }
    }
}

/// Whether a realm descriptor and start tables cannot be put into these granules.
#[tactic(auto, using(crate::proofs::KindsGivenInTurn::owned_from_delegated))]
fn cannot_hold_realm(owners: &Owners, rd: u64, tables: &[u64]) -> bool
    ensures owned { OnFalse result (all_owned owners.now tables.now ≡ true) }
    ensures value { result
        ≡ (not (is_delegated owners.now rd) || not (all_delegated owners.now tables.now)
        || has tables.now rd) }
{
    !owners.is_delegated(rd) || !owners.all_delegated(tables) || has(tables, rd)
}

/// Whether a REC and its auxiliary granules cannot be put into these granules.
#[tactic(auto, using(crate::proofs::KindsGivenInTurn::owned_from_delegated))]
fn cannot_hold_rec(owners: &Owners, rec: u64, aux: &[u64]) -> bool
    ensures owned { OnFalse result (all_owned owners.now aux.now ≡ true) }
    ensures value { result
        ≡ (not (all_delegated owners.now (rec ∷ aux.now)) || repeats (rec ∷ aux.now)) }
{
    !owners.is_delegated(rec) || !owners.all_delegated(aux) || has(aux, rec) || repeats(aux)
}
