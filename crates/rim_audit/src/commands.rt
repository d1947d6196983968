//! The commands that build the realm of a launch, one by one, each given to a monitor.
ghost use Rattle.std.specs.Prelude.{◌≡◌, Ok};
ghost use Rattle.rmi_list.specs.Listed.{listed};

use crate::beside::{Beside, Group};
use crate::known_pages::FileKey;
use ipa_layout::PlacedItem;
use page_jobs::{Blob, Page, hash_group};
use refusal::NoMemory;
use rim_accepted::AcceptedLaunch;
use rim_desc::{Command, Lanes, MOST_LANES, Measurement, Source};
use rmi_list::Plan;
use rmm_monitor::{Monitor, Refused};
use std::alloc::Global;

/// A launch that is accepted, with its list of commands.
#[derive(Drop)]
pub struct LaunchCommands<'a> {
    pub accepted: AcceptedLaunch<'a>,
    pub plan: Plan,
    /// How many of its pages are hashed side by side.
    pub lanes: Lanes,
    pub ghost is_listed: { listed accepted.named.now.launch accepted.placed ≡ Ok plan },
}

/// What a command is given for its page where it creates no measured one. It does not use it.
const NO_CONTENT: Measurement = Measurement { bytes: [0; 64] };

impl<'a> LaunchCommands<'a> {
    ghost use Rattle.std.specs.Prelude.{◌≡◌, ℕ, ◌+◌, ◌<◌, ◌≤◌, ◌^◌, length, Some, IfOk, IfSome, OnOk};
    ghost use Rattle.std.specs.List.{slice_get};
    ghost use Rattle.ipa_layout.specs.Files.{bytes_of_files};
    ghost use Rattle.page_jobs.specs.Page.{page_view};
    ghost use Rattle.rim_accepted.specs.Accepted.{rim_after};
    ghost use Rattle.rim_audit.specs.inside.Commands.{HasPage, commands_in, state_after};
    ghost use Rattle.rim_audit.specs.inside.Beside.{DigestIsContent, IsGroup, IsOwn, content_in};
    ghost use Rattle.rim_audit.specs.inside.Known.{page_digest};

    /// How many commands there are.
    pub fn len(&self) -> usize
        ensures { result ≡ length (commands_in self.now) }
    {
        self.plan.len()
    }

    /// A monitor for the launch, before the first command.
    #[tactic(auto, unfolding(rmm_model::specs::Run::run))]
    pub fn monitor(&self, alloc: Global) -> Monitor
        ensures { result ≡ state_after self.now 0 }
    {
        let config = self.accepted.launch().config();
        Monitor::new(alloc, config.num_aux, config.rec_rule)
    }

    /// Gives a monitor the command of this number, after those before it. The monitor never refuses it but for want of
    /// memory. It answers the command.
    pub fn give(
        &self,
        monitor: &mut Monitor,
        beside: &mut Beside,
        index: usize,
    ) -> Result<Command, NoMemory>
        requires inside { index < length (commands_in self.now) }
        requires before { monitor.old ≡ state_after self.now index }
        requires own { IsOwn self.now beside.old }
        ensures command { IfOk result (λ c. slice_get (commands_in self.now) index ≡ Some c) }
        ensures after { OnOk result (monitor.new ≡ state_after self.now (index + 1)) }
        ensures own { IsOwn self.now beside.new }
    {
        let command = self.command_at(beside, index);
        match monitor.apply(&command) {
            Ok(()) => Ok(command),
            Err(refused) => Err(want_of_memory(refused)),
        }
    }

    /// The Realm Initial Measurement that a monitor holds after all commands.
    pub fn rim(&self, monitor: &Monitor) -> Measurement
        requires { monitor.now ≡ state_after self.now (length (commands_in self.now)) }
        ensures { result.bytes
            ≡ rim_after self.now.accepted.named.now.launch (commands_in self.now) }
    {
        match monitor.rim() {
            Some(rim) => rim,
            None => unreachable!(),
        }
    }

    /// The command of this number. Where it creates a measured page, it has the page's measurement.
    pub fn command_at(&self, beside: &mut Beside, index: usize) -> Command
        requires inside { index < length (commands_in self.now) }
        requires own { IsOwn self.now beside.old }
        ensures command { slice_get (commands_in self.now) index ≡ Some result }
        ensures own { IsOwn self.now beside.new }
    {
        match self.plan.page_of(index) {
            Some((item, page)) => {
                let content = self.content_of(beside, item, page);
                self.plan.command(index, &content)
            }
            None => self.plan.command(index, &NO_CONTENT),
        }
    }

    /// Whether a measured item begins with the command of this number: it delegates the granule of the item's first page.
    pub fn begins_item(&self, index: usize) -> bool
        requires { index < length (commands_in self.now) }
    {
        let next = index.saturating_add(1);
        next < self.len() && matches!(self.plan.page_of(next), Some((_, 0)))
    }

    /// The measurement of a page of an item: the one that is known already, or else the page is hashed.
    fn content_of(&self, beside: &mut Beside, item: usize, page: u64) -> Measurement
        requires page { HasPage self.now.accepted.placed item page }
        requires own { IsOwn self.now beside.old }
        ensures content { result ≡ content_in self.now item page }
        ensures own { IsOwn self.now beside.new }
    {
        if let Some(digest) = beside.in_group(item, page) {
            return digest;
        }
        if let Some(digest) = self.in_file(beside, item, page) {
            return digest;
        }
        let group = self.hash_group(item, page);
        self.keep_group(beside, &group);
        group.digests.all[0]
    }

    /// The measurement of a page of an item, where it is a page of a file and is known.
    fn in_file(&self, beside: &mut Beside, item: usize, page: u64) -> Option<Measurement>
        requires own { IsOwn self.now beside.old }
        ensures content { IfSome result (λ m. m ≡ content_in self.now item page) }
        ensures own { IsOwn self.now beside.new }
    {
        let key = self.file_key(item)?;
        beside.in_file(item, key, page)
    }

    /// Keeps the measurement of a page of an item for later launches, where it is a page of a file.
    fn keep(&self, beside: &mut Beside, item: usize, page: u64, content: Measurement)
        requires content { content ≡ content_in self.now item page }
        requires own { IsOwn self.now beside.old }
        ensures own { IsOwn self.now beside.new }
    {
        if let Some(key) = self.file_key(item) {
            beside.keep(item, key, page, content);
        }
    }

    /// Keeps the measurements of pages that were hashed side by side.
    fn keep_group(&self, beside: &mut Beside, group: &Group)
        requires group { IsGroup self.now group.now }
        requires low { group.now.first + group.now.digests.count ≤ 2 ^ 52 }
        requires own { IsOwn self.now beside.old }
        ensures own { IsOwn self.now beside.new }
    {
        for k in 0..group.digests.count {
            let page = group.first + k as u64;
            self.keep(beside, group.item, page, group.digests.all[k]);
        }
        beside.set_group(*group);
    }

    /// How the file of an item is read into pages; none where its bytes are an edited devicetree's.
    fn file_key(&self, item: usize) -> Option<FileKey>
        ensures { IfSome result (λ key. (page : ℕ) → (content_in self.now item page).bytes
            ≡ page_digest (bytes_of_files self.now.accepted.files.now) key page) }
    {
        let item = self.accepted.placed().items().get(item)?;
        match item.source {
            Some(Source::File(file)) => Some(FileKey {
                algo: self.accepted.launch().config().algo,
                file,
                lead: item.lead,
            }),
            Some(Source::Edited(_)) | None => None,
        }
    }

    /// Hashes a page, and with it as many that follow in its item as go side by side.
    fn hash_group(&self, item: usize, page: u64) -> Group
        requires { HasPage self.now.accepted.placed item page }
        ensures item { result.item ≡ item }
        ensures first { result.first ≡ page }
        ensures some { 0 < result.digests.count }
        ensures group { IsGroup self.now result }
        ensures low { result.first + result.digests.count ≤ 2 ^ 52 }
    {
        let after = self.pages_after(item, page);
        let pages = [
            self.page_after(item, page, after, 0),
            self.page_after(item, page, after, 1),
            self.page_after(item, page, after, 2),
            self.page_after(item, page, after, 3),
            self.page_after(item, page, after, 4),
            self.page_after(item, page, after, 5),
            self.page_after(item, page, after, 6),
            self.page_after(item, page, after, 7),
        ];
        let (pages, _) = pages.split_at(after.min(MOST_LANES as u64 - 1) as usize + 1);
        Group {
            item,
            first: page,
            digests: hash_group(pages, self.lanes),
        }
    }

    /// How many pages an item has after one of its pages.
    fn pages_after(&self, item: usize, page: u64) -> u64
        requires { HasPage self.now.accepted.placed item page }
        ensures { (k : ℕ) → k ≤ result → HasPage self.now.accepted.placed item (page + k) }
    {
        self.accepted.placed().items()[item].pages - page - 1
    }

    /// The page that is `k` after one in its item, or the last one, which is `after` after it.
    fn page_after(&self, item: usize, page: u64, after: u64, k: u64) -> Page<'_>
        requires { (k : ℕ) → k ≤ after → HasPage self.now.accepted.placed item (page + k) }
        ensures { k ≤ after → DigestIsContent self.now item (page + k) (page_view result) }
    {
        self.page(item, page + after.min(k))
    }

    /// A page of an item. No byte of the item is copied.
    fn page(&self, item: usize, page: u64) -> Page<'_>
        requires { HasPage self.now.accepted.placed item page }
        ensures { DigestIsContent self.now item page (page_view result) }
    {
        let placed = self.accepted.placed();
        let item = placed.items()[item];
        let Some(source) = item.source else {
            unreachable!()
        };
        let bytes = placed.bytes(self.accepted.files(), source);
        let algo = self.accepted.launch().config().algo;
        Blob::new(source, item.lead, bytes).page(algo, page)
    }
}

/// The refusal of a command of a launch, which is always want of memory.
fn want_of_memory(refused: Refused) -> NoMemory
    requires { refused ≡ Refused.NoMemory }
{
    let _ = refused;
    NoMemory
}
