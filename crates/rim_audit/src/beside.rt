//! What is known of pages before their commands come.
ghost use Rattle.std.specs.Prelude.{◌≡◌, None};
ghost use Rattle.ipa_layout.specs.Files.{bytes_of_files};

use crate::known_pages::{FileKey, KnownPages};
use page_jobs::GroupDigests;
use rim_desc::Measurement;
use std::alloc::Global;

/// What is looked at first for the measurement of the next page of a launch.
#[derive(Drop)]
pub struct Beside<'a> {
    /// The digests of files' pages, which launches share.
    known: KnownPages<'a>,
    /// The number of the item whose page was asked for last, and the number under which its file's digests are kept.
    last: Option<(usize, Option<usize>)>,
    /// The pages that were hashed last beside another.
    group: Option<Group>,
}

/// Neighbouring pages of an item, which were hashed side by side.
#[derive(Clone, Copy)]
pub struct Group {
    pub item: usize,
    /// The number of the first of them among the item's pages.
    pub first: u64,
    pub digests: GroupDigests,
}

impl<'a> Beside<'a> {
    ghost use Rattle.std.specs.Prelude.{◌≡◌, IfSome, None, Some};
    ghost use Rattle.rim_audit.specs.declared.commands.LaunchCommands.{LaunchCommands};
    ghost use Rattle.rim_audit.specs.inside.Beside.{IsOwn, content_in};
    ghost use Rattle.rim_audit.specs.inside.Known.{page_digest};

    /// These digests are known.
    pub fn new(known: KnownPages<'a>) -> Beside<'a>
        ensures known { result.known ≡ known.entry }
        ensures group { result.group ≡ None }
    {
        Beside {
            known,
            last: None,
            group: None,
        }
    }

    /// Forgets what is of the launch that came last alone.
    pub fn begin_launch(&mut self)
        ensures known { self.new.known ≡ self.old.known }
        ensures group { self.new.group ≡ None }
    {
        self.last = None;
        self.group = None;
    }

    /// Keeps the measurements of pages that were hashed beside another.
    pub fn set_group(&mut self, group: Group)
        ensures known { self.new.known ≡ self.old.known }
        ensures group { self.new.group ≡ Some group }
    {
        self.group = Some(group);
    }

    /// The measurement of a page of an item, where it was hashed beside another.
    pub fn in_group(&self, item: usize, page: u64) -> Option<Measurement>
        ensures { IfSome result
            (λ m. (c : LaunchCommands) → IsOwn c self.now → m ≡ content_in c item page) }
    {
        let group = self.group?;
        if group.item != item {
            return None;
        }
        group.digests.get(page.checked_sub(group.first)? as usize)
    }

    /// The digest of a page of an item that has its bytes from a file, where it is known.
    pub fn in_file(&mut self, item: usize, key: FileKey, page: u64) -> Option<Measurement>
        ensures digest { IfSome result (λ m. m.bytes ≡ page_digest self.old.known key page) }
        ensures known { self.new.known ≡ self.old.known }
        ensures group { self.new.group ≡ self.old.group }
    {
        let number = self.number(item, key)?;
        self.known.digest(number, key, page)
    }

    /// Keeps the digest of a page of an item that has its bytes from a file.
    pub fn keep(&mut self, item: usize, key: FileKey, page: u64, digest: Measurement)
        requires { digest.bytes ≡ page_digest self.old.known key page }
        ensures known { self.new.known ≡ self.old.known }
        ensures group { self.new.group ≡ self.old.group }
    {
        if let Some(number) = self.number(item, key) {
            self.known.keep(number, key, page, digest);
        }
    }

    /// The number under which the digests of an item's file are kept. It is looked for once for the pages of an item.
    fn number(&mut self, item: usize, key: FileKey) -> Option<usize>
        ensures known { self.new.known ≡ self.old.known }
        ensures group { self.new.group ≡ self.old.group }
    {
        match self.last {
            Some((last, number)) if last == item => number,
            _ => {
                let number = self.known.number(key);
                self.last = Some((item, number));
                number
            }
        }
    }
}
