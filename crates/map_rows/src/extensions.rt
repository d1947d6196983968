//! The extensions of a launch's measurement, by what is measured.
ghost use Rattle.std.specs.Prelude.{◌≡◌, IfOk};
ghost use Rattle.std.specs.List.{sum_by};
ghost use Rattle.ipa_layout.specs.Files.{bytes_of_files};
ghost use Rattle.rmi_list.specs.Measured.{measured, page_contents};
ghost use Rattle.map_rows.specs.Extensions.{extensions_of};
ghost use Rattle.map_rows.specs.inside.Links.{link_extensions, links_extensions};

use crate::numbers::sum;
use refusal::NoMemory;
use rim_accepted::AcceptedLaunch;
use rim_chain::{LastRecs, LaunchPlan, Link};
use std::alloc::Global;

/// How many parts extend a measurement, by what they are. The first part, the realm, sets it.
#[derive(Clone, Copy)]
pub struct Extensions {
    /// Pages with their contents.
    pub pages: u64,
    /// The realm's parameters.
    pub realms: u64,
    pub recs: u64,
    /// Blocks of RAM.
    pub ripas: u64,
    /// All of them.
    pub total: u64,
    /// Pages without their contents.
    pub unmeasured: u64,
}

impl Extensions {
    ghost use Rattle.std.specs.Prelude.{◌≡◌, IfOk};
    ghost use Rattle.map_rows.specs.Extensions.{plus};
    ghost use Rattle.map_rows.specs.inside.Links.{link_extensions, one_realm};

    /// That of a realm's parameters.
    const REALM: Extensions = Extensions {
        pages: 0,
        realms: 1,
        recs: 0,
        ripas: 0,
        total: 1,
        unmeasured: 0,
    };

    const NONE: Extensions = Extensions {
        pages: 0,
        realms: 0,
        recs: 0,
        ripas: 0,
        total: 0,
        unmeasured: 0,
    };

    /// Those of a link.
    fn of(link: &Link) -> Extensions
        ensures { result ≡ link_extensions link.now }
    {
        let none = Extensions::NONE;
        match *link {
            Link::Blocks { count, .. } => Extensions {
                ripas: count,
                total: count,
                ..none
            },
            Link::Pages { count, .. } => Extensions {
                pages: count,
                total: count,
                ..none
            },
            Link::Unmeasured { count, .. } => Extensions {
                total: count,
                unmeasured: count,
                ..none
            },
            Link::Rec { .. } => Extensions {
                recs: 1,
                total: 1,
                ..none
            },
        }
    }

    /// These and others.
    fn and(&self, others: &Extensions) -> Result<Extensions, NoMemory>
        ensures { IfOk result (λ both. both ≡ plus self.now others.now) }
    {
        Ok(Extensions {
            pages: sum(self.pages, others.pages)?,
            realms: sum(self.realms, others.realms)?,
            recs: sum(self.recs, others.recs)?,
            ripas: sum(self.ripas, others.ripas)?,
            total: sum(self.total, others.total)?,
            unmeasured: sum(self.unmeasured, others.unmeasured)?,
        })
    }
}

/// The extensions of the measurement of a launch, which is accepted. No page is hashed.
pub fn count_extensions(
    alloc: Global,
    accepted: &AcceptedLaunch<'_>,
) -> Result<Extensions, NoMemory>
    ensures { IfOk result (λ e. e ≡ extensions_of (measured accepted.now.named.now.launch
        accepted.now.placed
        (page_contents accepted.now.named.now.launch (bytes_of_files accepted.now.files.now)
        accepted.now.placed))) }
{
    let launch = accepted.launch();
    let plan = LaunchPlan::of_launch(
        alloc,
        launch.config().algo,
        launch,
        accepted.placed(),
        &mut LastRecs::new(),
    )?;
    counted(plan.links())
}

/// The extensions of a realm with these links.
fn counted(links: &[Link]) -> Result<Extensions, NoMemory>
    ensures { IfOk result (λ e. e ≡ links_extensions links.now) }
{
    let mut found = Extensions::REALM;
    for link in links {
        found = found.and(&Extensions::of(link))?;
    }
    Ok(found)
}
