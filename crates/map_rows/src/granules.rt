//! The granules of the pool that a launch's list takes, by what they become.
ghost use Rattle.std.specs.Prelude.{◌≡◌, IfOk};
ghost use Rattle.list_model.specs.Entries.{Contents, commands_of};
ghost use Rattle.map_rows.specs.Granules.{HasGranules, granules_of, uses};

use crate::numbers::sum;
use refusal::NoMemory;
use rim_accepted::ListedLaunch;
use rim_desc::{Command, Measurement};
use rmi_list::Plan;

/// The content that each page is listed with here: no count looks at it.
const ANY_CONTENT: Measurement = Measurement { bytes: [0; 64] };

/// How many granules some commands take from the pool, by what they become. Each is delegated before.
#[derive(Clone, Copy)]
pub struct Granules {
    /// Auxiliary granules of RECs.
    pub auxiliary: u64,
    /// All that are delegated.
    pub delegated: u64,
    /// Realm descriptors.
    pub descriptors: u64,
    /// Pages of items.
    pub pages: u64,
    pub recs: u64,
    /// The tables that the realm begins with.
    pub start_tables: u64,
    /// Tables of level 1 that are made after them.
    pub tables_1: u64,
    pub tables_2: u64,
    pub tables_3: u64,
}

impl Granules {
    ghost use Rattle.std.specs.Prelude.{◌≡◌, IfOk};
    ghost use Rattle.map_rows.specs.Granules.{plus, uses, uses_table};

    /// No granule.
    const NONE: Granules = Granules {
        auxiliary: 0,
        pages: 0,
        delegated: 0,
        descriptors: 0,
        recs: 0,
        start_tables: 0,
        tables_1: 0,
        tables_2: 0,
        tables_3: 0,
    };

    /// Those of one command.
    fn of(command: &Command) -> Granules
        ensures { result ≡ uses command.now }
    {
        let none = Granules::NONE;
        match command {
            Command::Delegate { .. } => Granules {
                delegated: 1,
                ..none
            },
            Command::RealmCreate { params, .. } => Granules {
                descriptors: 1,
                start_tables: u64::from(params.rtt_num_start),
                ..none
            },
            Command::RttCreate { level, .. } => Granules::of_table(*level),
            Command::DataCreate { .. } | Command::DataCreateUnknown { .. } => Granules {
                pages: 1,
                ..none
            },
            Command::RecCreate { params, .. } => Granules {
                auxiliary: u64::from(params.num_aux()),
                recs: 1,
                ..none
            },
            Command::InitRipas { .. } | Command::Activate => none,
        }
    }

    /// That of a table of a level: 1 to 3 in a list.
    fn of_table(level: u8) -> Granules
        ensures { result ≡ uses_table level }
    {
        let none = Granules::NONE;
        match level {
            1 => Granules {
                tables_1: 1,
                ..none
            },
            2 => Granules {
                tables_2: 1,
                ..none
            },
            3 => Granules {
                tables_3: 1,
                ..none
            },
            _ => none,
        }
    }

    /// These and others.
    fn and(&self, others: &Granules) -> Result<Granules, NoMemory>
        ensures { IfOk result (λ both. both ≡ plus self.now others.now) }
    {
        Ok(Granules {
            auxiliary: sum(self.auxiliary, others.auxiliary)?,
            pages: sum(self.pages, others.pages)?,
            delegated: sum(self.delegated, others.delegated)?,
            descriptors: sum(self.descriptors, others.descriptors)?,
            recs: sum(self.recs, others.recs)?,
            start_tables: sum(self.start_tables, others.start_tables)?,
            tables_1: sum(self.tables_1, others.tables_1)?,
            tables_2: sum(self.tables_2, others.tables_2)?,
            tables_3: sum(self.tables_3, others.tables_3)?,
        })
    }
}

/// The granules that the commands of a launch take, which is accepted. No page is hashed.
pub fn count_granules(listed: &ListedLaunch<'_>) -> Result<Granules, NoMemory>
    ensures { IfOk result
        (HasGranules listed.now.accepted.named.now.launch listed.now.accepted.placed) }
{
    counted(&listed.plan)
}

/// The granules that the commands of a list take.
fn counted(plan: &Plan) -> Result<Granules, NoMemory>
    ensures { IfOk result
        (λ g. (contents : Contents) → g ≡ granules_of (commands_of contents plan.now)) }
{
    let mut found = Granules::NONE;
    for index in 0..plan.len() {
        let command = plan.command(index, &ANY_CONTENT);
        found = found.and(&Granules::of(&command))?;
    }
    Ok(found)
}
