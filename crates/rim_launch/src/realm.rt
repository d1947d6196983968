//! The realm that a launch asks for.
ghost use Rattle.std.specs.Prelude.{◌≡◌};
ghost use Rattle.rim_launch.specs.Realm.{realm_params};

use crate::launch::Launch;
use rim_desc::RealmParams;
use rmm_model::{start_count, start_level};

/// The parameters of a launch's realm, with its start tables at the first granules of the pool. DEN0137,
/// RmiRealmParams.
#[tactic(auto, unfolding(crate::specs::LaunchData::is_launch))]
pub fn realm_params(launch: &Launch) -> RealmParams
    ensures { result ≡ realm_params launch.now.config }
{
    let config = launch.config();
    RealmParams {
        flags: if config.sve { 2 } else { 0 } + if config.pmu { 4 } else { 0 },
        s2sz: config.s2sz,
        numbers: config.numbers,
        rtt_level_start: start_level(config.s2sz),
        rtt_num_start: start_count(config.s2sz) as u8,
        algo: config.algo,
        rpv: config.rpv,
        rtt_base: config.pool_base,
    }
}
