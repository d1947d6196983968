//! The laws, proved of the definitions.
ghost use Rattle.std.specs.Prelude.{◌≡◌, ◌∷◌, ◌++◌, ℕ, List, [], true, false, None, Option, Some, length};
ghost use Rattle.rim_launch.specs.LaunchData.{LaunchData};
ghost use Rattle.ipa_layout.specs.Files.{bytes_of_files};
ghost use Rattle.ipa_layout.specs.Layout.{PlacedData};
ghost use Rattle.rim_desc.specs.Part.{Part, rim_of};
ghost use Rattle.rim_desc.specs.declared.command.Command.{Command};
ghost use Rattle.rim_desc.specs.declared.command.Command.TheVariants.{DataCreate, DataCreateUnknown, Delegate, RealmCreate, RecCreate, RttCreate};
ghost use Rattle.rim_desc.specs.declared.measurement.Algo.{Algo};
ghost use Rattle.rim_desc.specs.declared.measurement.Algo.TheVariants.{Sha256};
ghost use Rattle.rmm_model.specs.Listing.{worked_listing, worked_params, worked_parts};
ghost use Rattle.rim_desc.specs.declared.measurement.Measurement.{Measurement};
ghost use Rattle.rim_desc.specs.declared.realm.RealmParams.{RealmParams};
ghost use Rattle.rim_desc.specs.declared.rule.RecRule.{RecRule};
ghost use Rattle.rim_desc.specs.declared.rule.RecRule.TheVariants.{Runnable};
ghost use Rattle.rim_desc.specs.Rec.{RecData};
ghost use Rattle.rmm_model.specs.declared.outcome.Phase.TheVariants.{Active};
ghost use Rattle.rmm_model.specs.Effects.{is_runnable};
ghost use Rattle.rmm_model.specs.Run.{accepted};
ghost use Rattle.rmm_model.specs.State.{State, empty_state};
ghost use Rattle.rim_binding.specs.Binding.{AlikeHaveOneRim, AnyHost, HasRim, IsRimOf, PartsAreBound, TwoLaunches};
ghost use Rattle.rim_binding.specs.Chain.{Fits, message};
ghost use Rattle.rim_binding.specs.Event.{BecameRam, Created, FitsParams, FitsRec, MeasuredParams, MeasuredRec, PageAdded, measured_params, params_page, start_page};
ghost use Rattle.rim_binding.specs.HostEvents.{IsBuilt, Memory, command_events, host_events};
ghost use Rattle.rim_binding.specs.LaunchEvents.{launch_events};

use crate::widths::{commands_fit, launch_fits};
use ipa_layout::Placed;
use rim_desc::Command;
use rim_launch::Launch;

/// Any host: take any commands that a monitor accepts. If the realm then has the hash algorithm and the measurement of an
/// accepted launch, its events are the launch's, in order and with the bytes of their pages. Otherwise two messages that
/// were hashed collide.
pub fn any_host_builds_the_launch(
    files: &[Vec<u8>],
    launch: &Launch,
    placed: &Placed,
    commands: &[Command],
)
    ensures { AnyHost (bytes_of_files files.now) launch.now placed.now commands.now }
{
    launch_fits(files, launch, placed);
    commands_fit(commands);
}

/// Two accepted launches with the same hash algorithm and the same measurement are measured alike. Otherwise two messages
/// that were hashed collide.
pub fn two_launches_are_alike(
    files: &[Vec<u8>],
    launch: &Launch,
    placed: &Placed,
    other_files: &[Vec<u8>],
    other: &Launch,
    other_placed: &Placed,
)
    ensures { TwoLaunches (bytes_of_files files.now) launch.now placed.now
        (bytes_of_files other_files.now) other.now other_placed.now }
{
    launch_fits(files, launch, placed);
    launch_fits(other_files, other, other_placed);
}

/// The measurement of a realm follows from its events alone, for an accepted launch and for the commands of any host.
pub fn a_rim_is_of_the_events(commands: &[Command])
    ensures launch { (files : List (List ℕ)) (l : LaunchData) (p : PlacedData) (rim : List ℕ)
        → HasRim files l p rim → IsRimOf l.config.algo rim (launch_events files l p) }
    ensures host { (num_aux : ℕ) (rule : Option RecRule) (memory : Memory)
        (algo : Algo) (rim : List ℕ)
        → IsBuilt num_aux rule memory commands.now algo rim
        → IsRimOf algo rim (host_events memory (empty_state num_aux rule) commands.now) }
{
    commands_fit(commands);
}

/// The worked list of commands is one that a host may choose: a monitor accepts it, and its events are these.
pub fn the_worked_listing_is_built()
    ensures built { (memory : Memory)
        → IsBuilt 0 None memory worked_listing Sha256 (rim_of Sha256 worked_parts) }
    ensures events { (memory : Memory) → host_events memory (empty_state 0 None) worked_listing
        ≡ Created (measured_params worked_params) ∷ BecameRam 0x40000000 0x80000000
        ∷ BecameRam 0x80000000 0xc0000000 ∷ PageAdded 0x40000000 None ∷ [] }
{}

/// Accepted launches that are measured alike have the same measurement.
pub fn alike_launches_have_one_rim()
    ensures { AlikeHaveOneRim }
{}

/// Lists of parts that begin with a realm, have no second one and lead to the same measurement are the same list.
/// Otherwise two messages that were hashed collide.
pub fn parts_are_bound()
    ensures { PartsAreBound }
{}

/// A descriptor determines the measurement that it extends and each field of its part; a page of parameters determines
/// each measured parameter.
pub fn a_message_determines_what_it_extends()
    ensures descriptors { (r s : List ℕ) (x y : Part) → length r ≡ 64 → length s ≡ 64
        → Fits x → Fits y → message r x ≡ message s y → (r ≡ s) × (x ≡ y) }
    ensures realms { (m n : MeasuredParams) → FitsParams m → FitsParams n
        → params_page m ≡ params_page n → m ≡ n }
    ensures recs { (m n : MeasuredRec) → FitsRec m → FitsRec n
        → start_page m ≡ start_page n → m ≡ n }
{}

/// These parts of commands, and these commands, leave no trace in the events of a realm, and so none in its measurement.
pub fn what_is_not_bound()
    ensures parameters { (memory : Memory) (s : State) (rd rd2 : ℕ) (p : RealmParams)
        (rpv : List ℕ) (rtt_base rtt_level_start rtt_num_start : ℕ)
        → command_events memory s (RealmCreate rd p)
        ≡ command_events memory s (RealmCreate rd2 (record p {
          rpv = rpv;
          rtt_base = rtt_base;
          rtt_level_start = rtt_level_start;
          rtt_num_start = rtt_num_start;
        })) }
    ensures unmeasured_pages { (memory memory2 : Memory) (s : State) (granule granule2 ipa : ℕ)
        → command_events memory s (DataCreate granule ipa None)
        ≡ command_events memory2 s (DataCreate granule2 ipa None) }
    ensures granules_of_pages { (memory : Memory) (s : State) (granule granule2 ipa : ℕ)
        (content : Option Measurement)
        → command_events memory s (DataCreate granule ipa content)
        ≡ command_events memory s (DataCreate granule2 ipa content) }
    ensures unknown_pages { (memory : Memory) (s : State) (granule ipa : ℕ)
        → command_events memory s (DataCreateUnknown granule ipa) ≡ [] }
    ensures recs { (memory : Memory) (s : State) (rec rec2 : ℕ) (r : RecData)
        (mpidr : ℕ) (aux : List ℕ)
        → command_events memory s (RecCreate rec r)
        ≡ command_events memory s (RecCreate rec2 (record r { mpidr = mpidr; aux = aux })) }
    ensures other_recs { (memory : Memory) (s : State) (rec : ℕ) (r : RecData)
        → s.rule ≡ Some Runnable → is_runnable r.flags ≡ false
        → command_events memory s (RecCreate rec r) ≡ [] }
    ensures delegations { (memory : Memory) (s : State) (granule : ℕ)
        → command_events memory s (Delegate granule) ≡ [] }
    ensures tables { (memory : Memory) (s : State) (rtt ipa level : ℕ)
        → command_events memory s (RttCreate rtt ipa level) ≡ [] }
    ensures after_activation { (memory : Memory) (s : State) (commands : List Command)
        → s.phase ≡ Active → accepted s commands ≡ true → host_events memory s commands ≡ [] }
{}
