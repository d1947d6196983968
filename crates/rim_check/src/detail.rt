//! What is at fault in a launch that is refused, in words: what is given, and what is expected.
ghost use Rattle.std.specs.Prelude.{◌≡◌, ◌+◌, ◌++◌, IfOk, codes, false, string_bytes};
ghost use Rattle.std.specs.Fmt.{digits};
ghost use Rattle.rim_check.specs.Details.{hexadecimal, item_detail, item_expected, layout_detail, list_detail, pair_text, plan_detail, pool_text, range_text, reason_detail, reason_expected, step_detail, step_text};
ghost use Rattle.rim_manifest.specs.Launches.{item_name};
ghost use Rattle.ipa_layout.specs.declared.reason.ItemReason.TheVariants as ItemReason;

use arm64_image::ImageFault;
use fdt_tree::SIZE_LIMIT;
use ipa_layout::{Extent, IpaRange, ItemExtent, ItemReason, LayoutReason, PAGE_LIMIT};
use rim_accepted::LaunchReason;
use rim_desc::{GRANULE_SIZE, REC_LIMIT};
use rim_launch::{Config, Step};
use rim_manifest::NamedLaunch;
use rim_rules::kind::StepKind;
use rmi_list::{ListReason, StepReason};
use rmm_model::protected_end;
use rtt_plan::{ENTRY_LIMIT, PlanFault};
use std::alloc::{AllocError, Global};

/// A hexadecimal digit, and others after it.
fn with_digit(alloc: Global, digit: u8, others: &str) -> Result<String, AllocError>
    ensures { IfOk result (λ s. string_bytes s ≡ digits 16 false digit ++ others.now) }
{
    format!(in alloc; "{digit:x}{others}")
}

/// A number in hexadecimal digits, with `0x` before them.
fn hexadecimal(alloc: Global, number: u128) -> Result<String, AllocError>
    ensures { IfOk result (λ s. string_bytes s ≡ hexadecimal number) }
{
    let mut digits = String::new(alloc);
    let mut rest = number;
    while rest >= 16 {
        digits = with_digit(alloc, (rest % 16) as u8, digits.as_str())?;
        rest /= 16;
    }
    let whole = with_digit(alloc, rest as u8, digits.as_str())?;
    format!(in alloc; "0x{whole}")
}

/// Addresses: the first, and the first after them.
fn range_text(alloc: Global, range: IpaRange) -> Result<String, AllocError>
    ensures { IfOk result (λ s. string_bytes s ≡ range_text range.base range.end) }
{
    let base = hexadecimal(alloc, range.base)?;
    let end = hexadecimal(alloc, range.end)?;
    format!(in alloc; "{base} to {end}")
}

/// That a kernel's bytes, `count` of them, are no Image.
fn image_detail(
    alloc: Global,
    name: &str,
    fault: ImageFault,
    count: u64,
) -> Result<String, AllocError>
    ensures { IfOk result
        (λ s. string_bytes s ≡ item_detail name.now (ItemReason.Kernel fault count)) }
{
    match fault {
        ImageFault::Short => format!(in alloc; "item \"{name}\": its file has {count} bytes"),
        ImageFault::BadMagic => format!(in alloc;
            "item \"{name}\": bytes 56 to 59 of its file are not those of an arm64 Image"
        ),
    }
}

/// Where an item is that may not be there.
fn address_detail(alloc: Global, name: &str, at: u64) -> Result<String, AllocError>
    ensures { IfOk result (λ s. string_bytes s
        ≡ codes "item \"" ++ (name.now ++ (codes "\" at " ++ hexadecimal at))) }
{
    let at = hexadecimal(alloc, u128::from(at))?;
    format!(in alloc; "item \"{name}\" at {at}")
}

/// That an item ends past 2^64.
fn end_detail(alloc: Global, name: &str, range: IpaRange) -> Result<String, AllocError>
    ensures { IfOk result
        (λ s. string_bytes s ≡ item_detail name.now (ItemReason.PastEnd range)) }
{
    let range = range_text(alloc, range)?;
    format!(in alloc; "item \"{name}\" {range} ends past 2^64")
}

/// That a page of an item is not RAM.
fn outside_detail(
    alloc: Global,
    name: &str,
    range: IpaRange,
    page: u64,
) -> Result<String, AllocError>
    ensures { IfOk result
        (λ s. string_bytes s ≡ item_detail name.now (ItemReason.OutsideRam range page)) }
{
    let range = range_text(alloc, range)?;
    let page = hexadecimal(alloc, u128::from(GRANULE_SIZE) * u128::from(page))?;
    format!(in alloc; "item \"{name}\" {range} is not in ram: no region has all of the page {page}")
}

/// Why an item of this name is refused.
fn item_detail(alloc: Global, name: &str, reason: &ItemReason) -> Result<String, AllocError>
    ensures { IfOk result (λ s. string_bytes s ≡ item_detail name.now reason.now) }
{
    match *reason {
        ItemReason::Kernel { fault, count } => image_detail(alloc, name, fault, count),
        ItemReason::Edits(_) => {
            format!(in alloc; "item \"{name}\": its file cannot be edited as a devicetree")
        }
        ItemReason::TooLarge { size } | ItemReason::Short { size, .. } => {
            format!(in alloc; "item \"{name}\": size {size}")
        }
        ItemReason::Unaligned { at } | ItemReason::KernelBase { at } => {
            address_detail(alloc, name, at)
        }
        ItemReason::TooManyPages { pages } => {
            format!(in alloc; "with item \"{name}\" the launch has {pages} pages")
        }
        ItemReason::PastEnd(range) => end_detail(alloc, name, range),
        ItemReason::OutsideRam { range, page } => outside_detail(alloc, name, range, page),
    }
}

/// What is expected of an item, where that is said.
fn item_expected(alloc: Global, reason: &ItemReason) -> Result<String, AllocError>
    ensures { IfOk result (λ s. string_bytes s ≡ item_expected reason.now) }
{
    match *reason {
        ItemReason::Kernel {
            fault: ImageFault::Short,
            ..
        } => format!(in alloc; "at least 64"),
        ItemReason::TooLarge { .. } => format!(in alloc; "at most {SIZE_LIMIT}"),
        ItemReason::Unaligned { .. } => format!(in alloc; "a multiple of 8"),
        ItemReason::KernelBase { .. } => format!(in alloc; "a multiple of 0x200000"),
        ItemReason::Short { count, .. } => format!(in alloc; "at least its {count} bytes"),
        ItemReason::TooManyPages { .. } => format!(in alloc; "at most {PAGE_LIMIT}"),
        ItemReason::Kernel {
            fault: ImageFault::BadMagic,
            ..
        }
        | ItemReason::Edits(_)
        | ItemReason::PastEnd(_)
        | ItemReason::OutsideRam { .. } => format!(in alloc; ""),
    }
}

/// The addresses of an item.
fn extent_text(alloc: Global, extent: Extent) -> Result<String, AllocError>
    ensures { IfOk result (λ s. string_bytes s
        ≡ range_text extent.address (extent.address + extent.len)) }
{
    let base = u128::from(extent.address);
    let end = base + u128::from(extent.len);
    range_text(alloc, IpaRange { base, end })
}

/// Two items with their addresses.
fn pair_text(
    alloc: Global,
    launch: &NamedLaunch,
    first: ItemExtent,
    second: ItemExtent,
) -> Result<String, AllocError>
    ensures { IfOk result (λ s. string_bytes s ≡ pair_text (item_name launch.now) first second) }
{
    let first_name = launch.item_name(first.item);
    let first_extent = extent_text(alloc, first.extent)?;
    let second_name = launch.item_name(second.item);
    let second_extent = extent_text(alloc, second.extent)?;
    format!(in alloc; "items \"{first_name}\" {first_extent} and \"{second_name}\" {second_extent}")
}

/// Why a launch cannot be laid out.
fn layout_detail(
    alloc: Global,
    launch: &NamedLaunch,
    reason: &LayoutReason,
) -> Result<String, AllocError>
    ensures { IfOk result (λ s. string_bytes s ≡ layout_detail (item_name launch.now) reason.now) }
{
    match reason {
        LayoutReason::Item { item, reason } => item_detail(alloc, launch.item_name(*item), reason),
        LayoutReason::Overlap { first, second } => pair_text(alloc, launch, *first, *second),
        LayoutReason::InitrdWindow { kernel, initrd } => pair_text(alloc, launch, *kernel, *initrd),
    }
}

/// That a pool has no more granules.
fn pool_text(alloc: Global, config: &Config) -> Result<String, AllocError>
    ensures { IfOk result (λ s. string_bytes s ≡ pool_text config.now) }
{
    let count = config.pool_count;
    let base = hexadecimal(alloc, u128::from(config.pool_base))?;
    format!(in alloc; "the pool of {count} granules from {base} has no more")
}

/// Why the planner refuses a region, or the pages of an item.
fn plan_detail(alloc: Global, config: &Config, fault: PlanFault) -> Result<String, AllocError>
    ensures { IfOk result (λ s. string_bytes s ≡ plan_detail config.now fault) }
{
    match fault {
        PlanFault::OutsideProtected => {
            let end = hexadecimal(alloc, u128::from(protected_end(config.s2sz)))?;
            format!(in alloc; "ends above {end}, the end of the protected half")
        }
        PlanFault::Unaligned => format!(in alloc; "is not of whole pages"),
        PlanFault::RipasTwice => format!(in alloc; "has a page that is RAM already"),
        PlanFault::NotRam => format!(in alloc; "has a page that is not RAM yet"),
        PlanFault::DataTwice => format!(in alloc; "has a page that has data already"),
        PlanFault::TooManyEntries => {
            format!(in alloc; "gives the launch more than {ENTRY_LIMIT} entries")
        }
        PlanFault::NoMemory => format!(in alloc; "takes more memory than there is"),
    }
}

/// A step as a manifest spells it, with a colon.
fn step_text(alloc: Global, launch: &NamedLaunch, step: &Step) -> Result<String, AllocError>
    ensures { IfOk result (λ s. string_bytes s ≡ step_text (item_name launch.now) step.now) }
{
    match step {
        Step::Ram(number) => {
            let front = StepKind::Ram.front();
            format!(in alloc; "step \"{front}{number}\": ")
        }
        Step::Item(number) => {
            let front = StepKind::Item.front();
            let name = launch.item_name(*number);
            format!(in alloc; "step \"{front}{name}\": ")
        }
        Step::Rec(number) => {
            let front = StepKind::Rec.front();
            format!(in alloc; "step \"{front}{number}\": ")
        }
    }
}

/// Why a step is refused.
fn step_detail(alloc: Global, config: &Config, reason: &StepReason) -> Result<String, AllocError>
    ensures { IfOk result (λ s. string_bytes s ≡ step_detail config.now reason.now) }
{
    match reason {
        StepReason::Plan { fault, range } => {
            let range = range_text(alloc, *range)?;
            let detail = plan_detail(alloc, config, *fault)?;
            format!(in alloc; "{range} {detail}")
        }
        StepReason::PoolEnd => pool_text(alloc, config),
        StepReason::RecOrder { listed } => {
            format!(in alloc; "{listed} RECs are listed before it")
        }
        StepReason::RecNotRunnable => format!(in alloc;
            "runnable is false; write rim_manifest = 2 and, in the launch, rec_rule = \"runnable\""
        ),
    }
}

/// Why a launch has no list of commands.
fn list_detail(
    alloc: Global,
    launch: &NamedLaunch,
    config: &Config,
    reason: &ListReason,
) -> Result<String, AllocError>
    ensures { IfOk result
        (λ s. string_bytes s ≡ list_detail (item_name launch.now) config.now reason.now) }
{
    match reason {
        ListReason::TooManyRecs { count } => { format!(in alloc; "{count} RECs") }
        ListReason::Opening => {
            let pool = pool_text(alloc, config)?;
            format!(in alloc; "the start tables and the realm descriptor: {pool}")
        }
        ListReason::Step { step, reason, .. } => {
            let step = step_text(alloc, launch, step)?;
            let detail = step_detail(alloc, config, reason)?;
            format!(in alloc; "{step}{detail}")
        }
    }
}

/// Why a launch is refused.
pub(crate) fn reason_detail(
    alloc: Global,
    launch: &NamedLaunch,
    config: &Config,
    reason: &LaunchReason,
) -> Result<String, AllocError>
    ensures { IfOk result (λ s. string_bytes s
        ≡ reason_detail (item_name launch.now) config.now reason.now) }
{
    match reason {
        LaunchReason::Layout(reason) => layout_detail(alloc, launch, reason),
        LaunchReason::List { reason, .. } => list_detail(alloc, launch, config, reason),
    }
}

/// What is expected of a launch, where that is said.
pub(crate) fn reason_expected(alloc: Global, reason: &LaunchReason) -> Result<String, AllocError>
    ensures { IfOk result (λ s. string_bytes s ≡ reason_expected reason.now) }
{
    match reason {
        LaunchReason::Layout(LayoutReason::Item { reason, .. }) => item_expected(alloc, reason),
        LaunchReason::Layout(LayoutReason::InitrdWindow { .. }) => {
            format!(in alloc; "within 32 GiB")
        }
        LaunchReason::List {
            reason: ListReason::TooManyRecs { .. },
            ..
        } => format!(in alloc; "at most {REC_LIMIT}"),
        LaunchReason::Layout(LayoutReason::Overlap { .. })
        | LaunchReason::List {
            reason: ListReason::Opening | ListReason::Step { .. },
            ..
        } => format!(in alloc; ""),
    }
}
