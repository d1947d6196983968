//! The command that a line spells.
ghost use Rattle.std.specs.Prelude.{◌++◌, codes};
ghost use Rattle.rmi_line.specs.Spelled.{Reads};

use crate::reader::{Words, after};
use rim_desc::{AUX_LIMIT, Command, RealmParams, RecParams};

/// The command that a line of a listing spells, without its newline, if it spells one.
///
/// Only what [`crate::print_line`] prints is read: one space between words, lower case digits, no leading zeros,
/// nothing after the last word. So each command is read of its one line. It takes no memory, and refuses a line in
/// the time that the words of one command take.
pub fn read_line(line: &[u8]) -> Option<Command>
    ensures { Reads line.now result }
{
    if let Some(rest) = after(line, b"delegate") {
        return delegate(rest);
    }
    if let Some(rest) = after(line, b"data_create") {
        return data_create(rest);
    }
    if let Some(rest) = after(line, b"data_unknown") {
        return data_create_unknown(rest);
    }
    if let Some(rest) = after(line, b"rtt_create") {
        return rtt_create(rest);
    }
    if let Some(rest) = after(line, b"init_ripas") {
        return init_ripas(rest);
    }
    if let Some(rest) = after(line, b"rec_create") {
        return rec_create(rest);
    }
    if let Some(rest) = after(line, b"realm_create") {
        return realm_create(rest);
    }
    if let Some(rest) = after(line, b"activate") {
        return activate(rest);
    }
    None
}

fn delegate(rest: &[u8]) -> Option<Command>
    ensures { Reads (codes "delegate" ++ rest.now) result }
{
    let mut words = Words::new(rest);
    let granule = words.address();
    words.end(Command::Delegate { granule })
}

fn realm_create(rest: &[u8]) -> Option<Command>
    ensures { Reads (codes "realm_create" ++ rest.now) result }
{
    let mut words = Words::new(rest);
    let rd = words.address();
    let params = RealmParams {
        rtt_base: words.address(),
        rtt_level_start: words.number(),
        rtt_num_start: words.number(),
        s2sz: words.number(),
        algo: words.algo(),
        flags: words.address(),
        numbers: words.numbers(),
        rpv: words.bytes(),
    };
    words.end(Command::RealmCreate { rd, params })
}

fn rtt_create(rest: &[u8]) -> Option<Command>
    ensures { Reads (codes "rtt_create" ++ rest.now) result }
{
    let mut words = Words::new(rest);
    let rtt = words.address();
    let ipa = words.address();
    let level = words.number();
    words.end(Command::RttCreate { rtt, ipa, level })
}

fn init_ripas(rest: &[u8]) -> Option<Command>
    ensures { Reads (codes "init_ripas" ++ rest.now) result }
{
    let mut words = Words::new(rest);
    let base = words.address();
    let top = words.address();
    words.end(Command::InitRipas { base, top })
}

fn data_create(rest: &[u8]) -> Option<Command>
    ensures { Reads (codes "data_create" ++ rest.now) result }
{
    let mut words = Words::new(rest);
    let granule = words.address();
    let ipa = words.address();
    let content = words.content();
    words.end(Command::DataCreate {
        granule,
        ipa,
        content,
    })
}

fn data_create_unknown(rest: &[u8]) -> Option<Command>
    ensures { Reads (codes "data_unknown" ++ rest.now) result }
{
    let mut words = Words::new(rest);
    let granule = words.address();
    let ipa = words.address();
    words.end(Command::DataCreateUnknown { granule, ipa })
}

fn rec_create(rest: &[u8]) -> Option<Command>
    ensures { Reads (codes "rec_create" ++ rest.now) result }
{
    let mut words = Words::new(rest);
    let rec = words.address();
    let flags = words.address();
    let mpidr = words.address();
    let pc = words.address();
    let mut gprs = [0; 8];
    words.addresses(&mut gprs);
    let mut places = [0; AUX_LIMIT];
    let aux = &mut places[..words.count()];
    words.addresses(aux);
    let params = RecParams::new(flags, mpidr, pc, gprs, aux);
    words.end(Command::RecCreate { rec, params })
}

fn activate(rest: &[u8]) -> Option<Command>
    ensures { Reads (codes "activate" ++ rest.now) result }
{
    let words = Words::new(rest);
    words.end(Command::Activate)
}
