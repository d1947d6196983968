//! Measuring on the way of commands.
ghost use Rattle.std.specs.Prelude.{◌≡◌, option_map};
ghost use Rattle.rim_desc.specs.Page.{zeros};
ghost use Rattle.rim_desc.specs.Part.{Data, Rec, extended};
ghost use Rattle.rmm_model.specs.State.{algo_of, measured_so_far};

use rim_desc::{Algo, Measurement, RealmParams, data_descriptor, extend, rec_descriptor};

/// The hash algorithm of a realm with these parameters.
pub fn algo_of(params: Option<RealmParams>) -> Algo
    ensures { result ≡ algo_of params }
{
    match params {
        Some(params) => params.algo,
        None => Algo::Sha256,
    }
}

/// The measurement so far, or zero bytes.
pub fn measured_so_far(rim: Option<Measurement>) -> Measurement
    ensures { result.bytes ≡ measured_so_far (option_map (λ m. m.bytes) rim) }
{
    match rim {
        Some(rim) => rim,
        None => zero_measurement(),
    }
}

fn zero_measurement() -> Measurement
    ensures { result.bytes ≡ zeros 64 }
{
    Measurement { bytes: [0; 64] }
}

/// A measurement extended by a page of data.
pub fn extended_by_data(
    algo: Algo,
    rim: Measurement,
    ipa: u64,
    content: Option<Measurement>,
) -> Measurement
    ensures { result.bytes
        ≡ extended algo rim.bytes (Data ipa (option_map (λ m. m.bytes) content)) }
{
    extend(algo, &data_descriptor(&rim, ipa, content.as_ref()))
}

/// A measurement extended by a REC whose page has this measurement.
pub fn extended_by_rec(algo: Algo, rim: Measurement, content: Measurement) -> Measurement
    ensures { result.bytes ≡ extended algo rim.bytes (Rec content.bytes) }
{
    extend(algo, &rec_descriptor(&rim, &content))
}
