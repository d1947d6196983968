//! Measurement descriptors.
ghost use Rattle.std.specs.Prelude.{◌≡◌, option_map};
ghost use Rattle.rim_desc.specs.Page.{zeros};
ghost use Rattle.rim_desc.specs.Descriptor.{data_descriptor_of, heading, rec_descriptor_of, ripas_descriptor_of};
ghost use Rattle.rim_desc.specs.Page.{with_fields};

use crate::measurement::Measurement;
use crate::page::put;

/// The bytes of a measurement descriptor.
pub const DESCRIPTOR_SIZE: usize = 256;

/// The descriptor of a page of data at an IPA, with the measurement of its bytes unless the content
/// is not measured (DEN0137, RmmMeasurementDescriptorData).
#[tactic(auto, unfolding(crate::specs::Page::zeros))]
pub fn data_descriptor(
    rim: &Measurement,
    ipa: u64,
    content: Option<&Measurement>,
) -> [u8; DESCRIPTOR_SIZE]
    ensures { result
        ≡ data_descriptor_of rim.now.bytes ipa (option_map (λ m. m.now.bytes) content.entry) }
{
    let mut descriptor = headed(0, rim);
    put(&mut descriptor, 0x50, &ipa.to_le_bytes());
    match content {
        Some(content) => {
            put(&mut descriptor, 0x58, &1u64.to_le_bytes());
            put(&mut descriptor, 0x60, &content.bytes);
        }
        None => {
            put(&mut descriptor, 0x58, &0u64.to_le_bytes());
            put(&mut descriptor, 0x60, &[0; 64]);
        }
    }
    descriptor
}

/// The descriptor of a REC, by the measurement of its page (DEN0137, RmmMeasurementDescriptorRec).
pub fn rec_descriptor(rim: &Measurement, content: &Measurement) -> [u8; DESCRIPTOR_SIZE]
    ensures { result ≡ rec_descriptor_of rim.now.bytes content.now.bytes }
{
    let mut descriptor = headed(1, rim);
    put(&mut descriptor, 0x50, &content.bytes);
    descriptor
}

/// The descriptor of a stretch of IPA space that becomes RAM, from its first address to the first
/// address past it (DEN0137, RmmMeasurementDescriptorRipas).
pub fn ripas_descriptor(rim: &Measurement, base: u64, top: u64) -> [u8; DESCRIPTOR_SIZE]
    ensures { result ≡ ripas_descriptor_of rim.now.bytes base top }
{
    let mut descriptor = headed(2, rim);
    put(&mut descriptor, 0x50, &base.to_le_bytes());
    put(&mut descriptor, 0x58, &top.to_le_bytes());
    descriptor
}

/// A descriptor that has its type, its length and the present measurement.
fn headed(type_number: u8, rim: &Measurement) -> [u8; DESCRIPTOR_SIZE]
    ensures { result ≡ with_fields (zeros 256) (heading type_number rim.now.bytes) }
{
    let mut descriptor = zero_descriptor();
    put(&mut descriptor, 0x0, &[type_number]);
    put(
        &mut descriptor,
        0x8,
        &(DESCRIPTOR_SIZE as u64).to_le_bytes(),
    );
    put(&mut descriptor, 0x10, &rim.bytes);
    descriptor
}

fn zero_descriptor() -> [u8; DESCRIPTOR_SIZE]
    ensures { result ≡ zeros 256 }
{
    [0; DESCRIPTOR_SIZE]
}
