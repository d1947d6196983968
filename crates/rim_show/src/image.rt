//! The texts that show an Image.
ghost use Rattle.std.specs.Prelude.{◌≡◌, ◌++◌, IfOk, OnOk};
ghost use Rattle.refusal.specs.Answer.{Answers};
ghost use Rattle.rim_show.specs.ShownImage.{field_line, image_answer_of, image_text_of};

use crate::fault::ShowFault;
use arm64_image::Header;
use refusal::NoMemory;
use rim_desc::push_digits;
use std::alloc::Global;

/// The header of an arm64 Image, a line for each number: `text_offset`, `image_size` and `flags` as
/// they are in it, and the load offset and the extent in bytes that follow from them. A number is 16
/// lower case hexadecimal digits.
pub fn show_image(alloc: Global, bytes: &[u8]) -> Result<Vec<u8>, ShowFault>
    ensures { Answers ShowFault.NoMemory (λ text. text.items) result (image_answer_of bytes.now) }
{
    let header = arm64_image::read(bytes)?;
    let text = image_text(alloc, &header, bytes.len() as u64)?;
    Ok(text)
}

fn image_text(alloc: Global, header: &Header, file_len: u64) -> Result<Vec<u8>, NoMemory>
    ensures { IfOk result (λ text. text.items ≡ image_text_of header.now file_len) }
{
    let mut text = Vec::new(alloc);
    push_field(&mut text, "text_offset ", header.text_offset)?;
    push_field(&mut text, "image_size ", header.image_size)?;
    push_field(&mut text, "flags ", header.flags)?;
    push_field(&mut text, "load_offset ", header.load_offset())?;
    push_field(&mut text, "extent ", header.extent(file_len))?;
    Ok(text)
}

/// Adds a line that has a label and a number.
#[tactic(auto, unfolding(crate::specs::ShownImage::field_line))]
fn push_field(text: &mut Vec<u8>, label: &str, number: u64) -> Result<(), NoMemory>
    ensures { OnOk result (text.new.items ≡ text.old.items ++ field_line label.now number) }
{
    text.extend_from_slice(label.as_bytes())?;
    push_digits(text, number)?;
    text.extend_from_slice(b"\n")?;
    Ok(())
}
