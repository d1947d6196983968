//! Numbers as the project's texts print them.
ghost use Rattle.std.specs.Prelude.{◌≡◌, ◌++◌, OnErr, OnOk};
ghost use Rattle.rim_desc.specs.Number.{digits_of};

use refusal::NoMemory;

/// Adds a 64-bit number to a text, as 16 lower case hexadecimal digits. After want of memory the text is
/// as it was.
pub fn push_digits(text: &mut Vec<u8>, number: u64) -> Result<(), NoMemory>
    ensures added { OnOk result (text.new.items ≡ text.old.items ++ digits_of number) }
    ensures kept { OnErr result (text.new.items ≡ text.old.items) }
{
    text.extend_from_slice(&digits(number))?;
    Ok(())
}

fn digits(number: u64) -> [u8; 16]
    ensures { result ≡ digits_of number }
{
    let mut digits = [0; 16];
    match hex::encode_to_slice(number.to_be_bytes(), &mut digits) {
        Ok(()) => digits,
        Err(_) => unreachable!(),
    }
}
