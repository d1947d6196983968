//! The words of a line, each added with the space before it. After want of memory a line is not used again.
ghost use Rattle.std.specs.Prelude.{◌≡◌, ◌++◌, OnOk, decimal, map};
ghost use Rattle.std.specs.List.{flat_map};
ghost use Rattle.hex.specs.Hex.{encode_lower};
ghost use Rattle.rim_desc.specs.Number.{digits_of};
ghost use Rattle.rmi_line.specs.inside.Words.{spaced};

use itoa::Buffer;
use refusal::NoMemory;
use rim_desc::push_digits;

/// Adds a word.
pub fn push_word(line: &mut Vec<u8>, word: &[u8]) -> Result<(), NoMemory>
    ensures { OnOk result (line.new.items ≡ line.old.items ++ spaced word.now) }
{
    line.extend_from_slice(b" ")?;
    line.extend_from_slice(word)?;
    Ok(())
}

/// Adds an address, or another number of 64 bits.
pub fn push_address(line: &mut Vec<u8>, address: u64) -> Result<(), NoMemory>
    ensures { OnOk result (line.new.items ≡ line.old.items ++ spaced (digits_of address)) }
{
    line.extend_from_slice(b" ")?;
    push_digits(line, address)
}

/// Adds addresses, in their order.
pub fn push_addresses(line: &mut Vec<u8>, addresses: &[u64]) -> Result<(), NoMemory>
    ensures { OnOk result
        (line.new.items ≡ line.old.items ++ flat_map spaced (map digits_of addresses.now)) }
{
    for address in addresses {
        push_address(line, *address)?;
    }
    Ok(())
}

/// Adds a number of 8 bits.
pub fn push_number(line: &mut Vec<u8>, number: u8) -> Result<(), NoMemory>
    ensures { OnOk result (line.new.items ≡ line.old.items ++ spaced (decimal number)) }
{
    push_word(line, Buffer::new().format(number).as_bytes())
}

/// Adds numbers of 8 bits, in their order.
pub fn push_numbers(line: &mut Vec<u8>, numbers: &[u8]) -> Result<(), NoMemory>
    ensures { OnOk result
        (line.new.items ≡ line.old.items ++ flat_map spaced (map decimal numbers.now)) }
{
    for number in numbers {
        push_number(line, *number)?;
    }
    Ok(())
}

/// Adds the 64 bytes of a measurement, or of a personalization value.
pub fn push_bytes(line: &mut Vec<u8>, bytes: &[u8; 64]) -> Result<(), NoMemory>
    ensures { OnOk result (line.new.items ≡ line.old.items ++ spaced (encode_lower bytes.now)) }
{
    push_word(line, &digits(bytes))
}

fn digits(bytes: &[u8; 64]) -> [u8; 128]
    ensures { result ≡ encode_lower bytes.now }
{
    let mut digits = [0; 128];
    match hex::encode_to_slice(bytes, &mut digits) {
        Ok(()) => digits,
        Err(_) => unreachable!(),
    }
}
