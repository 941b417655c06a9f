//! Numbers in a text.

ghost use Rattle.std.specs.Prelude.{◌≡◌, ◌++◌, OnOk};
ghost use Rattle.std.specs.Fmt.{decimal};
ghost use Rattle.sch_listing.specs.Lines.{address_text, number_line, numbers_text};

use hex::encode_to_slice;
use itoa::Buffer;
use sch_word::{Bytes, Mem};

/// Writes a number in decimal.
pub(crate) fn write_number(out: &mut Bytes, number: u64) -> Result<(), Mem>
    ensures { OnOk result (out.new ≡ out.old ++ decimal number) }
{
    let mut buffer = Buffer::new();
    out.extend_from_slice(buffer.format(number).as_bytes())
}

/// Writes numbers in decimal, each behind a space.
pub(crate) fn write_numbers(out: &mut Bytes, numbers: &[u32]) -> Result<(), Mem>
    ensures { OnOk result (out.new ≡ out.old ++ numbers_text numbers.now) }
{
    for number in numbers {
        out.extend_from_slice(b" ")?;
        write_number(out, u64::from(*number))?;
    }
    Ok(())
}

/// Writes a line of a word and a number.
#[tactic(auto, unfolding(crate::specs::Lines::number_line))]
pub fn write_number_line(out: &mut Bytes, word: &[u8], number: u64) -> Result<(), Mem>
    ensures { OnOk result (out.new ≡ out.old ++ number_line word.now number) }
{
    out.extend_from_slice(word)?;
    out.extend_from_slice(b" ")?;
    write_number(out, number)?;
    out.extend_from_slice(b"\n")
}

/// Writes an address in 8 hexadecimal digits in lower case.
pub(crate) fn write_address(out: &mut Bytes, address: u32) -> Result<(), Mem>
    ensures { OnOk result (out.new ≡ out.old ++ address_text address) }
{
    let digits = address_digits(address);
    out.extend_from_slice(&digits)
}

/// An address in 8 hexadecimal digits in lower case.
pub fn address_digits(address: u32) -> [u8; 8]
    ensures { result ≡ address_text address }
{
    let mut digits = [0; 8];
    let _ = encode_to_slice(address.to_be_bytes(), &mut digits);
    digits
}
