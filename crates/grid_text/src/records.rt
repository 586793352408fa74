//! The records of a text, one after the other.

ghost use Rattle.std.specs.Prelude.{◌≡◌, ◌∷◌, [], true, false, Ok, IfErr};
ghost use Rattle.csv.specs.Records.{fields_of};
ghost use Rattle.grid_text.specs.Reader.{IsReading, left_of};
ghost use Rattle.grid_text.specs.Records.{records_of};
ghost use Rattle.grid_text.specs.declared.fault.TextFault.TheVariants.{NoMemory};

use crate::TextFault;
use csv::{ByteRecord, ErrorKind, Reader, ReaderBuilder};
use std::alloc::Global;

/// A reader of the records of a text, at the first of them.
pub(crate) fn open(alloc: Global, text: &[u8]) -> Reader<&[u8]>
    ensures reading { IsReading result }
    ensures left { left_of result ≡ records_of text.now }
{
    ReaderBuilder::new()
        .has_headers(false)
        .flexible(true)
        .from_reader(alloc, text)
}

/// Reads the next record into `fields`, and answers whether there was one. A record of another length is no error.
pub(crate) fn next(reader: &mut Reader<&[u8]>, fields: &mut ByteRecord) -> Result<bool, TextFault>
    requires { IsReading reader.old }
    ensures reading { result ≡ Ok true → IsReading reader.new }
    ensures found { result ≡ Ok true → left_of reader.old ≡ fields_of fields.new ∷ left_of reader.new }
    ensures none { result ≡ Ok false → left_of reader.old ≡ [] }
    ensures fault { IfErr result (λ fault. fault ≡ NoMemory) }
{
    match reader.read_byte_record(fields) {
        Ok(found) => Ok(found),
        Err(error) => match error.kind() {
            // The bytes are in memory, and no read of them fails; but no contract of `csv` says so.
            ErrorKind::Io(_) | ErrorKind::OutOfMemory => Err(TextFault::NoMemory),
            _ => unreachable!(),
        },
    }
}
