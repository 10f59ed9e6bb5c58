// Bytes on the output.
use std::io;

// Two digits for each byte.
pub(crate) fn hexadecimal(rt: &impl Print, bytes: &[u8]) -> io::Result<()> {
    for byte in bytes {
        print!(rt; "{byte:02x}")?;
    }
    Ok(())
}
