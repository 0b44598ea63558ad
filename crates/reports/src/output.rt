// How a text is printed to the output.

ghost use Rattle.std.specs.Prelude.{◌≡◌, IfErr, OnErr, OnOk};
ghost use Rattle.std.specs.Io.KnownBytes.{Appends};
ghost use Rattle.std.specs.IoError.{error_kind};
ghost use Rattle.commands.specs.Runs.{IsCutOff};
ghost use Rattle.commands.specs.declared.batch.StreamFault.TheVariants as streams;
ghost use Rattle.reports.specs.Printed.{IsShown, tells_closed};

use commands::batch::StreamFault;
use std::io::{self, ErrorKind, Write};

/// Writes all of a text to the output. Where it fails, something of the text isn't written.
pub fn print<O: Write>(output: &mut O, text: &[u8]) -> Result<(), StreamFault>
    ensures bytes { OnOk result (Appends (O.contents output.old) (O.contents output.new) text.now) }
    ensures cut_off { OnErr result
        (IsCutOff text.now (O.contents output.old) (O.contents output.new)) }
    ensures fault { IfErr result (λ fault. fault ≡ streams.Write) }
{
    match written(output, text) {
        Ok(()) => Ok(()),
        Err(_) => Err(StreamFault::Write),
    }
}

/// Writes a text that people read to the output, and tells whether all of it went. Who closes the output early,
/// as `head` does, has read what they wanted, and that is no fault.
pub fn show<O: Write>(output: &mut O, text: &[u8]) -> Result<bool, StreamFault>
    ensures { IsShown text.now result (O.contents output.old) (O.contents output.new) }
{
    match written(output, text) {
        Ok(()) => Ok(true),
        Err(error) => {
            if is_closed(&error) {
                Ok(false)
            } else {
                Err(StreamFault::Write)
            }
        }
    }
}

/// Whether an error tells that who reads the output has closed it.
pub fn is_closed(error: &io::Error) -> bool
    ensures { result ≡ tells_closed (error_kind error.now) }
{
    match error.kind() {
        ErrorKind::BrokenPipe => true,
        _ => false,
    }
}

/// Writes all of a text, in as many calls as it takes, or tells why not. `std`'s call of this name doesn't say
/// that something is missing where it fails.
fn written<O: Write>(output: &mut O, text: &[u8]) -> io::Result<()>
    ensures bytes { OnOk result (Appends (O.contents output.old) (O.contents output.new) text.now) }
    ensures cut_off { OnErr result
        (IsCutOff text.now (O.contents output.old) (O.contents output.new)) }
{
    let mut rest = text;
    while !rest.is_empty() {
        match output.write(rest) {
            Ok(0) => return Err(io::Error::from(ErrorKind::WriteZero)),
            Ok(count) => rest = rest.split_at(count).1,
            Err(error) => return Err(error),
        }
    }
    Ok(())
}
