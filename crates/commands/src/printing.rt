ghost use Rattle.std.specs.Prelude.{◌≡◌, IfErr, OnErr, OnOk};
ghost use Rattle.std.specs.Io.KnownBytes.{Appends};
ghost use Rattle.commands.specs.Refusal.{IsPrintFault};
ghost use Rattle.commands.specs.Status.{exit_status};
ghost use Rattle.commands.specs.Told.{AppendsBeginning};

use crate::error::CommandError;
use crate::telling::write_bytes;
use std::io::Write;

/// Writes the bytes, and sends them off. Where that fails, a beginning of them was written.
pub fn print_all<O: Write>(out: &mut O, bytes: &[u8]) -> Result<(), CommandError>
    ensures printed { OnOk result (Appends (O.contents out.old) (O.contents out.new) bytes.now) }
    ensures begun { OnErr result
        (AppendsBeginning (O.contents out.old) (O.contents out.new) bytes.now) }
    ensures fault { IfErr result IsPrintFault }
    ensures status { IfErr result (λ e. exit_status e ≡ 3) }
{
    write_bytes(out, bytes)?;
    out.flush().map_err(CommandError::Output)
}
