// Scripts, with what the program says where one ends early.
ghost use Rattle.std.specs.Prelude.{OnOk, IfErr};
ghost use Rattle.nr_script.specs.Lines.{lines_of};
ghost use Rattle.nr_script.specs.Scripts.{PrintsAll};
ghost use Rattle.nr_server.specs.Plays.{EndsScript};

use crate::fault::Fault;
use std::alloc::Global;
use std::hash::RandomState;
use std::io::Write;

/// Plays a script of this text on a writer, as [`nr_script::script_on`] does: the writer takes what the steps print, a line each.
///
/// # Errors
///
/// `BadStep` with the number of a line that can't be taken, `Write` where the writer fails, `Memory` where memory runs out.
pub fn play_on<W: Write>(
    alloc: Global,
    keys: RandomState,
    text: &[u8],
    writer: &mut W,
) -> Result<(), Fault>
    ensures ok { OnOk result (PrintsAll (lines_of text.now) (W.contents writer.old) (W.contents writer.new)) }
    ensures err { IfErr result (λ why. EndsScript why (lines_of text.now) (W.contents writer.old) (W.contents writer.new)) }
{
    nr_script::script_on(alloc, keys, text, writer)?;
    Ok(())
}
