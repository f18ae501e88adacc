// Scripts, from their text to what they print, on any writer.
ghost use Rattle.std.specs.Prelude.{◌≡◌, OnOk, IfErr};
ghost use Rattle.std.specs.Io.KnownBytes.{Appends, Keeps};
ghost use Rattle.nr_script.specs.declared.playing.ScriptError.TheVariants as errors;
ghost use Rattle.nr_script.specs.Lines.{lines_of};
ghost use Rattle.nr_script.specs.Playing.{IsPlayed};
ghost use Rattle.nr_script.specs.Scripts.{PrintsAll, EndsBy, IsEnded, ended_at};

use crate::parts::Lines;
use crate::player::{PlayError, Player};
use std::alloc::Global;
use std::hash::RandomState;
use std::io::Write;

/// Why a script ended before its last line.
#[derive(Clone, Copy, Debug, PartialEq, Eq)]
pub enum ScriptError {
    /// The line with this number, from 1, says no step, or none that can be taken there.
    BadStep(u64),
    /// The writer failed.
    Write,
    /// Memory ran out.
    Memory,
}

/// Plays a script: takes each of its lines and writes what comes of it before the next one. Blank lines and those that begin with `#` say
/// nothing.
///
/// # Errors
///
/// `BadStep` with the number of a line that can't be taken, `Write` where the writer fails, `Memory` where memory runs out.
pub fn script_on<W: Write>(
    alloc: Global,
    keys: RandomState,
    text: &[u8],
    writer: &mut W,
) -> Result<(), ScriptError>
    ensures ok { OnOk result (PrintsAll (lines_of text.now) (W.contents writer.old) (W.contents writer.new)) }
    ensures err { IfErr result (λ why. EndsBy why (lines_of text.now) (W.contents writer.old) (W.contents writer.new)) }
{
    let mut player = Player::new(alloc, keys);
    let mut lines = Lines::new(text);
    let mut out = Vec::new(alloc);
    while let Some((number, line)) = lines.next_line() {
        play_line(&mut player, number, line, &mut out)?;
        write_out(&out, writer)?;
        out.clear();
    }
    flush(writer)?;
    Ok(())
}

// Takes the line of this number.
fn play_line(
    player: &mut Player,
    number: u64,
    line: &[u8],
    out: &mut Vec<u8>,
) -> Result<(), ScriptError>
    ensures played { OnOk result (IsPlayed line.now player.old player.new out.old.items out.new.items) }
    ensures ended { IfErr result (λ why. IsEnded why number line.now player.old) }
{
    match player.play(line, out) {
        Ok(()) => Ok(()),
        Err(error) => Err(ended_at(number, error)),
    }
}

fn ended_at(number: u64, error: PlayError) -> ScriptError
    ensures { result ≡ ended_at number error }
{
    match error {
        PlayError::BadStep => ScriptError::BadStep(number),
        PlayError::Memory => ScriptError::Memory,
    }
}

fn write_out<W: Write>(bytes: &[u8], writer: &mut W) -> Result<(), ScriptError>
    ensures written { OnOk result (Appends (W.contents writer.old) (W.contents writer.new) bytes.now) }
    ensures failed { IfErr result (λ why. why ≡ errors.Write) }
{
    match writer.write_all(bytes) {
        Ok(()) => Ok(()),
        Err(_) => Err(ScriptError::Write),
    }
}

fn flush<W: Write>(writer: &mut W) -> Result<(), ScriptError>
    ensures kept { Keeps (W.contents writer.old) (W.contents writer.new) }
    ensures failed { IfErr result (λ why. why ≡ errors.Write) }
{
    match writer.flush() {
        Ok(()) => Ok(()),
        Err(_) => Err(ScriptError::Write),
    }
}
