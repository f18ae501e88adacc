// What a script's run prints, a line each.
ghost use Rattle.std.specs.Prelude.{◌≡◌, ◌++◌, ◌∷◌, ◌<◌, [], length, take, codes, decimal, OnOk, OnErr};
ghost use Rattle.nr_script.specs.Printed.{opened_line, idle_line, handed_line, reason_name, reason_number};
ghost use Rattle.nr_script.specs.Texts.{shown, shown_byte, hex_digit};

use itoa::Buffer;
use nr_blob::Memory;
use nr_model::reason::Reason;

/// Appends the line of a script that was set up, or nothing where memory runs out.
pub fn write_ok(out: &mut Vec<u8>) -> Result<(), Memory>
    ensures ok { OnOk result (out.new.items ≡ out.old.items ++ codes "ok\n") }
    ensures err { OnErr result (out.new.items ≡ out.old.items) }
{
    append(b"ok\n", out)
}

/// Appends the line of a step that was done, or nothing where memory runs out.
pub fn write_done(out: &mut Vec<u8>) -> Result<(), Memory>
    ensures ok { OnOk result (out.new.items ≡ out.old.items ++ codes "done\n") }
    ensures err { OnErr result (out.new.items ≡ out.old.items) }
{
    append(b"done\n", out)
}

/// Appends the line of nodes that came to rest, or nothing where memory runs out.
pub fn write_settled(out: &mut Vec<u8>) -> Result<(), Memory>
    ensures ok { OnOk result (out.new.items ≡ out.old.items ++ codes "settled\n") }
    ensures err { OnErr result (out.new.items ≡ out.old.items) }
{
    append(b"settled\n", out)
}

/// Appends the line of a connection that was opened, or nothing where memory runs out.
pub fn write_opened(connection: u64, out: &mut Vec<u8>) -> Result<(), Memory>
    ensures ok { OnOk result (out.new.items ≡ out.old.items ++ opened_line connection) }
    ensures err { OnErr result (out.new.items ≡ out.old.items) }
{
    append_number(b"open ", connection, b"\n", out)
}

/// Appends the line of a step that did nothing, for this reason, or nothing where memory runs out.
pub fn write_idle(reason: Reason, out: &mut Vec<u8>) -> Result<(), Memory>
    ensures ok { OnOk result (out.new.items ≡ out.old.items ++ idle_line reason) }
    ensures err { OnErr result (out.new.items ≡ out.old.items) }
{
    let end = out.len();
    let written = append_idle(reason, out);
    whole_or_none(end, written, out)
}

/// Appends the line of a connection that was handed bytes, or nothing where memory runs out. Linear in them.
pub fn write_handed(connection: u64, bytes: &[u8], out: &mut Vec<u8>) -> Result<(), Memory>
    ensures ok { OnOk result (out.new.items ≡ out.old.items ++ handed_line connection bytes.now) }
    ensures err { OnErr result (out.new.items ≡ out.old.items) }
{
    let end = out.len();
    let written = append_handed(connection, bytes, out);
    whole_or_none(end, written, out)
}

// Takes back what was appended before memory ran out.
fn whole_or_none(end: usize, written: Result<(), Memory>, out: &mut Vec<u8>) -> Result<(), Memory>
    ensures same { result ≡ written }
    ensures ok { OnOk result (out.new.items ≡ out.old.items) }
    ensures err { OnErr result (out.new.items ≡ take end out.old.items) }
{
    if written.is_err() {
        out.truncate(end);
    }
    written
}

// Its number: 1 to 9, in the order in which reasons are looked for.
fn number_of(reason: Reason) -> u64
    ensures { result ≡ reason_number reason }
{
    match reason {
        Reason::NoSuch => 1,
        Reason::Ended => 2,
        Reason::TooMany => 3,
        Reason::Down => 4,
        Reason::Busy => 5,
        Reason::Nothing => 6,
        Reason::Full => 7,
        Reason::NotYet => 8,
        Reason::NoMemory => 9,
    }
}

fn name_of(reason: Reason) -> &'static [u8]
    ensures { result.now ≡ reason_name reason }
{
    match reason {
        Reason::NoSuch => b"NoSuch",
        Reason::Ended => b"Ended",
        Reason::TooMany => b"TooMany",
        Reason::Down => b"Down",
        Reason::Busy => b"Busy",
        Reason::Nothing => b"Nothing",
        Reason::Full => b"Full",
        Reason::NotYet => b"NotYet",
        Reason::NoMemory => b"NoMemory",
    }
}

fn append_idle(reason: Reason, out: &mut Vec<u8>) -> Result<(), Memory>
    ensures ok { OnOk result (out.new.items ≡ out.old.items ++ idle_line reason) }
    ensures err { OnErr result (take (length out.old.items) out.new.items ≡ out.old.items) }
{
    append_number(b"idle ", number_of(reason), b" ", out)?;
    append(name_of(reason), out)?;
    append(b"\n", out)?;
    Ok(())
}

fn append_handed(connection: u64, bytes: &[u8], out: &mut Vec<u8>) -> Result<(), Memory>
    ensures ok { OnOk result (out.new.items ≡ out.old.items ++ handed_line connection bytes.now) }
    ensures err { OnErr result (take (length out.old.items) out.new.items ≡ out.old.items) }
{
    append_number(b"", connection, b" ", out)?;
    append_shown(bytes, out)?;
    append(b"\n", out)?;
    Ok(())
}

fn append(text: &[u8], out: &mut Vec<u8>) -> Result<(), Memory>
    ensures ok { OnOk result (out.new.items ≡ out.old.items ++ text.now) }
    ensures err { OnErr result (out.new.items ≡ out.old.items) }
{
    out.extend_from_slice(text)?;
    Ok(())
}

// A number between two texts.
fn append_number(before: &[u8], number: u64, behind: &[u8], out: &mut Vec<u8>) -> Result<(), Memory>
    ensures ok { OnOk result (out.new.items ≡ out.old.items ++ (before.now ++ decimal number ++ behind.now)) }
    ensures err { OnErr result (out.new.items ≡ out.old.items) }
{
    let end = out.len();
    let written = append_three(before, Buffer::new().format(number).as_bytes(), behind, out);
    whole_or_none(end, written, out)
}

fn append_three(first: &[u8], second: &[u8], third: &[u8], out: &mut Vec<u8>) -> Result<(), Memory>
    ensures ok { OnOk result (out.new.items ≡ out.old.items ++ (first.now ++ second.now ++ third.now)) }
    ensures err { OnErr result (take (length out.old.items) out.new.items ≡ out.old.items) }
{
    append(first, out)?;
    append(second, out)?;
    append(third, out)?;
    Ok(())
}

// Appends bytes as they are shown, or nothing where memory runs out.
fn append_shown(bytes: &[u8], out: &mut Vec<u8>) -> Result<(), Memory>
    ensures ok { OnOk result (out.new.items ≡ out.old.items ++ shown bytes.now) }
    ensures err { OnErr result (out.new.items ≡ out.old.items) }
{
    let end = out.len();
    let written = append_bytes(bytes, out);
    whole_or_none(end, written, out)
}

fn append_bytes(bytes: &[u8], out: &mut Vec<u8>) -> Result<(), Memory>
    ensures ok { OnOk result (out.new.items ≡ out.old.items ++ shown bytes.now) }
    ensures err { OnErr result (take (length out.old.items) out.new.items ≡ out.old.items) }
{
    for byte in bytes {
        append_byte(*byte, out)?;
    }
    Ok(())
}

fn append_byte(byte: u8, out: &mut Vec<u8>) -> Result<(), Memory>
    ensures ok { OnOk result (out.new.items ≡ out.old.items ++ shown_byte byte) }
    ensures err { OnErr result (out.new.items ≡ out.old.items) }
{
    match byte {
        b'\r' => out.extend_from_slice(b"\\r")?,
        b'\n' => out.extend_from_slice(b"\\n")?,
        b'\\' => out.extend_from_slice(b"\\\\")?,
        b' '..=b'~' => out.push(byte)?,
        _ => out.extend_from_slice(&[b'\\', b'x', hex_digit(byte / 16), hex_digit(byte % 16)])?,
    }
    Ok(())
}

fn hex_digit(value: u8) -> u8
    requires { value < 16 }
    ensures { result ≡ hex_digit value }
{
    if value < 10 {
        b'0' + value
    } else {
        b'a' + (value - 10)
    }
}
