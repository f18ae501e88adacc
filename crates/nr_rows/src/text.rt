// Bytes as row files spell them: printable ASCII stands for itself, all else is written with a backslash.
use crate::failure::LineFault;
use std::alloc::Global;
use std::fmt;

// What the bytes before have begun.
#[derive(Clone, Copy, PartialEq, Eq)]
enum Begun {
    Nothing,
    Escape,
    Hex,
    HexDigit(u8),
}

// Bytes that are being read.
#[derive(Drop)]
struct Unescaping {
    bytes: Vec<u8>,
    begun: Begun,
}

fn hex_digit(byte: u8) -> Result<u8, LineFault> {
    match byte {
        b'0'..=b'9' => Ok(byte - b'0'),
        b'a'..=b'f' => Ok(byte - b'a' + 10),
        _ => Err(LineFault::Spelling),
    }
}

impl Unescaping {
    fn take(&mut self, byte: u8) -> Result<(), LineFault> {
        match self.begun {
            Begun::Nothing => self.take_plain(byte),
            Begun::Escape => self.take_escape(byte),
            Begun::Hex => {
                self.begun = Begun::HexDigit(hex_digit(byte)?);
                Ok(())
            }
            Begun::HexDigit(high) => self.put(high << 4 | hex_digit(byte)?),
        }
    }

    fn take_plain(&mut self, byte: u8) -> Result<(), LineFault> {
        match byte {
            b'\\' => self.begun = Begun::Escape,
            b' '..=b'~' => self.bytes.push(byte)?,
            _ => return Err(LineFault::Spelling),
        }
        Ok(())
    }

    fn take_escape(&mut self, byte: u8) -> Result<(), LineFault> {
        match byte {
            b'r' => self.put(b'\r'),
            b'n' => self.put(b'\n'),
            b'\\' => self.put(b'\\'),
            b'x' => {
                self.begun = Begun::Hex;
                Ok(())
            }
            b'e' => {
                self.begun = Begun::Nothing;
                Ok(())
            }
            _ => Err(LineFault::Spelling),
        }
    }

    // A byte that was spelled to its end.
    fn put(&mut self, byte: u8) -> Result<(), LineFault> {
        self.bytes.push(byte)?;
        self.begun = Begun::Nothing;
        Ok(())
    }
}

/// The bytes that a text spells: `\r`, `\n`, `\\`, `\xHH`, and `\e` for none at all.
pub(crate) fn unescaped(alloc: Global, text: &str) -> Result<Vec<u8>, LineFault> {
    let mut unescaping = Unescaping {
        bytes: Vec::new(alloc),
        begun: Begun::Nothing,
    };
    for byte in text.bytes() {
        unescaping.take(byte)?;
    }
    if unescaping.begun != Begun::Nothing {
        return Err(LineFault::Spelling);
    }
    Ok(unescaping.bytes)
}

const HEX_DIGITS: &[u8; 16] = b"0123456789abcdef";

/// Bytes that are shown as row files spell them.
#[derive(Drop)]
pub(crate) struct Escaped<'a>(pub(crate) &'a [u8]);

// The two hexadecimal digits of a byte, in lower case.
fn write_hex<W: fmt::Write>(f: &mut fmt::Formatter<W>, byte: u8) -> fmt::Result {
    f.write_str("\\x")?;
    f.write_char(char::from(HEX_DIGITS[(byte >> 4) as usize]))?;
    f.write_char(char::from(HEX_DIGITS[(byte & 15) as usize]))
}

fn write_byte<W: fmt::Write>(f: &mut fmt::Formatter<W>, byte: u8) -> fmt::Result {
    match byte {
        b'\r' => f.write_str("\\r"),
        b'\n' => f.write_str("\\n"),
        b'\\' => f.write_str("\\\\"),
        b' '..=b'~' => f.write_char(char::from(byte)),
        _ => write_hex(f, byte),
    }
}

impl fmt::Display for Escaped<'_> {
    fn fmt<W: fmt::Write>(&self, f: &mut fmt::Formatter<W>) -> fmt::Result {
        if self.0.is_empty() {
            return f.write_str("\\e");
        }
        for byte in self.0 {
            write_byte(f, *byte)?;
        }
        Ok(())
    }
}
