// One line of a row file, read into what it says.
use crate::failure::LineFault;
use crate::rows::{Action, Fact};
use crate::text::unescaped;
use itoa::Buffer;
use std::alloc::Global;

/// What a line says.
#[derive(Drop)]
pub(crate) enum Line {
    /// Nothing: it is blank or a comment.
    Blank,
    /// A row begins.
    Row,
    /// A connection does something at a moment.
    Input(u64, u64, Action),
    /// Something is true of a connection.
    Claim(u64, Fact),
}

fn number(text: &str) -> Result<u64, LineFault> {
    match text.parse::<u64>() {
        Ok(number) => Ok(number),
        Err(_) => Err(LineFault::Number),
    }
}

// A header of a request: a kind of line, a number, and its end.
fn push_header(bytes: &mut Vec<u8>, kind: u8, count: usize) -> Result<(), LineFault> {
    bytes.push(kind)?;
    bytes.extend_from_slice(Buffer::new().format(count).as_bytes())?;
    bytes.extend_from_slice(b"\r\n")?;
    Ok(())
}

// A request of these words, an array of bulks.
fn request(alloc: Global, words: &str) -> Result<Vec<u8>, LineFault> {
    let mut bytes = Vec::new(alloc);
    push_header(&mut bytes, b'*', words.split(' ').count())?;
    for word in words.split(' ') {
        if word.is_empty() {
            return Err(LineFault::Form);
        }
        let word = unescaped(alloc, word)?;
        push_header(&mut bytes, b'$', word.len())?;
        bytes.extend_from_slice(&word)?;
        bytes.extend_from_slice(b"\r\n")?;
    }
    Ok(bytes)
}

// What stands behind the moment of an input.
fn action(alloc: Global, text: &str) -> Result<Action, LineFault> {
    if text == "close" {
        return Ok(Action::Close);
    }
    match text.strip_prefix("bytes ") {
        Some(spelled) => Ok(Action::Send(unescaped(alloc, spelled)?)),
        None => Ok(Action::Send(request(alloc, text)?)),
    }
}

// What stands behind the connection of a line.
fn line_of(alloc: Global, name: u64, text: &str) -> Result<Line, LineFault> {
    if text == "ended" {
        return Ok(Line::Claim(name, Fact::Ended));
    }
    let Some((moment, rest)) = text.split_once(' ') else {
        return Err(LineFault::Form);
    };
    Ok(Line::Input(name, number(moment)?, action(alloc, rest)?))
}

/// What a line says.
pub(crate) fn parse(alloc: Global, text: &str) -> Result<Line, LineFault> {
    if text.is_empty() || text.starts_with('#') {
        return Ok(Line::Blank);
    }
    let Some((head, rest)) = text.split_once(' ') else {
        return Err(LineFault::Form);
    };
    if head == "row" {
        number(rest)?;
        return Ok(Line::Row);
    }
    match head.strip_suffix('<') {
        Some(name) => Ok(Line::Claim(number(name)?, Fact::Handed(unescaped(alloc, rest)?))),
        None => line_of(alloc, number(head)?, rest),
    }
}
