// Scripts with what they print, played line by line.
use crate::failure::{Failure, LineFault};
use nr_script::{PlayError, Player};
use std::alloc::{AllocError, Global};
use std::hash::RandomState;
use std::mem;

/// What a line of a script printed otherwise than the file says. A line that says no step that can be taken there prints `!`.
#[derive(Drop)]
pub(crate) struct Misprint {
    pub line: usize,
    pub expected: Vec<u8>,
    pub got: Vec<u8>,
}

/// How many scripts and steps were played, and what they printed otherwise than the file says.
#[derive(Drop)]
pub(crate) struct PlayedScripts {
    pub scripts: usize,
    pub steps: usize,
    pub misprints: Vec<Misprint>,
}

// A script that is played: the number of the line that was taken last, what it printed, and what it was to print.
#[derive(Drop)]
struct Script {
    player: Player,
    line: usize,
    got: Vec<u8>,
    expected: Vec<u8>,
}

impl Script {
    fn new(alloc: Global, keys: RandomState) -> Script {
        Script {
            player: Player::new(alloc, keys),
            line: 0,
            got: Vec::new(alloc),
            expected: Vec::new(alloc),
        }
    }

    // Takes a line.
    fn take(&mut self, number: usize, text: &str) -> Result<(), LineFault> {
        self.line = number;
        match self.player.play(text.as_bytes(), &mut self.got) {
            Ok(()) => Ok(()),
            Err(PlayError::Memory) => Err(LineFault::Memory),
            Err(PlayError::BadStep) => {
                self.got.extend_from_slice(b"!\n")?;
                Ok(())
            }
        }
    }

    // The last line is to print this.
    fn expect(&mut self, text: &str) -> Result<(), LineFault> {
        self.expected.extend_from_slice(text.as_bytes())?;
        self.expected.push(b'\n')?;
        Ok(())
    }

    // Compares what the last line printed with what it was to print.
    fn compare(&mut self, alloc: Global, misprints: &mut Vec<Misprint>) -> Result<(), AllocError> {
        let got = mem::replace(&mut self.got, Vec::new(alloc));
        let expected = mem::replace(&mut self.expected, Vec::new(alloc));
        if got != expected {
            misprints.push(Misprint {
                line: self.line,
                expected,
                got,
            })?;
        }
        Ok(())
    }
}

// Takes a line of a file.
fn add(
    alloc: Global,
    keys: RandomState,
    script: &mut Script,
    played: &mut PlayedScripts,
    number: usize,
    text: &str,
) -> Result<(), LineFault> {
    if let Some(printed) = text.strip_prefix("= ") {
        return script.expect(printed);
    }
    if text == "!" {
        return script.expect(text);
    }
    script.compare(alloc, &mut played.misprints)?;
    if text.starts_with("script ") {
        *script = Script::new(alloc, keys);
        played.scripts = played.scripts.saturating_add(1);
        return Ok(());
    }
    if !text.is_empty() && !text.starts_with('#') {
        played.steps = played.steps.saturating_add(1);
    }
    script.take(number, text)
}

/// Plays the scripts of a text, and compares what each line prints with what stands behind it. Linear in the text.
pub(crate) fn play_scripts(
    alloc: Global,
    keys: RandomState,
    text: &str,
) -> Result<PlayedScripts, Failure> {
    let mut played = PlayedScripts {
        scripts: 0,
        steps: 0,
        misprints: Vec::new(alloc),
    };
    let mut script = Script::new(alloc, keys);
    for (before, line) in text.lines().enumerate() {
        match add(alloc, keys, &mut script, &mut played, before + 1, line) {
            Ok(()) => {}
            Err(LineFault::Memory) => return Err(Failure::Memory),
            Err(fault) => return Err(Failure::Line(before + 1, fault)),
        }
    }
    script.compare(alloc, &mut played.misprints)?;
    Ok(played)
}
