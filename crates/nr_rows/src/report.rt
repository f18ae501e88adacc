// What came of a file's rows: a line for the file, or a line for each difference.
use crate::play::{Difference, Mismatch, Played};
use crate::scripts::PlayedScripts;
use crate::text::Escaped;
use std::{fmt, io};

impl fmt::Display for Difference {
    fn fmt<W: fmt::Write>(&self, f: &mut fmt::Formatter<W>) -> fmt::Result {
        let name = self.name;
        match &self.mismatch {
            Mismatch::Handed { expected, got } => {
                let expected = Escaped(expected);
                let got = Escaped(got);
                write!(f, "connection {name}: expected {expected}, got {got}")
            }
            Mismatch::GoesOn => write!(f, "connection {name}: expected its end, and it goes on"),
        }
    }
}

/// Shows each difference with its file and line and how many nodes there were, or where there is none how much was played.
pub(crate) fn show(rt: &impl Print, file: &str, nodes: usize, played: &Played) -> io::Result<()> {
    for difference in &played.differences {
        let line = difference.line;
        println!(rt; "{file}:{line}: on {nodes} nodes: {difference}")?;
    }
    if played.differences.is_empty() {
        let rows = played.rows;
        let inputs = played.inputs;
        println!(rt; "{file}: {rows} rows, {inputs} requests on {nodes} nodes")?;
    }
    Ok(())
}

/// The same for scripts.
pub(crate) fn show_scripts(rt: &impl Print, file: &str, played: &PlayedScripts) -> io::Result<()> {
    for misprint in &played.misprints {
        let line = misprint.line;
        let expected = Escaped(&misprint.expected);
        let got = Escaped(&misprint.got);
        println!(rt; "{file}:{line}: expected {expected}, got {got}")?;
    }
    if played.misprints.is_empty() {
        let scripts = played.scripts;
        let steps = played.steps;
        println!(rt; "{file}: {scripts} scripts, {steps} steps")?;
    }
    Ok(())
}
