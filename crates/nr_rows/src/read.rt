// The lines of a file, put together into rows.
use crate::failure::{Failure, LineFault};
use crate::line::{Line, parse};
use crate::rows::{Claim, Input, Row};
use std::alloc::Global;

fn add_input(rows: &mut [Row], input: Input) -> Result<(), LineFault> {
    let Some(row) = rows.last_mut() else {
        return Err(LineFault::NoRow);
    };
    row.inputs.push(input)?;
    Ok(())
}

fn add_claim(rows: &mut [Row], claim: Claim) -> Result<(), LineFault> {
    let Some(row) = rows.last_mut() else {
        return Err(LineFault::NoRow);
    };
    let Some(input) = row.inputs.last_mut() else {
        return Err(LineFault::NoInput);
    };
    input.claims.push(claim)?;
    Ok(())
}

// Takes a line.
fn add(alloc: Global, rows: &mut Vec<Row>, number: usize, text: &str) -> Result<(), LineFault> {
    match parse(alloc, text)? {
        Line::Blank => {}
        Line::Row => rows.push(Row {
            inputs: Vec::new(alloc),
        })?,
        Line::Input(name, moment, action) => add_input(
            rows,
            Input {
                line: number,
                name,
                moment,
                action,
                claims: Vec::new(alloc),
            },
        )?,
        Line::Claim(name, fact) => add_claim(
            rows,
            Claim {
                line: number,
                name,
                fact,
            },
        )?,
    }
    Ok(())
}

/// The rows of a text. Linear in the text.
///
/// # Errors
///
/// The first line that can't be read, or the refusal of memory.
pub(crate) fn read(alloc: Global, text: &str) -> Result<Vec<Row>, Failure> {
    let mut rows = Vec::new(alloc);
    for (before, line) in text.lines().enumerate() {
        match add(alloc, &mut rows, before + 1, line) {
            Ok(()) => {}
            Err(LineFault::Memory) => return Err(Failure::Memory),
            Err(fault) => return Err(Failure::Line(before + 1, fault)),
        }
    }
    Ok(rows)
}
