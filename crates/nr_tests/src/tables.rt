// Tables of packed pairs: that calls succeed with memory at hand, that a refusal in the middle leaves what was there, and what a table grows to.
use nr_blob::{Blob, Memory};
use nr_packs::Table;
use std::alloc::Global;
use std::hash::RandomState;
use std::process::Abort;
use std::test::Fail;

const MANY: u32 = 100_000;

fn field_of(alloc: Global, number: u32) -> Result<Blob, Memory> {
    Blob::from_slice(alloc, &number.to_be_bytes())
}

fn opened(alloc: Global, keys: RandomState) -> Result<Table, Memory> {
    Table::new(alloc, keys)
}

// The value of a number, by its bytes.
fn has(table: &Table, field: &Blob, value: &[u8]) -> bool {
    match table.get(field) {
        Some(held) => held == value,
        None => false,
    }
}

fn fill(alloc: Global, table: &mut Table, count: u32) -> Result<(), Memory> {
    for number in 0..count {
        let field = field_of(alloc, number)?;
        table.insert(&field, &number.to_be_bytes())?;
    }
    Ok(())
}

// How many fields, in the order that they are listed in, are the numbers from 0 on.
fn counted(table: &Table) -> Result<u32, Memory> {
    let mut next = 0u32;
    for (field, value) in table.pairs()? {
        if field != next.to_be_bytes().as_slice() || value != field {
            return Ok(next);
        }
        next = next.saturating_add(1);
    }
    Ok(next)
}

#[test]
fn each_call_does_its_work(rt: HostRuntime) -> Result<(), Fail> {
    let alloc = rt.alloc();
    let keys = RandomState::new(&rt)?;
    let mut table = opened(alloc, keys)?;
    assert!(rt; table.is_empty());
    let field = Blob::from_slice(alloc, b"field")?;
    assert!(rt; table.insert(&field, b"value")?);
    assert!(rt; !table.insert(&field, b"other")?);
    assert!(rt; has(&table, &field, b"other") && table.contains(&field) && table.len() == 1);
    let long = Blob::from_slice(alloc, &[7; 256])?;
    assert!(rt; table.insert(&long, &[8; 300])?);
    assert!(rt; !table.insert(&field, &[9; 256])?);
    assert!(rt;
        has(&table, &field, &[9; 256]) && has(&table, &long, &[8; 300]) && table.len() == 2
    );
    let copied = table.copy()?;
    assert!(rt;
        table.remove(&field) && !table.remove(&field) && table.remove(&long) && table.is_empty()
    );
    assert!(rt; copied.len() == 2 && has(&copied, &field, &[9; 256]));
    Ok(())
}

#[test]
fn a_table_grows_and_is_emptied(rt: HostRuntime) -> Result<(), Fail> {
    let alloc = rt.alloc();
    let mut table = opened(alloc, RandomState::new(&rt)?)?;
    fill(alloc, &mut table, MANY)?;
    assert!(rt; table.len() == MANY as usize);
    assert!(rt; counted(&table)? == MANY);
    let mut taken = 0u32;
    for number in 0..MANY {
        let field = field_of(alloc, number)?;
        taken = taken.saturating_add(table.remove(&field) as u32);
    }
    assert!(rt; taken == MANY && table.is_empty());
    Ok(())
}

// With an allocation that fails on the way, by the tool that runs it, as many numbers are there as went in.
#[test]
fn a_refusal_leaves_what_was_there(rt: HostRuntime) -> Result<(), Fail> {
    let alloc = rt.alloc();
    let mut table = opened(alloc, RandomState::new(&rt)?)?;
    let mut put = 0u32;
    for number in 0..1_000u32 {
        let field = field_of(alloc, number)?;
        if table.insert(&field, &number.to_be_bytes()).is_err() {
            break;
        }
        put = number.saturating_add(1);
    }
    assert!(rt; table.len() == put as usize && counted(&table)? == put);
    Ok(())
}
