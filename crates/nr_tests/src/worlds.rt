// Worlds whose steps are chosen one by one. What each step gives stands in its contract.
use nr_entry::{ConnId, Setup};
use nr_world::{Step, StepOutcome, World, run};
use std::hash::RandomState;
use std::test::Fail;

const FIRST: ConnId = ConnId { node: 1, serial: 0 };

#[test]
fn steps_are_run(rt: HostRuntime) -> Result<(), Fail> {
    let alloc = rt.alloc();
    let setup = Setup::new(2, 2, 1, 2, 1_024).unwrap();
    let steps = vec![in alloc;
        Step::Open(1, 0),
        Step::Feed(FIRST, 7, Vec::from_slice(alloc, b"SET k v\nGET k\n")?),
        Step::Post(1, 0),
        Step::Lift(1, 0),
        Step::Reserve(1),
        Step::Fill(1, 0),
        Step::Fill(1, 1),
        Step::Fetch(0),
        Step::Apply(0),
        Step::Look(1),
        Step::Answer(1, 0),
        Step::Collect(1, 0),
        Step::Refuse(0),
        Step::Close(FIRST, 7),
        Step::Post(1, 0),
        Step::Lift(1, 0),
        Step::Reserve(1),
        Step::Fill(1, 0),
        Step::Fill(1, 1),
        Step::Fetch(0),
        Step::Apply(0),
        Step::Fetch(1),
        Step::Apply(1),
        Step::Revive(0, 1),
    ]?;
    let ran = run(alloc, RandomState::new(&rt)?, &setup, &steps)?;
    let mut handed = 0usize;
    for happened in &ran.happened {
        let outcome = happened.outcome;
        assert!(rt; outcome == StepOutcome::Done || outcome == StepOutcome::Opened(FIRST));
        handed = handed.saturating_add(happened.handed.len());
    }
    assert!(rt; handed == 1);
    Ok(())
}

// A connection takes 64 MiB in many pieces, which ask for nothing, and what it asks for behind them is answered.
#[test]
fn many_pieces_are_taken(rt: HostRuntime) -> Result<(), Fail> {
    let alloc = rt.alloc();
    let setup = Setup::new(2, 2, 1, 2, 1_024).unwrap();
    let mut world = World::new(alloc, RandomState::new(&rt)?, setup)?;
    world.open(1, 0)?;
    let piece = vec![in alloc; b'\n'; 4_096]?;
    for _ in 0..16_384 {
        world.feed(FIRST, 7, &piece)?;
    }
    world.feed(FIRST, 7, b"PING\n")?;
    let handed = world.settle()?;
    assert!(rt; handed.len() == 1);
    Ok(())
}
