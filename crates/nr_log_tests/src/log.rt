use crate::moves::{Move, Outcome, play};
use std::test::Fail;

// Two nodes go round a circle of four places in turn.
#[test]
fn seats_in_turn(rt: HostRuntime) -> Result<(), Fail> {
    let moves = [
        (0, Move::Append(50), Outcome::At(0)),
        (1, Move::Append(51), Outcome::At(1)),
        (1, Move::Take, Outcome::Took(50)),
        (0, Move::Tail, Outcome::Tail(2)),
        (0, Move::Append(52), Outcome::At(2)),
        (1, Move::Append(53), Outcome::At(3)),
        (0, Move::Append(54), Outcome::Full),
        (1, Move::Append(54), Outcome::Full),
        (1, Move::Take, Outcome::Took(51)),
        (1, Move::Take, Outcome::Took(52)),
        (1, Move::Take, Outcome::Took(53)),
        (1, Move::Take, Outcome::Nothing),
        (0, Move::Append(54), Outcome::Full),
        (0, Move::Take, Outcome::Took(50)),
        (0, Move::Append(54), Outcome::At(4)),
        (1, Move::Take, Outcome::Took(54)),
        (0, Move::Take, Outcome::Took(51)),
        (0, Move::Take, Outcome::Took(52)),
        (0, Move::Take, Outcome::Took(53)),
        (0, Move::Take, Outcome::Took(54)),
        (0, Move::Take, Outcome::Nothing),
        (1, Move::Append(55), Outcome::At(5)),
        (0, Move::Tail, Outcome::Tail(6)),
        (2, Move::Tail, Outcome::NoNode),
    ];
    let mut made = Vec::new(rt.alloc());
    for (node, step, _) in moves {
        made.push((node, step))?;
    }
    let outcomes = play(rt.alloc(), 2, 4, &made).expect(&rt, "memory");
    for (at, (_, _, expected)) in moves.into_iter().enumerate() {
        assert!(&rt; outcomes.get(at) == Some(&expected), "move {at}");
    }
    Ok(())
}

// The largest log that is allowed takes an entry, and gives it.
#[test]
fn with_65536_places(rt: HostRuntime) -> Result<(), Fail> {
    let moves = [(1, Move::Append(50)), (0, Move::Take)];
    let outcomes = play(rt.alloc(), 2, 65_536, &moves).expect(&rt, "memory");
    assert!(&rt; outcomes.get(0) == Some(&Outcome::At(0)));
    assert!(&rt; outcomes.get(1) == Some(&Outcome::Took(50)));
    Ok(())
}
