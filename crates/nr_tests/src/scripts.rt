// Scripts: lines with what they say, lines that say no step, and each line that is printed.
use nr_blob::{Blob, Memory};
use nr_model::reason::Reason;
use nr_script::{
    Line, LineError, read_line, write_done, write_handed, write_idle, write_ok, write_opened,
    write_settled,
};
use std::alloc::Global;

// Whether a line says a step.
fn says(alloc: Global, line: &str, step: Line) -> bool {
    read_line(alloc, line.as_bytes()) == Ok(Some(step))
}

// Whether a line feeds these bytes to connection 1 at moment 100.
fn feeds(alloc: Global, line: &str, bytes: &[u8]) -> bool {
    let Ok(bytes) = Blob::from_slice(alloc, bytes) else {
        return false;
    };
    let step = Line::Feed {
        connection: 1,
        moment: 100,
        bytes,
    };
    says(alloc, line, step)
}

fn is_bad(alloc: Global, line: &str) -> bool {
    read_line(alloc, line.as_bytes()) == Err(LineError::BadStep)
}

fn is_skipped(alloc: Global, line: &str) -> bool {
    read_line(alloc, line.as_bytes()) == Ok(None)
}

fn printed(alloc: Global) -> Result<Vec<u8>, Memory> {
    let mut out = Vec::new(alloc);
    write_ok(&mut out)?;
    write_opened(0, &mut out)?;
    write_done(&mut out)?;
    write_idle(Reason::NoSuch, &mut out)?;
    write_idle(Reason::NoMemory, &mut out)?;
    write_settled(&mut out)?;
    write_handed(0, b"+OK\r\n~\\\x7f", &mut out)?;
    Ok(out)
}

#[test]
fn lines(rt: HostRuntime) {
    let alloc = rt.alloc();
    let setup = Line::Setup {
        nodes: 2,
        places: 3,
        workers: 1,
        queue: 1024,
    };
    assert!(rt; says(alloc, "setup 2 3 1 1024", setup));
    assert!(rt; says(alloc, "open 0 1", Line::Open { node: 0, worker: 1 }));
    assert!(rt; says(alloc, "fill 0 3", Line::Fill { node: 0, to: 3 }));
    assert!(rt; says(alloc, "revive 1 0", Line::Revive { node: 1, donor: 0 }));
    assert!(rt;
        says(
            alloc,
            "refuse 9223372036854775807",
            Line::Refuse {
                node: 9_223_372_036_854_775_807
            }
        )
    );
    assert!(rt; says(alloc, "settle", Line::Settle));
    for (line, bytes) in [
        ("feed 1 100 GET k\\r\\n", "GET k\r\n"),
        ("feed 1 100 ", ""),
        ("feed 1 100  a  \r", " a  \r"),
        ("feed 1 100 \\x41\\x0d\\x0D\\\\", "A\r\r\\"),
    ] {
        assert!(rt; feeds(alloc, line, bytes.as_bytes()));
    }
    for line in ["", " \t\r", "# settle", "#"] {
        assert!(rt; is_skipped(alloc, line));
    }
    for line in [
        "feed 1 100",
        "feed 1 100 \\",
        "feed 1 100 \\e",
        "feed 1 100 \\x4",
        "settle ",
        "settle\r",
        " settle",
        "Settle",
        "open 0",
        "open  0 0",
        "open 0 0 ",
        "open 0 00",
        "open 0 -1",
        "look 9223372036854775808",
        "look",
        "revive 0",
        "halt",
        "setup 1 1 1",
        "setup 1 1 1 1 1",
    ] {
        assert!(rt; is_bad(alloc, line));
    }
    let Ok(out) = printed(alloc) else {
        panic!(rt; "out of memory");
    };
    let lines =
        "ok\nopen 0\ndone\nidle 1 NoSuch\nidle 9 NoMemory\nsettled\n0 +OK\\r\\n~\\\\\\x7f\n";
    assert!(rt; out.as_slice() == lines.as_bytes());
}
