// Copies of replies: that a copy is equal stands in its contract, that there is one is tried here.
use nr_blob::{Blob, Memory};
use nr_resp::Reply;
use std::alloc::Global;
use std::test::Fail;

// A reply that holds each other kind of reply.
fn nested(alloc: Global) -> Result<Reply, Memory> {
    Ok(Reply::Array(vec![in alloc;
        Reply::Simple("OK"),
        Reply::Error(Blob::from_slice(alloc, b"ERR x")?),
        Reply::Int(-5),
        Reply::Bulk(Blob::from_slice(alloc, b"message")?),
        Reply::NullBulk,
        Reply::NullArray,
    ]?))
}

#[test]
fn each_kind_is_copied(rt: HostRuntime) -> Result<(), Fail> {
    let alloc = rt.alloc();
    let reply = nested(alloc)?;
    let copied = reply.copy()?;
    let mut text = Vec::new(alloc);
    copied.write(&mut text)?;
    let wanted = b"*6\r\n+OK\r\n-ERR x\r\n:-5\r\n$7\r\nmessage\r\n$-1\r\n*-1\r\n";
    assert!(rt; text.as_slice() == wanted.as_slice());
    Ok(())
}
