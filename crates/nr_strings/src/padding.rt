// Zero bytes behind others, a block of them at a time: a bit may be set far behind the end of a string.
ghost use Rattle.std.specs.Prelude.{◌≡◌, ◌++◌, ◌+◌, ◌<◌, ◌≤◌, ◌^◌, length, replicate, OnOk, OnErr};
ghost use Rattle.nr_model.specs.Strings.{padded};

use nr_blob::{Bytes, Memory};

/// How many zero bytes are put at once.
const BLOCK_LEN: usize = 4096;

static ZERO_BLOCK: [u8; BLOCK_LEN] = [0; BLOCK_LEN];

/// Zero bytes behind these, up to a length. Memory is taken for all of them first: where it runs out nothing is changed.
pub(crate) fn grow(bytes: &mut Bytes, len: usize) -> Result<(), Memory>
    requires { len < 2 ^ 63 }
    ensures ok { OnOk result (bytes.new.items ≡ padded len bytes.old.items) }
    ensures err { OnErr result (bytes.new.items ≡ bytes.old.items) }
{
    if bytes.len() < len {
        bytes.reserve(len - bytes.len())?;
        pad(bytes, len);
    }
    Ok(())
}

// Zero bytes up to a length for which there is room.
fn pad(bytes: &mut Bytes, len: usize)
    requires more { length bytes.old.items ≤ len }
    requires room { len ≤ bytes.old.capacity }
    ensures { bytes.new.items ≡ padded len bytes.old.items }
{
    while bytes.len() < len {
        push_zeros(bytes, BLOCK_LEN.min(len - bytes.len()));
    }
}

fn push_zeros(bytes: &mut Bytes, count: usize)
    requires within { count ≤ BLOCK_LEN }
    requires room { length bytes.old.items + count ≤ bytes.old.capacity }
    ensures items { bytes.new.items ≡ bytes.old.items ++ replicate count 0 }
    ensures capacity { bytes.old.capacity ≤ bytes.new.capacity }
{
    bytes.extend_from_slice(zeros(count)).unwrap();
}

fn zeros(count: usize) -> &'static [u8]
    requires { count ≤ BLOCK_LEN }
    ensures { result.now ≡ replicate count 0 }
{
    &ZERO_BLOCK[..count]
}
