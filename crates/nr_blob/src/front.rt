// Bytes that are let go from the front of a buffer, and items out of its middle.
ghost use Rattle.std.specs.Prelude.{◌≡◌, ◌≤◌, ◌<◌, ◌+◌, ◌++◌, take, drop, length};

/// Lets go of the first bytes of a buffer, which were written or handed out, once they are half of it, so that each is moved at most
/// once for one that is let go. Answers where the bytes that wait begin now. Linear in those where it moves them. It takes no memory.
pub fn drop_front(buffer: &mut Vec<u8>, start: usize) -> usize
    requires { start ≤ length buffer.old.items }
    ensures waiting { drop result buffer.new.items ≡ drop start buffer.old.items }
    ensures kept { start + start < length buffer.old.items → (result ≡ start) × (buffer.new.items ≡ buffer.old.items) }
    ensures half { result + result ≤ length buffer.new.items }
{
    if start < buffer.len() - start {
        return start;
    }
    remove_range(buffer, 0, start);
    0
}

/// Takes the items from one place to another out of a buffer, and keeps its room. Linear in those behind them, which move up. It takes no memory.
pub fn remove_range<T: Copy + Drop>(items: &mut Vec<T>, start: usize, end: usize)
    requires range { start ≤ end }
    requires within { end ≤ length items.old.items }
    ensures { items.new.items ≡ take start items.old.items ++ drop end items.old.items }
{
    let left = items.len() - (end - start);
    items.as_mut_slice().copy_within(end.., start);
    items.truncate(left);
}
