// Bytes that are read behind their end.
ghost use Rattle.std.specs.Prelude.{◌≡◌};
ghost use Rattle.nr_model.specs.Strings.{byte_at};

/// The byte at an index, zero behind the end.
pub(crate) fn byte_or_zero(bytes: &[u8], index: usize) -> u8
    ensures { result ≡ byte_at bytes.now index }
{
    match bytes.get(index) {
        Some(byte) => *byte,
        None => 0,
    }
}
