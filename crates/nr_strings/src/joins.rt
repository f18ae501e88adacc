// Strings joined bit by bit, and turned.
ghost use Rattle.std.specs.Prelude.{◌≡◌, ◌≤◌, length, map, zip};
ghost use Rattle.nr_model.specs.Strings.{inverted, joined_two};
ghost use Rattle.nr_strings.specs.Joins.{function_of};

/// How two strings are joined, bit by bit.
#[derive(Clone, Copy, Debug, PartialEq, Eq)]
pub enum BitOperation {
    /// The bits that are set in both.
    And,
    /// The bits that are set in one of them or in both.
    Or,
    /// The bits that are set in one of them alone.
    Xor,
}

/// Joins bytes with others in place. Zero bytes stand for those that the others lack.
pub(crate) fn join(bytes: &mut [u8], operation: BitOperation, other: &[u8])
    requires { length other.now ≤ length bytes.old }
    ensures { bytes.new ≡ joined_two (function_of operation) bytes.old other.now }
{
    join_others(&mut bytes[..other.len()], operation, other);
    join_zeros(&mut bytes[other.len()..], operation);
}

// Each byte with its other. With no test but that of the end the loop becomes vector code.
fn join_others(bytes: &mut [u8], operation: BitOperation, others: &[u8])
    requires { length others.now ≡ length bytes.old }
    ensures { bytes.new ≡ map (λ both. function_of operation both.0 both.1) (zip bytes.old others.now) }
{
    for index in 0..others.len() {
        bytes[index] = joined(operation, bytes[index], others[index]);
    }
}

// One byte with another.
fn joined(operation: BitOperation, byte: u8, other: u8) -> u8
    ensures { result ≡ function_of operation byte other }
{
    match operation {
        BitOperation::And => byte & other,
        BitOperation::Or => byte | other,
        BitOperation::Xor => byte ^ other,
    }
}

// Bytes with zero bytes: none of their bits is left, or each of them.
fn join_zeros(bytes: &mut [u8], operation: BitOperation)
    ensures { bytes.new ≡ map (λ byte. function_of operation byte 0) bytes.old }
{
    match operation {
        BitOperation::And => bytes.fill(0),
        BitOperation::Or | BitOperation::Xor => {}
    }
}

/// Turns each bit in place.
pub(crate) fn invert(bytes: &mut [u8])
    ensures { bytes.new ≡ inverted bytes.old }
{
    for byte in bytes.iter_mut() {
        *byte = !*byte;
    }
}
