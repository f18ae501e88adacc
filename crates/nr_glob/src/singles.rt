//! The parts of a pattern that take one byte each.

ghost use Rattle.std.specs.Prelude.{◌≡◌, ◌≢◌, ◌≤◌, ◌∷◌, length, IfSome, MatchOption};
ghost use Rattle.nr_model.specs.Patterns.{Outside, Opened};
ghost use Rattle.nr_glob.specs.Singles.{single_seen, takes, IsPartFront, IsNoStep, IsStep};

use crate::classes::{class_rest, in_class};

// A part that takes one byte. A class is the bytes behind its `[` or `[^`: what stands behind its end is not read.
#[derive(Clone, Copy)]
pub enum Single<'a> {
    AnyByte,
    Byte(u8),
    Class(&'a [u8]),
    NotClass(&'a [u8]),
}

// Whether the part takes this byte. It takes as many steps as its class has bytes.
fn consumes(single: Single<'_>, byte: u8) -> bool
    ensures { result ≡ takes (single_seen single.entry) byte }
{
    match single {
        Single::AnyByte => true,
        Single::Byte(other) => byte == other,
        Single::Class(class) => in_class(class, byte),
        Single::NotClass(class) => !in_class(class, byte),
    }
}

/// The text behind its first byte, where the part takes that byte.
pub fn after_byte<'a>(single: Single<'_>, text: &'a [u8]) -> Option<&'a [u8]>
    ensures step { MatchOption result (IsNoStep (single_seen single.entry) text.now) (λ rest. IsStep (single_seen single.entry) text.now rest.now) }
    ensures shorter { IfSome result (λ rest. length rest.now ≤ length text.now) }
{
    match text {
        [] => None,
        [byte, rest @ ..] => {
            if consumes(single, *byte) {
                Some(rest)
            } else {
                None
            }
        }
    }
}

/// The part that begins with this byte, which is no star, and what stands behind the part. It takes as many steps as
/// the part has bytes.
pub fn first_single(first: u8, behind: &[u8]) -> (Single<'_>, &[u8])
    requires { first ≢ 42 }
    ensures part { IsPartFront Outside (first ∷ behind.now) (single_seen result.0) result.1.now }
    ensures rest { length result.1.now ≤ length behind.now }
{
    match first {
        b'\\' => escaped_single(behind),
        b'[' => opened(behind),
        b'?' => (Single::AnyByte, behind),
        _ => (Single::Byte(first), behind),
    }
}

// The part that begins with a `\`, and what stands behind it.
fn escaped_single(behind: &[u8]) -> (Single<'_>, &[u8])
    ensures part { IsPartFront Outside (92 ∷ behind.now) (single_seen result.0) result.1.now }
    ensures rest { length result.1.now ≤ length behind.now }
{
    match behind {
        [] => (Single::Byte(b'\\'), behind),
        [byte, rest @ ..] => (Single::Byte(*byte), rest),
    }
}

// The class that begins right behind a `[`, and what stands behind it.
fn opened(behind: &[u8]) -> (Single<'_>, &[u8])
    ensures part { IsPartFront Opened behind.now (single_seen result.0) result.1.now }
    ensures rest { length result.1.now ≤ length behind.now }
{
    match behind {
        [] => (Single::Class(behind), behind),
        [first, class @ ..] => {
            if *first == b'^' {
                (Single::NotClass(class), class_rest(class))
            } else {
                (Single::Class(behind), class_rest(behind))
            }
        }
    }
}
