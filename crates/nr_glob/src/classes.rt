//! Classes of bytes, read where they stand in a pattern.

ghost use Rattle.std.specs.Prelude.{◌≡◌, ◌≢◌, ◌<◌, ◌≤◌, ◌∷◌, ◌||◌, length, IfSome, MatchOption};
ghost use Rattle.nr_model.specs.Patterns.{in_class, is_between, is_dash};
ghost use Rattle.nr_glob.specs.Classes.{class_marks, class_rest, mark_seen, IsClassEnd, IsMarkFront, IsNoRange, IsRangeEnd};

// A byte of a class: itself even where it is `-` (escaped), or as it stands.
#[derive(Clone, Copy)]
pub struct ByteMark {
    byte: u8,
    escaped: bool,
}

/// Whether the byte is of the class that begins here and ends at its first unescaped `]`, or where the bytes end. It
/// takes as many steps as the class has bytes.
pub fn in_class(class: &[u8], byte: u8) -> bool
    ensures { result ≡ in_class (class_marks class.now) byte }
{
    let mut rest = class;
    while let Some((mark, behind)) = first_mark(rest) {
        let (is_of_range, after) = first_range(mark, behind, byte);
        if is_of_range {
            return true;
        }
        rest = after;
    }
    false
}

/// What stands behind the class that begins here.
pub fn class_rest(class: &[u8]) -> &[u8]
    ensures rest { result.now ≡ class_rest class.now }
    ensures shorter { length result.now ≤ length class.now }
{
    let mut rest = class;
    while let Some((_, behind)) = first_mark(rest) {
        rest = behind;
    }
    match rest {
        [] => rest,
        [_, behind @ ..] => behind,
    }
}

// Whether the byte is of the range that begins with this mark, or is the mark's, and what stands behind these.
fn first_range(first: ByteMark, behind: &[u8], byte: u8) -> (bool, &[u8])
    ensures range { in_class (mark_seen first ∷ class_marks behind.now) byte ≡ (result.0 || in_class (class_marks result.1.now) byte) }
    ensures shorter { length result.1.now ≤ length behind.now }
{
    match range_end(behind) {
        Some((last, rest)) => (is_between(first.byte, last, byte), rest),
        None => (first.byte == byte, behind),
    }
}

// The last byte of the range that a `-` makes here, and what stands behind it.
fn range_end(behind: &[u8]) -> Option<(u8, &[u8])>
    ensures range { MatchOption result (IsNoRange behind.now) (λ x. IsRangeEnd behind.now x.0 x.1.now) }
    ensures shorter { IfSome result (λ x. length x.1.now ≤ length behind.now) }
{
    let Some((dash, after)) = first_mark(behind) else {
        return None;
    };
    if !is_dash(dash) {
        return None;
    }
    let Some((last, rest)) = first_mark(after) else {
        return None;
    };
    Some((last.byte, rest))
}

fn is_dash(mark: ByteMark) -> bool
    ensures { result ≡ is_dash (mark_seen mark) }
{
    !mark.escaped && mark.byte == b'-'
}

fn is_between(x: u8, y: u8, byte: u8) -> bool
    ensures { result ≡ is_between x y byte }
{
    x.min(y) <= byte && byte <= x.max(y)
}

// The first mark of the class that begins here, where it doesn't end here, and what stands behind the mark.
fn first_mark(class: &[u8]) -> Option<(ByteMark, &[u8])>
    ensures mark { MatchOption result (IsClassEnd class.now) (λ x. IsMarkFront class.now (mark_seen x.0) x.1.now) }
    ensures shorter { IfSome result (λ x. length x.1.now < length class.now) }
{
    match class {
        [] => None,
        [byte, behind @ ..] => {
            if *byte == b']' {
                None
            } else {
                Some(mark_at(*byte, behind))
            }
        }
    }
}

// The mark that begins with this byte, which ends no class, and what stands behind it.
fn mark_at(byte: u8, behind: &[u8]) -> (ByteMark, &[u8])
    requires { byte ≢ 93 }
    ensures mark { IsMarkFront (byte ∷ behind.now) (mark_seen result.0) result.1.now }
    ensures rest { length result.1.now ≤ length behind.now }
{
    let as_it_stands = ByteMark {
        byte,
        escaped: false,
    };
    match behind {
        [] => (as_it_stands, behind),
        [other, after @ ..] => {
            if byte == b'\\' {
                (
                    ByteMark {
                        byte: *other,
                        escaped: true,
                    },
                    after,
                )
            } else {
                (as_it_stands, behind)
            }
        }
    }
}
