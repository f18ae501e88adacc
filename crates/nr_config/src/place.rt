// Where a text fails.
ghost use Rattle.std.specs.Prelude.{◌≡◌};
ghost use Rattle.nr_config.specs.Places.{next, place_from, start};

use std::fmt;

/// A place in a text, by its line and its column, both from 1: a column counts characters.
#[derive(Clone, Copy, Debug, PartialEq, Eq)]
pub struct TextPlace {
    pub line: usize,
    pub column: usize,
}

fn next(place: TextPlace, byte: u8) -> TextPlace
    ensures { result ≡ next place byte }
{
    match byte {
        b'\n' => TextPlace {
            line: place.line.saturating_add(1),
            column: 1,
        },
        // The further bytes of a character.
        0x80..=0xBF => place,
        _ => TextPlace {
            line: place.line,
            column: place.column.saturating_add(1),
        },
    }
}

impl TextPlace {
    /// The place behind these bytes of a text. Linear in them.
    pub fn behind(before: &[u8]) -> TextPlace
        ensures { result ≡ place_from start before.now }
    {
        let mut place = TextPlace { line: 1, column: 1 };
        for byte in before {
            place = next(place, *byte);
        }
        place
    }
}

impl fmt::Display for TextPlace {
    ghost use Rattle.std.specs.Prelude.{Some};
    ghost use Rattle.nr_config.specs.Places.{place_text};

    ghost output = { λ place. Some (place_text place) };

    fn fmt<W: fmt::Write>(&self, f: &mut fmt::Formatter<W>) -> fmt::Result {
        write!(f, "line {}, column {}", self.line, self.column)
    }
}
