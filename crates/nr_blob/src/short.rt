// Bytes that are few enough to stand in the value itself.
ghost use Rattle.std.specs.Prelude.{◌≡◌, ◌≤◌, length};

use crate::blob::MOST_IN_PLACE;
use std::marker::Model;

/// At most `MOST_IN_PLACE` bytes. They take no memory.
#[derive(Debug, Drop)]
pub(crate) struct Short {
    len: u8,
    bytes: [u8; MOST_IN_PLACE],
}

impl Model for Short {
    ghost use Rattle.std.specs.Prelude.{◌≤◌, ℕ, List, take};

    ghost Value = { List ℕ };

    ghost view = { λ short. take short.len short.bytes };

    ghost invariant = { λ short. short.len ≤ 30 };
}

impl Short {
    pub(crate) fn of(bytes: &[u8]) -> Short
        requires { length bytes.now ≤ MOST_IN_PLACE }
        ensures { result ≡ bytes.now }
    {
        let mut here = [0; MOST_IN_PLACE];
        here[..bytes.len()].copy_from_slice(bytes);
        Short {
            len: bytes.len() as u8,
            bytes: here,
        }
    }

    pub(crate) fn bytes(&self) -> &[u8]
        ensures bytes { result.now ≡ self.now }
        ensures few { length result.now ≤ MOST_IN_PLACE }
    {
        &self.bytes[..self.len as usize]
    }
}
