// The conditions NX, XX, GT and LT, which EXPIRE and its like put on the deadline that a key has, and ZADD on the score of a member.
ghost use Rattle.std.specs.Prelude.{◌≡◌, Ok, IfOk, IfErr};
ghost use Rattle.nr_model.specs.Commands.Reading.{fault};
ghost use Rattle.nr_model.specs.Commands.Keys as keys;

use crate::words::is_word;
use nr_blob::Blob;
use nr_model::refused::Refused;
use std::marker::Model;

/// Conditions on what is there before something new takes its place.
#[derive(Clone, Copy, Debug)]
pub struct Conditions {
    /// Nothing is there.
    pub nx: bool,
    /// Something is there.
    pub xx: bool,
    /// What is there is less than the new one.
    pub gt: bool,
    /// What is there is greater than the new one.
    pub lt: bool,
}

impl Model for Conditions {
    ghost use Rattle.nr_model.specs.Commands.Keys as keys;

    ghost Value = { keys.Conditions };

    ghost view = { λ c. record { nx = c.nx; xx = c.xx; gt = c.gt; lt = c.lt } };

    ghost inverse = { λ c. record { nx = c.nx; xx = c.xx; gt = c.gt; lt = c.lt } };
}

impl Conditions {
    /// No conditions.
    pub const NONE: Conditions = Conditions {
        nx: false,
        xx: false,
        gt: false,
        lt: false,
    };

    /// With the condition that a word says in any case, if it says one: `NX`, `XX`, `GT` or `LT`.
    pub fn with(self, word: &Blob) -> Option<Conditions>
        ensures { result ≡ keys.condition self word.now }
    {
        if is_word("nx", word) {
            return Some(Conditions { nx: true, ..self });
        }
        if is_word("xx", word) {
            return Some(Conditions { xx: true, ..self });
        }
        if is_word("gt", word) {
            return Some(Conditions { gt: true, ..self });
        }
        if is_word("lt", word) {
            return Some(Conditions { lt: true, ..self });
        }
        None
    }

    /// The same conditions, where they don't exclude one another: NX goes with no other, and GT not with LT.
    pub fn compatible(self) -> Result<Conditions, Refused>
        ensures compatible { IfOk result (λ same. keys.compatible self ≡ Ok same) }
        ensures refused { IfErr result (λ why. keys.compatible self ≡ fault why) }
    {
        let Conditions { nx, xx, gt, lt } = self;
        if nx && (xx || gt || lt) || gt && lt {
            return Err(Refused::OptionsConflict);
        }
        Ok(self)
    }
}
