// That taps meet.
ghost use Rattle.std.specs.Prelude.{◌≡◌};
ghost use Rattle.nr_taps.specs.Taps.{HaveMet, order_of};

use crate::tap::Tap;
use nr_oplog::{LogName, Oplog};
use std::cmp::Ordering;

/// Compares how many entries the last tokens of two taps know, by three loads; `None` where one of them has no token yet. Nothing that contracts see changes.
pub fn meet<B: LogName>(log: &Oplog<B>, one: &mut Tap<B>, other: &mut Tap<B>) -> Option<Ordering>
    ensures order { result ≡ order_of one.old.standing other.old.standing }
    ensures met { HaveMet one.old.standing other.old.standing }
    ensures one { one.new ≡ one.old }
    ensures other { other.new ≡ other.old }
{
    let Some(token) = &mut one.token else {
        return None;
    };
    let Some(another) = &mut other.token else {
        return None;
    };
    Some(token.order(log, another))
}
