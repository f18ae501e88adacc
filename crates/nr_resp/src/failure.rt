// Why a body ended early. A refusal becomes its error reply here, and nowhere else.
ghost use Rattle.std.specs.Prelude.{◌≡◌, Some, IfOk};
ghost use Rattle.nr_model.specs.Commands.Texts.{refusal_text, invalid_expire_time, expiring_name};
ghost use Rattle.nr_resp.specs.Seen.{reply_of};
ghost use Rattle.nr_resp.specs.Failures.{answer_to};

use crate::reply::Reply;
use nr_blob::Memory;
use nr_model::command::End;
use nr_model::refused::{Expiring, Refused};

/// Why a body ended early.
#[derive(Clone, Copy, Debug)]
pub enum Failure {
    /// The command is refused, and changed nothing.
    Refused(Refused),
    /// There was no memory left.
    Memory(Memory),
}

impl From<Refused> for Failure {
    ghost use Rattle.std.specs.Prelude.{◌≡◌};
    ghost use Rattle.nr_resp.specs.declared.failure.Failure.TheVariants as failures;

    ghost from_gives = { λ why failure. failure ≡ failures.Refused why };

    fn from(why: Refused) -> Failure {
        Failure::Refused(why)
    }
}

impl From<Memory> for Failure {
    ghost use Rattle.std.specs.Prelude.{◌≡◌};
    ghost use Rattle.nr_resp.specs.declared.failure.Failure.TheVariants as failures;

    ghost from_gives = { λ memory failure. failure ≡ failures.Memory memory };

    fn from(memory: Memory) -> Failure {
        Failure::Memory(memory)
    }
}

impl Failure {
    /// The error reply to a refusal. Want of memory is no reply.
    pub fn reply(self) -> Result<Reply, Memory>
        ensures { IfOk result (λ reply. answer_to self ≡ Some (reply_of reply)) }
    {
        match self {
            Failure::Refused(why) => Ok(Reply::FixedError(text(why))),
            Failure::Memory(memory) => Err(memory),
        }
    }
}

// The text of each refusal. It is always the same, so its reply takes no memory.
fn text(why: Refused) -> &'static str
    ensures { result.now ≡ refusal_text why }
{
    match why {
        Refused::Syntax => "ERR syntax error",
        Refused::NotAnInteger => "ERR value is not an integer or out of range",
        Refused::NoSuchDatabase => "ERR DB index is out of range",
        Refused::FirstDatabase => "ERR invalid first DB index",
        Refused::SecondDatabase => "ERR invalid second DB index",
        Refused::PingArity => "ERR wrong number of arguments for 'ping' command",
        Refused::MSetArity => "ERR wrong number of arguments for 'mset' command",
        Refused::MSetNxArity => "ERR wrong number of arguments for 'msetnx' command",
        Refused::WrongType => "WRONGTYPE Operation against a key holding the wrong kind of value",
        Refused::NoSuchKey => "ERR no such key",
        Refused::SameObject => "ERR source and destination objects are the same",
        Refused::OptionsConflict => "ERR options are not compatible",
        Refused::ExpireTime(command) => expire_time(command),
        Refused::Overflow => "ERR increment or decrement would overflow",
        Refused::DecrementOverflow => "ERR decrement would overflow",
        Refused::OffsetOutOfRange => "ERR offset is out of range",
        Refused::TooLong => "ERR string exceeds maximum allowed size",
        Refused::BitOffset => "ERR bit offset is not an integer or out of range",
        Refused::BitValue => "ERR bit is not an integer or out of range",
        Refused::NotOfSeveral => "ERR BITOP NOT must be called with a single source key.",
        Refused::IndexOutOfRange => "ERR index out of range",
        Refused::NotPositive => "ERR value is out of range, must be positive",
        Refused::PopArity(End::Left) => "ERR wrong number of arguments for 'lpop' command",
        Refused::PopArity(End::Right) => "ERR wrong number of arguments for 'rpop' command",
        Refused::KeyCount => "ERR numkeys should be greater than 0",
        Refused::TooManyKeys => "ERR Number of keys can't be greater than number of args",
        Refused::CountNotPositive => "ERR count should be greater than 0",
        Refused::RankZero => "ERR RANK can't be zero",
        Refused::Negative => "ERR negative value not allowed",
        Refused::HashNotAnInteger => "ERR hash value is not an integer",
        Refused::HSetArity => "ERR wrong number of arguments for 'hset' command",
        Refused::HMSetArity => "ERR wrong number of arguments for 'hmset' command",
        Refused::NotAFloat => "ERR value is not a valid float",
        Refused::ScoreRange => "ERR resulting score is out of range",
        Refused::ScoreBound => "ERR min or max is not a float",
        Refused::MemberBound => "ERR min or max not valid string range item",
        Refused::LimitByPlaces => {
            "ERR syntax error, LIMIT is only supported in combination with either BYSCORE or BYLEX"
        }
        Refused::ScoresByMembers => {
            "ERR syntax error, WITHSCORES not supported in combination with BYLEX"
        }
    }
}

fn expire_time(command: Expiring) -> &'static str
    ensures { result.now ≡ invalid_expire_time (expiring_name command) }
{
    match command {
        Expiring::Set => "ERR invalid expire time in 'set' command",
        Expiring::SetEx => "ERR invalid expire time in 'setex' command",
        Expiring::PSetEx => "ERR invalid expire time in 'psetex' command",
        Expiring::GetEx => "ERR invalid expire time in 'getex' command",
        Expiring::Expire => "ERR invalid expire time in 'expire' command",
        Expiring::PExpire => "ERR invalid expire time in 'pexpire' command",
        Expiring::ExpireAt => "ERR invalid expire time in 'expireat' command",
        Expiring::PExpireAt => "ERR invalid expire time in 'pexpireat' command",
    }
}
