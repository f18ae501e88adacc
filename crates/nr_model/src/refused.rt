// Why commands are refused, as the definitions and the bodies of commands both name it.
use crate::command::End;

/// Why a command is refused. Its reply is an error, whose text the definitions have, and it changes nothing.
#[derive(Clone, Copy, Debug, PartialEq, Eq)]
pub enum Refused {
    /// A word is missing, surplus or unknown, or two words exclude one another.
    Syntax,
    /// A word or a value should spell an integer of 64 bits, and doesn't.
    NotAnInteger,
    /// An integer is no database's index.
    NoSuchDatabase,
    /// The first of two indexes is no integer of 32 bits.
    FirstDatabase,
    /// The second of two indexes is no integer of 32 bits.
    SecondDatabase,
    /// PING got more than one message.
    PingArity,
    /// MSET got a key without a value.
    MSetArity,
    /// MSETNX got a key without a value.
    MSetNxArity,
    /// A key holds a value of another kind.
    WrongType,
    /// There is no such key.
    NoSuchKey,
    /// A key would be copied or moved to itself.
    SameObject,
    /// Options exclude one another.
    OptionsConflict,
    /// A deadline is below what the command takes, or has no 64 bits.
    ExpireTime(Expiring),
    /// A sum has no 64 bits.
    Overflow,
    /// The least integer can't be turned around.
    DecrementOverflow,
    /// An offset into a string is below 0.
    OffsetOutOfRange,
    /// A string would be longer than strings may be.
    TooLong,
    /// An offset of a bit is no integer from 0 to 2^32 - 1.
    BitOffset,
    /// A bit is neither 0 nor 1.
    BitValue,
    /// BITOP NOT got several sources.
    NotOfSeveral,
    /// An index points to no item of a list.
    IndexOutOfRange,
    /// A count of what is popped is no integer, or below 0.
    NotPositive,
    /// LPOP or RPOP got more than a count.
    PopArity(End),
    /// How many keys follow is no integer, or below 1.
    KeyCount,
    /// More keys are announced than words are left.
    TooManyKeys,
    /// A count of what is taken is no integer, or below 1.
    CountNotPositive,
    /// A rank is 0.
    RankZero,
    /// A count or a limit is no integer, or below 0.
    Negative,
    /// The value of a field should spell an integer of 64 bits, and doesn't.
    HashNotAnInteger,
    /// HSET got a field without a value.
    HSetArity,
    /// HMSET got a field without a value.
    HMSetArity,
    /// A word should spell a whole score from -2^53 to 2^53, and doesn't.
    NotAFloat,
    /// A score would be below -2^53 or above 2^53.
    ScoreRange,
    /// A word is no bound of scores.
    ScoreBound,
    /// A word is no bound of members.
    MemberBound,
    /// LIMIT stands with a range by places.
    LimitByPlaces,
    /// WITHSCORES stands with a range by members.
    ScoresByMembers,
}

/// The commands that name themselves where a deadline is refused.
#[derive(Clone, Copy, Debug, PartialEq, Eq)]
pub enum Expiring {
    Set,
    SetEx,
    PSetEx,
    GetEx,
    Expire,
    PExpire,
    ExpireAt,
    PExpireAt,
}
