// Commands, as the definitions and the code both name them, by section of the Redis command reference.

/// A command of the table of names.
#[derive(Clone, Copy, Debug, PartialEq, Eq)]
pub enum Command {
    /// It is performed on the keyspace.
    Perform(Operation),
    /// It speaks of connections: of transactions, watches, subscriptions and messages.
    Session(Session),
}

/// A command that is performed on the keyspace.
#[derive(Clone, Copy, Debug, PartialEq, Eq)]
pub enum Operation {
    /// It reads the keyspace and leaves it as it is.
    Look(Look),
    /// It may change the keyspace, or the database of its connection.
    Change(Change),
}

/// A command that reads the keyspace and leaves it as it is, by its section.
#[derive(Clone, Copy, Debug, PartialEq, Eq)]
pub enum Look {
    Server(ServerLook),
    Keys(KeysLook),
    Strings(StringsLook),
    Lists(ListsLook),
    Hashes(HashesLook),
    Sets(SetsLook),
    SortedSets(SortedSetsLook),
}

/// A command that may change the keyspace, or the database of its connection, by its section.
#[derive(Clone, Copy, Debug, PartialEq, Eq)]
pub enum Change {
    Server(ServerChange),
    Keys(KeysChange),
    Strings(StringsChange),
    Lists(ListsChange),
    Hashes(HashesChange),
    Sets(SetsChange),
    SortedSets(SortedSetsChange),
}

/// Connection and server.
#[derive(Clone, Copy, Debug, PartialEq, Eq)]
pub enum ServerLook {
    Ping,
    Echo,
    Time,
    DbSize,
}

/// Connection and server.
#[derive(Clone, Copy, Debug, PartialEq, Eq)]
pub enum ServerChange {
    Select,
    FlushDb,
    FlushAll,
    SwapDb,
}

/// Keys.
#[derive(Clone, Copy, Debug, PartialEq, Eq)]
pub enum KeysLook {
    Exists,
    Touch,
    Type,
    Keys,
    /// TTL and PTTL.
    Ttl(Unit),
    /// EXPIRETIME and PEXPIRETIME.
    ExpireTime(Unit),
}

/// Keys.
#[derive(Clone, Copy, Debug, PartialEq, Eq)]
pub enum KeysChange {
    Del,
    Unlink,
    Rename,
    RenameNx,
    Copy,
    Move,
    /// EXPIRE, PEXPIRE, EXPIREAT and PEXPIREAT.
    Expire(Timing),
    Persist,
}

/// Strings.
#[derive(Clone, Copy, Debug, PartialEq, Eq)]
pub enum StringsLook {
    Get,
    MGet,
    StrLen,
    GetRange,
    SubStr,
    GetBit,
    BitCount,
}

/// Strings.
#[derive(Clone, Copy, Debug, PartialEq, Eq)]
pub enum StringsChange {
    Set,
    SetNx,
    /// SETEX and PSETEX.
    SetEx(Unit),
    GetSet,
    GetDel,
    GetEx,
    MSet,
    MSetNx,
    Append,
    SetRange,
    Incr,
    Decr,
    IncrBy,
    DecrBy,
    SetBit,
    BitOp,
}

/// Lists.
#[derive(Clone, Copy, Debug, PartialEq, Eq)]
pub enum ListsLook {
    LLen,
    LRange,
    LIndex,
    LPos,
}

/// Lists.
#[derive(Clone, Copy, Debug, PartialEq, Eq)]
pub enum ListsChange {
    /// LPUSH and RPUSH.
    Push(End),
    /// LPUSHX and RPUSHX.
    PushX(End),
    /// LPOP and RPOP.
    Pop(End),
    LSet,
    LTrim,
    LInsert,
    LRem,
    LMove,
    RPopLPush,
    LMPop,
}

/// Hashes.
#[derive(Clone, Copy, Debug, PartialEq, Eq)]
pub enum HashesLook {
    HGet,
    HMGet,
    HLen,
    HExists,
    HStrLen,
    HKeys,
    HVals,
    HGetAll,
}

/// Hashes.
#[derive(Clone, Copy, Debug, PartialEq, Eq)]
pub enum HashesChange {
    HSet,
    HMSet,
    HSetNx,
    HDel,
    HIncrBy,
}

/// Sets.
#[derive(Clone, Copy, Debug, PartialEq, Eq)]
pub enum SetsLook {
    SIsMember,
    SMIsMember,
    SCard,
    SMembers,
    /// SINTER, SUNION and SDIFF.
    Combine(Combination),
    SInterCard,
}

/// Sets.
#[derive(Clone, Copy, Debug, PartialEq, Eq)]
pub enum SetsChange {
    SAdd,
    SRem,
    SMove,
    /// SINTERSTORE, SUNIONSTORE and SDIFFSTORE.
    CombineStore(Combination),
}

/// An end of a list.
#[derive(Clone, Copy, Debug, PartialEq, Eq)]
pub enum End {
    /// Where the first item stands.
    Left,
    /// Where the last item stands.
    Right,
}

/// A side of an item of a list.
#[derive(Clone, Copy, Debug, PartialEq, Eq)]
pub enum Side {
    /// Nearer to the first.
    Before,
    /// Nearer to the last.
    After,
}

/// How several sets become one.
#[derive(Clone, Copy, Debug, PartialEq, Eq)]
pub enum Combination {
    /// What all of them have.
    Intersection,
    /// What one of them has.
    Union,
    /// What the first has and no other.
    Difference,
}

/// Which way the members of a sorted set are told.
#[derive(Clone, Copy, Debug, PartialEq, Eq)]
pub enum Direction {
    /// From the least score to the greatest.
    Ascending,
    /// From the greatest score to the least.
    Descending,
}

/// Sorted sets.
#[derive(Clone, Copy, Debug, PartialEq, Eq)]
pub enum SortedSetsLook {
    ZScore,
    ZMScore,
    ZCard,
    /// ZRANK and ZREVRANK.
    Rank(Direction),
    ZCount,
    ZLexCount,
    /// ZRANGE and its older names.
    Range(RangeForm),
}

/// Sorted sets.
#[derive(Clone, Copy, Debug, PartialEq, Eq)]
pub enum SortedSetsChange {
    ZAdd,
    ZIncrBy,
    ZRem,
    /// ZREMRANGEBYRANK, ZREMRANGEBYSCORE and ZREMRANGEBYLEX.
    RemRange(RangeBy),
    /// ZPOPMIN and ZPOPMAX.
    Pop(Direction),
    /// ZUNIONSTORE and ZINTERSTORE.
    JoinStore(Joining),
}

/// What a range of a sorted set is told by.
#[derive(Clone, Copy, Debug, PartialEq, Eq)]
pub enum RangeBy {
    /// The places of its members.
    Places,
    /// Their scores.
    Scores,
    /// Their bytes.
    Members,
}

/// The names of the command that tells a range of a sorted set.
#[derive(Clone, Copy, Debug, PartialEq, Eq)]
pub enum RangeForm {
    /// ZRANGE, whose options say what the range is told by, and which way.
    Any,
    /// ZREVRANGE.
    Reversed,
    /// ZRANGEBYSCORE and ZREVRANGEBYSCORE.
    ByScores(Direction),
    /// ZRANGEBYLEX and ZREVRANGEBYLEX.
    ByMembers(Direction),
}

/// How several sorted sets become one.
#[derive(Clone, Copy, Debug, PartialEq, Eq)]
pub enum Joining {
    /// The members that one of them has.
    Union,
    /// The members that all of them have.
    Intersection,
}

/// How the scores of a member in several sorted sets become one.
#[derive(Clone, Copy, Debug, PartialEq, Eq)]
pub enum Aggregate {
    Sum,
    Min,
    Max,
}

/// In what a time is counted.
#[derive(Clone, Copy, Debug, PartialEq, Eq)]
pub enum Unit {
    Seconds,
    Milliseconds,
}

/// What a number says of a deadline.
#[derive(Clone, Copy, Debug, PartialEq, Eq)]
pub enum Timing {
    /// It is so many seconds from now.
    InSeconds,
    /// It is so many milliseconds from now.
    InMilliseconds,
    /// It is this second.
    AtSecond,
    /// It is this millisecond.
    AtMillisecond,
}

/// Transactions, watches, subscriptions and messages.
#[derive(Clone, Copy, Debug, PartialEq, Eq)]
pub enum Session {
    Multi,
    Exec,
    Discard,
    Watch,
    Unwatch,
    Quit,
    Subscribe(Kind),
    Unsubscribe(Kind),
    Publish,
    Pubsub,
}

/// What a connection subscribes to.
#[derive(Clone, Copy, Debug, PartialEq, Eq)]
pub enum Kind {
    Channels,
    /// Patterns of channels.
    Patterns,
}
