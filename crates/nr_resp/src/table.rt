// The one table of commands that are served: a macro holds each row once, and look-ups, names and counts of words are read from it.
ghost use Rattle.std.specs.Prelude.{◌≡◌, option_map, map, bytes_eq};
ghost use Rattle.std.specs.Char.{to_ascii_lowercase};
ghost use Rattle.nr_model.specs.Commands as table;
ghost use Rattle.nr_model.specs.Commands.{named, served, row_of};
ghost use Rattle.nr_model.specs.Commands.Shape as shape;
ghost use Rattle.nr_model.specs.declared.command.Command.TheVariants as commands;
ghost use Rattle.std.specs.Str.{str_to_ascii_lowercase};
ghost use Rattle.nr_resp.specs.Names.{begins_with};

use nr_model::command::{
    Change, Combination, Command, Direction, End, HashesChange, HashesLook, Joining, KeysChange,
    KeysLook, Kind, ListsChange, ListsLook, Look, Operation, RangeBy, RangeForm, ServerChange,
    ServerLook, Session, SetsChange, SetsLook, SortedSetsChange, SortedSetsLook, StringsChange,
    StringsLook, Timing, Unit,
};

// The rows of a section: the command, its name in lower case, and how many words it takes.
macro_rules! rows {
    (ServerLook => $with:ident!($($arguments:tt)*)) => {
        $with!(ServerLook, $($arguments)*;
            Ping, "ping", at_least 1;
            Echo, "echo", exactly 2;
            Time, "time", exactly 1;
            DbSize, "dbsize", exactly 1)
    };
    (ServerChange => $with:ident!($($arguments:tt)*)) => {
        $with!(ServerChange, $($arguments)*;
            Select, "select", exactly 2;
            FlushDb, "flushdb", at_least 1;
            FlushAll, "flushall", at_least 1;
            SwapDb, "swapdb", exactly 3)
    };
    (KeysLook => $with:ident!($($arguments:tt)*)) => {
        $with!(KeysLook, $($arguments)*;
            Exists, "exists", at_least 2;
            Touch, "touch", at_least 2;
            Type, "type", exactly 2;
            Keys, "keys", exactly 2;
            Ttl(Unit::Seconds), "ttl", exactly 2;
            Ttl(Unit::Milliseconds), "pttl", exactly 2;
            ExpireTime(Unit::Seconds), "expiretime", exactly 2;
            ExpireTime(Unit::Milliseconds), "pexpiretime", exactly 2)
    };
    (KeysChange => $with:ident!($($arguments:tt)*)) => {
        $with!(KeysChange, $($arguments)*;
            Del, "del", at_least 2;
            Unlink, "unlink", at_least 2;
            Rename, "rename", exactly 3;
            RenameNx, "renamenx", exactly 3;
            Copy, "copy", at_least 3;
            Move, "move", exactly 3;
            Expire(Timing::InSeconds), "expire", at_least 3;
            Expire(Timing::InMilliseconds), "pexpire", at_least 3;
            Expire(Timing::AtSecond), "expireat", at_least 3;
            Expire(Timing::AtMillisecond), "pexpireat", at_least 3;
            Persist, "persist", exactly 2)
    };
    (StringsLook => $with:ident!($($arguments:tt)*)) => {
        $with!(StringsLook, $($arguments)*;
            Get, "get", exactly 2;
            MGet, "mget", at_least 2;
            StrLen, "strlen", exactly 2;
            GetRange, "getrange", exactly 4;
            SubStr, "substr", exactly 4;
            GetBit, "getbit", exactly 3;
            BitCount, "bitcount", at_least 2)
    };
    (StringsChange => $with:ident!($($arguments:tt)*)) => {
        $with!(StringsChange, $($arguments)*;
            Set, "set", at_least 3;
            SetNx, "setnx", exactly 3;
            SetEx(Unit::Seconds), "setex", exactly 4;
            SetEx(Unit::Milliseconds), "psetex", exactly 4;
            GetSet, "getset", exactly 3;
            GetDel, "getdel", exactly 2;
            GetEx, "getex", at_least 2;
            MSet, "mset", at_least 3;
            MSetNx, "msetnx", at_least 3;
            Append, "append", exactly 3;
            SetRange, "setrange", exactly 4;
            Incr, "incr", exactly 2;
            Decr, "decr", exactly 2;
            IncrBy, "incrby", exactly 3;
            DecrBy, "decrby", exactly 3;
            SetBit, "setbit", exactly 4;
            BitOp, "bitop", at_least 4)
    };
    (ListsLook => $with:ident!($($arguments:tt)*)) => {
        $with!(ListsLook, $($arguments)*;
            LLen, "llen", exactly 2;
            LRange, "lrange", exactly 4;
            LIndex, "lindex", exactly 3;
            LPos, "lpos", at_least 3)
    };
    (ListsChange => $with:ident!($($arguments:tt)*)) => {
        $with!(ListsChange, $($arguments)*;
            Push(End::Left), "lpush", at_least 3;
            Push(End::Right), "rpush", at_least 3;
            PushX(End::Left), "lpushx", at_least 3;
            PushX(End::Right), "rpushx", at_least 3;
            Pop(End::Left), "lpop", at_least 2;
            Pop(End::Right), "rpop", at_least 2;
            LSet, "lset", exactly 4;
            LTrim, "ltrim", exactly 4;
            LInsert, "linsert", exactly 5;
            LRem, "lrem", exactly 4;
            LMove, "lmove", exactly 5;
            RPopLPush, "rpoplpush", exactly 3;
            LMPop, "lmpop", at_least 4)
    };
    (HashesLook => $with:ident!($($arguments:tt)*)) => {
        $with!(HashesLook, $($arguments)*;
            HGet, "hget", exactly 3;
            HMGet, "hmget", at_least 3;
            HLen, "hlen", exactly 2;
            HExists, "hexists", exactly 3;
            HStrLen, "hstrlen", exactly 3;
            HKeys, "hkeys", exactly 2;
            HVals, "hvals", exactly 2;
            HGetAll, "hgetall", exactly 2)
    };
    (HashesChange => $with:ident!($($arguments:tt)*)) => {
        $with!(HashesChange, $($arguments)*;
            HSet, "hset", at_least 4;
            HMSet, "hmset", at_least 4;
            HSetNx, "hsetnx", exactly 4;
            HDel, "hdel", at_least 3;
            HIncrBy, "hincrby", exactly 4)
    };
    (SetsLook => $with:ident!($($arguments:tt)*)) => {
        $with!(SetsLook, $($arguments)*;
            SIsMember, "sismember", exactly 3;
            SMIsMember, "smismember", at_least 3;
            SCard, "scard", exactly 2;
            SMembers, "smembers", exactly 2;
            Combine(Combination::Intersection), "sinter", at_least 2;
            Combine(Combination::Union), "sunion", at_least 2;
            Combine(Combination::Difference), "sdiff", at_least 2;
            SInterCard, "sintercard", at_least 3)
    };
    (SetsChange => $with:ident!($($arguments:tt)*)) => {
        $with!(SetsChange, $($arguments)*;
            SAdd, "sadd", at_least 3;
            SRem, "srem", at_least 3;
            SMove, "smove", exactly 4;
            CombineStore(Combination::Intersection), "sinterstore", at_least 3;
            CombineStore(Combination::Union), "sunionstore", at_least 3;
            CombineStore(Combination::Difference), "sdiffstore", at_least 3)
    };
    (SortedSetsLook => $with:ident!($($arguments:tt)*)) => {
        $with!(SortedSetsLook, $($arguments)*;
            ZScore, "zscore", exactly 3;
            ZMScore, "zmscore", at_least 3;
            ZCard, "zcard", exactly 2;
            Rank(Direction::Ascending), "zrank", exactly 3;
            Rank(Direction::Descending), "zrevrank", exactly 3;
            ZCount, "zcount", exactly 4;
            ZLexCount, "zlexcount", exactly 4;
            Range(RangeForm::Any), "zrange", at_least 4;
            Range(RangeForm::Reversed), "zrevrange", at_least 4;
            Range(RangeForm::ByScores(Direction::Ascending)), "zrangebyscore", at_least 4;
            Range(RangeForm::ByScores(Direction::Descending)), "zrevrangebyscore", at_least 4;
            Range(RangeForm::ByMembers(Direction::Ascending)), "zrangebylex", at_least 4;
            Range(RangeForm::ByMembers(Direction::Descending)), "zrevrangebylex", at_least 4)
    };
    (SortedSetsChange => $with:ident!($($arguments:tt)*)) => {
        $with!(SortedSetsChange, $($arguments)*;
            ZAdd, "zadd", at_least 4;
            ZIncrBy, "zincrby", exactly 4;
            ZRem, "zrem", at_least 3;
            RemRange(RangeBy::Places), "zremrangebyrank", exactly 4;
            RemRange(RangeBy::Scores), "zremrangebyscore", exactly 4;
            RemRange(RangeBy::Members), "zremrangebylex", exactly 4;
            Pop(Direction::Ascending), "zpopmin", at_least 2;
            Pop(Direction::Descending), "zpopmax", at_least 2;
            JoinStore(Joining::Union), "zunionstore", at_least 4;
            JoinStore(Joining::Intersection), "zinterstore", at_least 4)
    };
    (Session => $with:ident!($($arguments:tt)*)) => {
        $with!(Session, $($arguments)*;
            Multi, "multi", exactly 1;
            Exec, "exec", exactly 1;
            Discard, "discard", exactly 1;
            Watch, "watch", at_least 2;
            Unwatch, "unwatch", exactly 1;
            Quit, "quit", at_least 1;
            Subscribe(Kind::Channels), "subscribe", at_least 2;
            Subscribe(Kind::Patterns), "psubscribe", at_least 2;
            Unsubscribe(Kind::Channels), "unsubscribe", at_least 1;
            Unsubscribe(Kind::Patterns), "punsubscribe", at_least 1;
            Publish, "publish", exactly 3;
            Pubsub, "pubsub", at_least 2)
    };
}

macro_rules! find {
    ($section:ident, $word:ident; $($id:ident $(($($of:tt)+))?, $name:literal, $test:ident $count:literal);*) => {{
        $(if is_name($word, $name) {
            return Some($section::$id $(($($of)+))?);
        })*
        None
    }};
}

macro_rules! name {
    ($section:ident, $command:ident; $($id:ident $(($($of:tt)+))?, $name:literal, $test:ident $count:literal);*) => {
        match $command {
            $($section::$id $(($($of)+))? => $name,)*
        }
    };
}

macro_rules! is_count {
    (exactly $count:literal, $words:ident) => {
        $words == $count
    };
    (at_least $count:literal, $words:ident) => {
        $count <= $words
    };
}

macro_rules! arity_ok {
    ($section:ident, $command:ident, $words:ident; $($id:ident $(($($of:tt)+))?, $name:literal, $test:ident $count:literal);*) => {
        match $command {
            $($section::$id $(($($of)+))? => is_count!($test $count, $words),)*
        }
    };
}

// Whether a word is a name, whatever the case of its ASCII letters.
fn is_name(word: &[u8], name: &str) -> bool
    ensures { result ≡ bytes_eq (map to_ascii_lowercase name.now) (str_to_ascii_lowercase word.now) }
{
    word.eq_ignore_ascii_case(name.as_bytes())
}

/// The command of a name, whatever the case of its ASCII letters. It compares lengths, and few of the bytes.
pub fn lookup(word: &[u8]) -> Option<Command>
    ensures { result ≡ named served word.now }
{
    if let Some(operation) = operation(word) {
        return Some(Command::Perform(operation));
    }
    if let Some(command) = session(word) {
        return Some(Command::Session(command));
    }
    None
}

// The commands that are performed on the keyspace, those that clients send most first.
fn operation(word: &[u8]) -> Option<Operation>
    ensures { option_map commands.Perform result ≡ named table.operations_served word.now }
{
    if let Some(operation) = plain(word) {
        return Some(operation);
    }
    collection(word)
}

// Those on strings, on keys of any kind, and on the server.
fn plain(word: &[u8]) -> Option<Operation>
    ensures { option_map commands.Perform result ≡ named table.plain_served word.now }
{
    if let Some(command) = strings_look(word) {
        return Some(Operation::Look(Look::Strings(command)));
    }
    if let Some(command) = strings_change(word) {
        return Some(Operation::Change(Change::Strings(command)));
    }
    if let Some(command) = keys_look(word) {
        return Some(Operation::Look(Look::Keys(command)));
    }
    if let Some(command) = keys_change(word) {
        return Some(Operation::Change(Change::Keys(command)));
    }
    if let Some(command) = server_look(word) {
        return Some(Operation::Look(Look::Server(command)));
    }
    if let Some(command) = server_change(word) {
        return Some(Operation::Change(Change::Server(command)));
    }
    None
}

// Those on lists, hashes, sets and sorted sets.
fn collection(word: &[u8]) -> Option<Operation>
    ensures { option_map commands.Perform result ≡ named table.collections_served word.now }
{
    if let Some(command) = lists_look(word) {
        return Some(Operation::Look(Look::Lists(command)));
    }
    if let Some(command) = lists_change(word) {
        return Some(Operation::Change(Change::Lists(command)));
    }
    if let Some(operation) = hashes(word) {
        return Some(operation);
    }
    if let Some(command) = sets_look(word) {
        return Some(Operation::Look(Look::Sets(command)));
    }
    if let Some(command) = sets_change(word) {
        return Some(Operation::Change(Change::Sets(command)));
    }
    sorted_sets(word)
}

// Those on hashes: another letter at the beginning passes over them.
fn hashes(word: &[u8]) -> Option<Operation>
    ensures { option_map commands.Perform result ≡ named table.hashes_served word.now }
{
    if !begins_with(word, b'h') {
        return None;
    }
    if let Some(command) = hashes_look(word) {
        return Some(Operation::Look(Look::Hashes(command)));
    }
    if let Some(command) = hashes_change(word) {
        return Some(Operation::Change(Change::Hashes(command)));
    }
    None
}

// Those on sorted sets: another letter at the beginning passes over them.
fn sorted_sets(word: &[u8]) -> Option<Operation>
    ensures { option_map commands.Perform result ≡ named table.sorted_sets_served word.now }
{
    if !begins_with(word, b'z') {
        return None;
    }
    if let Some(command) = sorted_sets_look(word) {
        return Some(Operation::Look(Look::SortedSets(command)));
    }
    if let Some(command) = sorted_sets_change(word) {
        return Some(Operation::Change(Change::SortedSets(command)));
    }
    None
}

// Whether a word begins with a letter, whatever its case.
fn begins_with(word: &[u8], letter: u8) -> bool
    ensures { result ≡ begins_with letter (str_to_ascii_lowercase word.now) }
{
    match word.first() {
        Some(first) => first.to_ascii_lowercase() == letter,
        None => false,
    }
}

fn server_look(word: &[u8]) -> Option<ServerLook>
    ensures { option_map table.server_look result ≡ named table.server_looks_served word.now }
{
    rows!(ServerLook => find!(word))
}

fn server_change(word: &[u8]) -> Option<ServerChange>
    ensures { option_map table.server_change result ≡ named table.server_changes_served word.now }
{
    rows!(ServerChange => find!(word))
}

fn keys_look(word: &[u8]) -> Option<KeysLook>
    ensures { option_map table.keys_look result ≡ named table.keys_looks_served word.now }
{
    rows!(KeysLook => find!(word))
}

fn keys_change(word: &[u8]) -> Option<KeysChange>
    ensures { option_map table.keys_change result ≡ named table.keys_changes_served word.now }
{
    rows!(KeysChange => find!(word))
}

fn strings_look(word: &[u8]) -> Option<StringsLook>
    ensures { option_map table.strings_look result ≡ named table.strings_looks_served word.now }
{
    rows!(StringsLook => find!(word))
}

fn strings_change(word: &[u8]) -> Option<StringsChange>
    ensures { option_map table.strings_change result ≡ named table.strings_changes_served word.now }
{
    rows!(StringsChange => find!(word))
}

fn lists_look(word: &[u8]) -> Option<ListsLook>
    ensures { option_map table.lists_look result ≡ named table.lists_looks_served word.now }
{
    rows!(ListsLook => find!(word))
}

fn lists_change(word: &[u8]) -> Option<ListsChange>
    ensures { option_map table.lists_change result ≡ named table.lists_changes_served word.now }
{
    rows!(ListsChange => find!(word))
}

fn hashes_look(word: &[u8]) -> Option<HashesLook>
    ensures { option_map table.hashes_look result ≡ named table.hashes_looks_served word.now }
{
    rows!(HashesLook => find!(word))
}

fn hashes_change(word: &[u8]) -> Option<HashesChange>
    ensures { option_map table.hashes_change result ≡ named table.hashes_changes_served word.now }
{
    rows!(HashesChange => find!(word))
}

fn sets_look(word: &[u8]) -> Option<SetsLook>
    ensures { option_map table.sets_look result ≡ named table.sets_looks_served word.now }
{
    rows!(SetsLook => find!(word))
}

fn sets_change(word: &[u8]) -> Option<SetsChange>
    ensures { option_map table.sets_change result ≡ named table.sets_changes_served word.now }
{
    rows!(SetsChange => find!(word))
}

fn sorted_sets_look(word: &[u8]) -> Option<SortedSetsLook>
    ensures { option_map table.sorted_sets_look result ≡ named table.sorted_sets_looks_served word.now }
{
    rows!(SortedSetsLook => find!(word))
}

fn sorted_sets_change(word: &[u8]) -> Option<SortedSetsChange>
    ensures { option_map table.sorted_sets_change result ≡ named table.sorted_sets_changes_served word.now }
{
    rows!(SortedSetsChange => find!(word))
}

fn session(word: &[u8]) -> Option<Session>
    ensures { option_map commands.Session result ≡ named table.sessions_served word.now }
{
    rows!(Session => find!(word))
}

/// A command's name, in lower case.
pub fn name(command: Command) -> &'static str
    ensures { result.now ≡ (row_of command).name }
{
    match command {
        Command::Perform(operation) => operation_name(operation),
        Command::Session(command) => rows!(Session => name!(command)),
    }
}

fn operation_name(operation: Operation) -> &'static str
    ensures { result.now ≡ (table.operation_row operation).name }
{
    match operation {
        Operation::Look(Look::Server(command)) => rows!(ServerLook => name!(command)),
        Operation::Look(Look::Keys(command)) => rows!(KeysLook => name!(command)),
        Operation::Look(Look::Strings(command)) => rows!(StringsLook => name!(command)),
        Operation::Look(Look::Lists(command)) => rows!(ListsLook => name!(command)),
        Operation::Look(Look::Hashes(command)) => rows!(HashesLook => name!(command)),
        Operation::Look(Look::Sets(command)) => rows!(SetsLook => name!(command)),
        Operation::Look(Look::SortedSets(command)) => rows!(SortedSetsLook => name!(command)),
        Operation::Change(Change::Server(command)) => rows!(ServerChange => name!(command)),
        Operation::Change(Change::Keys(command)) => rows!(KeysChange => name!(command)),
        Operation::Change(Change::Strings(command)) => rows!(StringsChange => name!(command)),
        Operation::Change(Change::Lists(command)) => rows!(ListsChange => name!(command)),
        Operation::Change(Change::Hashes(command)) => rows!(HashesChange => name!(command)),
        Operation::Change(Change::Sets(command)) => rows!(SetsChange => name!(command)),
        Operation::Change(Change::SortedSets(command)) => {
            rows!(SortedSetsChange => name!(command))
        }
    }
}

/// Whether a command takes so many words, its name counted.
pub fn arity_ok(command: Command, words: usize) -> bool
    ensures { result ≡ shape.arity_ok (row_of command).arity words }
{
    match command {
        Command::Perform(operation) => operation_arity_ok(operation, words),
        Command::Session(command) => rows!(Session => arity_ok!(command, words)),
    }
}

fn operation_arity_ok(operation: Operation, words: usize) -> bool
    ensures { result ≡ shape.arity_ok (table.operation_row operation).arity words }
{
    match operation {
        Operation::Look(Look::Server(command)) => rows!(ServerLook => arity_ok!(command, words)),
        Operation::Look(Look::Keys(command)) => rows!(KeysLook => arity_ok!(command, words)),
        Operation::Look(Look::Strings(command)) => rows!(StringsLook => arity_ok!(command, words)),
        Operation::Look(Look::Lists(command)) => rows!(ListsLook => arity_ok!(command, words)),
        Operation::Look(Look::Hashes(command)) => rows!(HashesLook => arity_ok!(command, words)),
        Operation::Look(Look::Sets(command)) => rows!(SetsLook => arity_ok!(command, words)),
        Operation::Look(Look::SortedSets(command)) => {
            rows!(SortedSetsLook => arity_ok!(command, words))
        }
        Operation::Change(Change::Server(command)) => {
            rows!(ServerChange => arity_ok!(command, words))
        }
        Operation::Change(Change::Keys(command)) => rows!(KeysChange => arity_ok!(command, words)),
        Operation::Change(Change::Strings(command)) => {
            rows!(StringsChange => arity_ok!(command, words))
        }
        Operation::Change(Change::Lists(command)) => {
            rows!(ListsChange => arity_ok!(command, words))
        }
        Operation::Change(Change::Hashes(command)) => {
            rows!(HashesChange => arity_ok!(command, words))
        }
        Operation::Change(Change::Sets(command)) => {
            rows!(SetsChange => arity_ok!(command, words))
        }
        Operation::Change(Change::SortedSets(command)) => {
            rows!(SortedSetsChange => arity_ok!(command, words))
        }
    }
}
