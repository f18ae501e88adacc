// The options of SET and GETEX: words in any order, read to the last before any is weighed.
ghost use Rattle.std.specs.Prelude.{◌≡◌, ◌+◌, ◌<◌, ◌≤◌, ◌^◌, ◌∷◌, ◌&&◌, ◌||◌, cond, Ok, length, is_some, is_none, IfOk, IfErr, IfSome};
ghost use Rattle.nr_model.specs.Commands.Reading as reading;
ghost use Rattle.nr_model.specs.Commands.Reading.{fault, read_options, read_then};
ghost use Rattle.nr_model.specs.Commands.Strings as strings;
ghost use Rattle.nr_key_commands.specs.Expired as expired;
ghost use Rattle.nr_key_commands.specs.Options as options;

use nr_blob::Blob;
use nr_model::command::Timing;
use nr_model::refused::{Expiring, Refused};
use nr_resp::words::{is_word, positive_expiry};
use std::marker::Model;

/// The options of SET.
#[derive(Clone, Copy)]
pub(super) struct SetOptions {
    /// Whether the key has to be missing.
    pub(super) nx: bool,
    /// Whether the key has to be there.
    pub(super) xx: bool,
    /// Whether what the key held is asked for.
    pub(super) get: bool,
    /// Whether the key keeps its deadline.
    pub(super) keep: bool,
    /// How many words spoke of the deadline.
    pub(super) times: usize,
    /// The deadline in milliseconds.
    pub(super) deadline: Option<i64>,
}

impl Model for SetOptions {
    ghost use Rattle.nr_model.specs.Commands.Strings as strings;

    ghost Value = { strings.SetOptions };

    ghost view = { λ options. record { nx = options.nx; xx = options.xx; get = options.get; keep = options.keep; times = options.times; deadline = options.deadline } };

    ghost inverse = { λ options. record { nx = options.nx; xx = options.xx; get = options.get; keep = options.keep; times = options.times; deadline = options.deadline } };
}

/// The options of GETEX.
#[derive(Clone, Copy)]
pub(super) struct GetExOptions {
    /// Whether the key loses its deadline.
    pub(super) persist: bool,
    /// How many words spoke of the deadline.
    pub(super) times: usize,
    /// The deadline in milliseconds.
    pub(super) deadline: Option<i64>,
}

impl Model for GetExOptions {
    ghost use Rattle.nr_model.specs.Commands.Strings as strings;

    ghost Value = { strings.GetExOptions };

    ghost view = { λ options. record { persist = options.persist; times = options.times; deadline = options.deadline } };

    ghost inverse = { λ options. record { persist = options.persist; times = options.times; deadline = options.deadline } };
}

/// The options of SET that words say.
pub(super) fn set_options(now: u64, words: &[Blob]) -> Result<SetOptions, Refused>
    ensures options { IfOk result
        (λ read. read_then (read_options (strings.set_option now) strings.no_options words.now) strings.settable ≡ Ok read) }
    ensures refused { IfErr result
        (λ why. read_then (read_options (strings.set_option now) strings.no_options words.now) strings.settable ≡ fault why) }
{
    let options = every_set_option(now, words)?;
    if (options.nx && options.xx) || options.times > 1 {
        return Err(Refused::Syntax);
    }
    Ok(options)
}

fn every_set_option(now: u64, words: &[Blob]) -> Result<SetOptions, Refused>
    ensures options { IfOk result (λ read. read_options (strings.set_option now) strings.no_options words.now ≡ Ok read) }
    ensures refused { IfErr result (λ why. read_options (strings.set_option now) strings.no_options words.now ≡ fault why) }
{
    let mut options = SetOptions {
        nx: false,
        xx: false,
        get: false,
        keep: false,
        times: 0,
        deadline: None,
    };
    let mut left = words;
    while let Some((word, others)) = left.split_first() {
        left = options.read(now, word, others)?;
    }
    Ok(options)
}

impl SetOptions {
    /// Whether a key that has this deadline, or none, or isn't there, is not as it has to be.
    pub(super) fn is_unmet(self, held: Option<Option<i64>>) -> bool
        ensures { result ≡ ((self.nx && is_some held) || (self.xx && is_none held)) }
    {
        (self.nx && held.is_some()) || (self.xx && held.is_none())
    }

    /// The deadline that such a key has then.
    pub(super) fn deadline_after(self, held: Option<Option<i64>>) -> Option<i64>
        ensures { result ≡ cond self.keep (options.deadline_kept held) self.deadline }
    {
        if !self.keep {
            return self.deadline;
        }
        match held {
            Some(deadline) => deadline,
            None => None,
        }
    }

    // Reads the option that a word begins, and gives the words behind it.
    fn read<'k>(&mut self, now: u64, word: &Blob, others: &'k [Blob]) -> Result<&'k [Blob], Refused>
        requires { self.old.times < 2 ^ 63 }
        ensures read { IfOk result (λ left. read_options (strings.set_option now) self.old (word.now ∷ others.now)
            ≡ read_options (strings.set_option now) self.new left.now) }
        ensures refused { IfErr result
            (λ why. read_options (strings.set_option now) self.old (word.now ∷ others.now) ≡ fault why) }
        ensures shorter { IfOk result (λ left. length left.now ≤ length others.now) }
        ensures few { IfOk result (λ left. self.new.times ≤ self.old.times + 1) }
    {
        match self.with_flag(word) {
            Some(options) => {
                *self = options;
                Ok(others)
            }
            None => {
                let timing = timing_of(word);
                let (deadline, behind) = deadline_behind(Expiring::Set, now, timing, others)?;
                *self = self.with_deadline(deadline);
                Ok(behind)
            }
        }
    }

    // With an option of one word, if the word is one.
    fn with_flag(self, word: &Blob) -> Option<SetOptions>
        requires { self.times < 2 ^ 63 }
        ensures flag { result ≡ options.set_flag self word.now }
        ensures few { IfSome result (λ options. options.times ≤ self.times + 1) }
    {
        if is_word("nx", word) {
            return Some(SetOptions { nx: true, ..self });
        }
        if is_word("xx", word) {
            return Some(SetOptions { xx: true, ..self });
        }
        if is_word("get", word) {
            return Some(SetOptions { get: true, ..self });
        }
        if is_word("keepttl", word) {
            return Some(SetOptions {
                keep: true,
                times: self.times + 1,
                ..self
            });
        }
        None
    }

    fn with_deadline(self, deadline: i64) -> SetOptions
        requires { self.times < 2 ^ 63 }
        ensures options { result ≡ strings.with_deadline self deadline }
        ensures few { result.times ≤ self.times + 1 }
    {
        SetOptions {
            times: self.times + 1,
            deadline: Some(deadline),
            ..self
        }
    }
}

/// The options of GETEX that words say.
pub(super) fn get_ex_options(now: u64, words: &[Blob]) -> Result<GetExOptions, Refused>
    ensures options { IfOk result
        (λ read. read_then (read_options (strings.get_ex_option now) options.no_get_ex_options words.now) strings.one_time ≡ Ok read) }
    ensures refused { IfErr result
        (λ why. read_then (read_options (strings.get_ex_option now) options.no_get_ex_options words.now) strings.one_time ≡ fault why) }
{
    let options = every_get_ex_option(now, words)?;
    if options.times > 1 {
        return Err(Refused::Syntax);
    }
    Ok(options)
}

fn every_get_ex_option(now: u64, words: &[Blob]) -> Result<GetExOptions, Refused>
    ensures options { IfOk result
        (λ read. read_options (strings.get_ex_option now) options.no_get_ex_options words.now ≡ Ok read) }
    ensures refused { IfErr result (λ why. read_options (strings.get_ex_option now) options.no_get_ex_options words.now ≡ fault why) }
{
    let mut options = GetExOptions {
        persist: false,
        times: 0,
        deadline: None,
    };
    let mut left = words;
    while let Some((word, others)) = left.split_first() {
        left = options.read(now, word, others)?;
    }
    Ok(options)
}

impl GetExOptions {
    /// The deadline, or none, that a key with this one is given, if it is given any.
    pub(super) fn deadline_given(self, held: Option<i64>) -> Option<Option<i64>>
        ensures { result ≡ expired.deadline_given self held }
    {
        if let Some(deadline) = self.deadline {
            return Some(Some(deadline));
        }
        if self.persist && held.is_some() {
            return Some(None);
        }
        None
    }

    // Reads the option that a word begins, and gives the words behind it.
    fn read<'k>(&mut self, now: u64, word: &Blob, others: &'k [Blob]) -> Result<&'k [Blob], Refused>
        requires { self.old.times < 2 ^ 63 }
        ensures read { IfOk result (λ left. read_options (strings.get_ex_option now) self.old (word.now ∷ others.now)
            ≡ read_options (strings.get_ex_option now) self.new left.now) }
        ensures refused { IfErr result
            (λ why. read_options (strings.get_ex_option now) self.old (word.now ∷ others.now) ≡ fault why) }
        ensures shorter { IfOk result (λ left. length left.now ≤ length others.now) }
        ensures few { IfOk result (λ left. self.new.times ≤ self.old.times + 1) }
    {
        match self.with_flag(word) {
            Some(options) => {
                *self = options;
                Ok(others)
            }
            None => {
                let timing = timing_of(word);
                let (deadline, behind) = deadline_behind(Expiring::GetEx, now, timing, others)?;
                *self = self.with_deadline(deadline);
                Ok(behind)
            }
        }
    }

    // With an option of one word, if the word is one.
    fn with_flag(self, word: &Blob) -> Option<GetExOptions>
        requires { self.times < 2 ^ 63 }
        ensures flag { result ≡ options.get_ex_flag self word.now }
        ensures few { IfSome result (λ options. options.times ≤ self.times + 1) }
    {
        if is_word("persist", word) {
            return Some(GetExOptions {
                persist: true,
                times: self.times + 1,
                ..self
            });
        }
        None
    }

    fn with_deadline(self, deadline: i64) -> GetExOptions
        requires { self.times < 2 ^ 63 }
        ensures options { result ≡ options.with_get_ex_deadline self deadline }
        ensures few { result.times ≤ self.times + 1 }
    {
        GetExOptions {
            times: self.times + 1,
            deadline: Some(deadline),
            ..self
        }
    }
}

// The deadline that the next word says by this timing, and the words behind it.
fn deadline_behind<'k>(
    command: Expiring,
    now: u64,
    timing: Option<Timing>,
    words: &'k [Blob],
) -> Result<(i64, &'k [Blob]), Refused>
    ensures deadline { IfOk result (λ read. options.deadline_behind command now timing words.now ≡ Ok (read.0, read.1.now)) }
    ensures refused { IfErr result (λ why. options.deadline_behind command now timing words.now ≡ fault why) }
    ensures shorter { IfOk result (λ read. length read.1.now ≤ length words.now) }
{
    let Some(timing) = timing else {
        return Err(Refused::Syntax);
    };
    let Some((value, behind)) = words.split_first() else {
        return Err(Refused::Syntax);
    };
    Ok((positive_expiry(command, timing, now, value)?, behind))
}

// What a word says of the number behind it, if it is one that says a deadline.
fn timing_of(word: &Blob) -> Option<Timing>
    ensures { result ≡ reading.timing_of word.now }
{
    if is_word("ex", word) {
        return Some(Timing::InSeconds);
    }
    if is_word("px", word) {
        return Some(Timing::InMilliseconds);
    }
    if is_word("exat", word) {
        return Some(Timing::AtSecond);
    }
    if is_word("pxat", word) {
        return Some(Timing::AtMillisecond);
    }
    None
}
