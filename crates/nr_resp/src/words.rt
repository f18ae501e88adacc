// What commands read from the words behind their name, from left to right: the first fault is the one that is answered.
ghost use Rattle.std.specs.Prelude.{◌≡◌, Ok, IfOk, IfErr};
ghost use Rattle.nr_model.specs.Commands.Lists as lists;
ghost use Rattle.nr_model.specs.Replies.{Error};
ghost use Rattle.nr_model.specs.Commands.Texts.{unsupported_option};
ghost use Rattle.nr_resp.specs.Seen.{reply_of};
ghost use Rattle.nr_model.specs.Numbers.{in_i64};
ghost use Rattle.nr_model.specs.Commands.Reading as reading;
ghost use Rattle.nr_model.specs.Commands.Reading.{fault};

use crate::reply::Reply;
use nr_blob::{Blob, Memory, push_quoted, read_int};
use nr_model::command::Timing;
use nr_model::refused::{Expiring, Refused};
use std::alloc::Global;

/// Exactly one word.
pub fn one_word(words: &[Blob]) -> Result<&Blob, Refused>
    ensures word { IfOk result (λ word. reading.one_word words.now ≡ Ok word.now) }
    ensures refused { IfErr result (λ why. reading.one_word words.now ≡ fault why) }
{
    let [word] = words else {
        return Err(Refused::Syntax);
    };
    Ok(word)
}

/// Exactly two words.
pub fn two_words<'k>(words: &'k [Blob]) -> Result<(&'k Blob, &'k Blob), Refused>
    ensures words { IfOk result (λ pair. reading.two_words words.now ≡ Ok (pair.0.now, pair.1.now)) }
    ensures refused { IfErr result (λ why. reading.two_words words.now ≡ fault why) }
{
    let [first, second] = words else {
        return Err(Refused::Syntax);
    };
    Ok((first, second))
}

/// Exactly three words.
pub fn three_words<'k>(words: &'k [Blob]) -> Result<(&'k Blob, &'k Blob, &'k Blob), Refused>
    ensures words { IfOk result (λ word. reading.three_words words.now ≡ Ok (word.0.now, word.1.now, word.2.now)) }
    ensures refused { IfErr result (λ why. reading.three_words words.now ≡ fault why) }
{
    let [first, second, third] = words else {
        return Err(Refused::Syntax);
    };
    Ok((first, second, third))
}

/// The integer that a word spells.
pub fn integer(word: &Blob) -> Result<i64, Refused>
    ensures integer { IfOk result (λ n. reading.integer word.now ≡ Ok n) }
    ensures refused { IfErr result (λ why. reading.integer word.now ≡ fault why) }
{
    match read_int(word.bytes()) {
        Some(integer) => Ok(integer),
        None => Err(Refused::NotAnInteger),
    }
}

/// The deadline in milliseconds that a word says at a moment, however long ago it is.
pub fn expiry(command: Expiring, timing: Timing, now: u64, word: &Blob) -> Result<i64, Refused>
    ensures deadline { IfOk result (λ deadline. reading.expiry command timing now word.now ≡ Ok deadline) }
    ensures refused { IfErr result (λ why. reading.expiry command timing now word.now ≡ fault why) }
{
    deadline(command, timing, now, integer(word)?)
}

/// The deadline in milliseconds that a word says at a moment. A number below 1 is refused.
pub fn positive_expiry(
    command: Expiring,
    timing: Timing,
    now: u64,
    word: &Blob,
) -> Result<i64, Refused>
    ensures deadline { IfOk result (λ deadline. reading.positive_expiry command timing now word.now ≡ Ok deadline) }
    ensures refused { IfErr result (λ why. reading.positive_expiry command timing now word.now ≡ fault why) }
{
    positive_deadline(command, timing, now, integer(word)?)
}

fn positive_deadline(command: Expiring, timing: Timing, now: u64, n: i64) -> Result<i64, Refused>
    ensures deadline { IfOk result (λ deadline. reading.positive_deadline command timing now n ≡ Ok deadline) }
    ensures refused { IfErr result (λ why. reading.positive_deadline command timing now n ≡ fault why) }
{
    if n < 1 {
        return Err(Refused::ExpireTime(command));
    }
    deadline(command, timing, now, n)
}

fn deadline(command: Expiring, timing: Timing, now: u64, n: i64) -> Result<i64, Refused>
    ensures deadline { IfOk result (λ deadline. reading.deadline command timing now n ≡ Ok deadline) }
    ensures refused { IfErr result (λ why. reading.deadline command timing now n ≡ fault why) }
{
    match narrowed(deadline_at(timing, now, n)) {
        Some(deadline) => Ok(deadline),
        None => Err(Refused::ExpireTime(command)),
    }
}

// In milliseconds. Wide enough for each moment and each number.
fn deadline_at(timing: Timing, now: u64, n: i64) -> i128
    ensures { result ≡ reading.deadline_at timing now n }
{
    let now = now as i128;
    let n = n as i128;
    match timing {
        Timing::InSeconds => now + 1000 * n,
        Timing::InMilliseconds => now + n,
        Timing::AtSecond => 1000 * n,
        Timing::AtMillisecond => n,
    }
}

/// The same integer of 64 bits, where it has so many.
pub fn narrowed(n: i128) -> Option<i64>
    ensures { result ≡ in_i64 n }
{
    if n < i64::MIN as i128 || n > i64::MAX as i128 {
        return None;
    }
    Some(n as i64)
}

/// Whether a word is this one, whatever the case of its ASCII letters.
pub fn is_word(name: &str, word: &Blob) -> bool
    ensures { result ≡ reading.is_word name.now word.now }
{
    word.bytes().eq_ignore_ascii_case(name.as_bytes())
}

/// The error of a word that is no option. It quotes the word.
pub fn unsupported_option(alloc: Global, word: &Blob) -> Result<Reply, Memory>
    ensures { IfOk result (λ reply. reply_of reply ≡ Error (unsupported_option word.now)) }
{
    let mut text = Vec::from_slice(alloc, b"ERR Unsupported option ")?;
    push_quoted(&mut text, word.bytes())?;
    Ok(Reply::Error(Blob::from(text)))
}

/// The number of 0 or more that a word spells. Another word is refused as it is said.
pub fn natural(why: Refused, word: &Blob) -> Result<usize, Refused>
    ensures number { IfOk result (λ n. lists.natural why word.now ≡ Ok n) }
    ensures refused { IfErr result (λ error. lists.natural why word.now ≡ fault error) }
{
    match read_int(word.bytes()) {
        Some(n) => natural_of(why, n),
        None => Err(why),
    }
}

fn natural_of(why: Refused, n: i64) -> Result<usize, Refused>
    ensures number { IfOk result (λ number. lists.natural_of why n ≡ Ok number) }
    ensures refused { IfErr result (λ error. lists.natural_of why n ≡ fault error) }
{
    if n < 0 {
        return Err(why);
    }
    Ok(n as usize)
}

/// The number of 1 or more that a word spells. Another word is refused as it is said.
pub fn positive(why: Refused, word: &Blob) -> Result<usize, Refused>
    ensures number { IfOk result (λ n. lists.positive why word.now ≡ Ok n) }
    ensures refused { IfErr result (λ error. lists.positive why word.now ≡ fault error) }
{
    match read_int(word.bytes()) {
        Some(n) => positive_of(why, n),
        None => Err(why),
    }
}

fn positive_of(why: Refused, n: i64) -> Result<usize, Refused>
    ensures number { IfOk result (λ number. lists.positive_of why n ≡ Ok number) }
    ensures refused { IfErr result (λ error. lists.positive_of why n ≡ fault error) }
{
    if n < 1 {
        return Err(why);
    }
    Ok(n as usize)
}
