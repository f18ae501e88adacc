// The lines of requests: where one ends, the number that a header says, the words of an inline line.
ghost use Rattle.std.specs.Prelude.{◌≡◌, ◌≤◌, ◌++◌, length, slice_index, false, OnOk, IfOk, IfErr, MatchOption, MatchResult, true};
ghost use Rattle.std.specs.List.{list_any};
ghost use Rattle.nr_model.specs.Requests.{is_blank, is_count, is_length, is_quote, words_of, ends_with_cr, without_last, without_cr};
ghost use Rattle.nr_resp.specs.Lines.{begins, Ends, IsShortHeader, IsWholeBody, Numbers, Says, Misses, HasQuotes};
ghost use Rattle.nr_model.specs.declared.fault.Fault.TheVariants as faults;

use super::FeedError;
use memchr::memchr;
use nr_blob::{Blob, Memory, read_int};
use nr_model::fault::Fault;
use std::alloc::Global;

const MOST_WORDS: i64 = 1_048_576;

const MOST_WORD_BYTES: i64 = 536_870_912;

/// Whether the bytes that are held, and then the piece, begin with this byte.
pub fn begins_with(mark: u8, held: &[u8], piece: &[u8]) -> bool
    ensures { result ≡ begins mark (held.now ++ piece.now) }
{
    match (held, piece) {
        ([first, ..], _) | ([], [first, ..]) => *first == mark,
        ([], []) => false,
    }
}

/// The number of a header, and what is behind it, where the piece begins with a short one: the mark, a number of one digit or two, CR and LF.
/// `None` leaves it open what the piece begins with.
pub fn short_header(mark: u8, piece: &[u8]) -> Option<(usize, &[u8])>
    ensures { MatchOption result (Unit {0}) (λ header. IsShortHeader mark piece.now header.0 header.1.now) }
{
    if piece.len() < 5 || piece[0] != mark {
        return None;
    }
    if piece[2] == b'\r' {
        one_digit(piece)
    } else {
        two_digits(piece)
    }
}

#[tactic(auto, using(crate::proofs::Lines::one_digit_read))]
fn one_digit(piece: &[u8]) -> Option<(usize, &[u8])>
    requires long { 5 ≤ length piece.now }
    requires cr { slice_index piece.now 2 ≡ 13 }
    ensures { MatchOption result (Unit {0}) (λ header. IsShortHeader (slice_index piece.now 0) piece.now header.0 header.1.now) }
{
    if !piece[1].is_ascii_digit() || piece[3] != b'\n' {
        return None;
    }
    Some((usize::from(piece[1] - b'0'), &piece[4..]))
}

#[tactic(auto, using(crate::proofs::Lines::two_digits_read))]
fn two_digits(piece: &[u8]) -> Option<(usize, &[u8])>
    requires { 5 ≤ length piece.now }
    ensures { MatchOption result (Unit {0}) (λ header. IsShortHeader (slice_index piece.now 0) piece.now header.0 header.1.now) }
{
    if piece[1] == b'0' || !piece[1].is_ascii_digit() || !piece[2].is_ascii_digit() {
        return None;
    }
    if piece[3] != b'\r' || piece[4] != b'\n' {
        return None;
    }
    let number = 10 * usize::from(piece[1] - b'0') + usize::from(piece[2] - b'0');
    Some((number, &piece[5..]))
}

/// A body of so many bytes, and what is behind its CR and LF, where the piece begins with all of them.
pub fn whole_body(len: usize, piece: &[u8]) -> Option<(&[u8], &[u8])>
    ensures { MatchOption result (Unit {0}) (λ body. IsWholeBody len piece.now body.0.now body.1.now) }
{
    if piece.len() < 2 || piece.len() - 2 < len {
        return None;
    }
    if piece[len] != b'\r' || piece[len + 1] != b'\n' {
        return None;
    }
    Some((&piece[..len], &piece[len + 2..]))
}

/// The place of the first LF, where it comes behind no more bytes than there is room for.
///
/// # Errors
///
/// The fault, where more bytes come before it.
pub fn line_end(room: usize, fault: Fault, piece: &[u8]) -> Result<Option<usize>, FeedError>
    ensures { Ends room fault piece.now result }
{
    let end = memchr(b'\n', piece);
    if end.unwrap_or(piece.len()) > room {
        return Err(FeedError::Fault(fault));
    }
    Ok(end)
}

/// The bytes that are held, and then the front: the front itself where none are held.
pub fn joined<'a>(held: &'a mut Vec<u8>, front: &'a [u8]) -> Result<&'a [u8], Memory>
    ensures { IfOk result (λ line. line.now ≡ held.old.items ++ front.now) }
{
    if held.is_empty() {
        return Ok(front);
    }
    held.extend_from_slice(front)?;
    Ok(held.as_slice())
}

/// How many words the header of an array says, where a negative number says none.
///
/// # Errors
///
/// The line does not end with CR, or says no number of at most 1,048,576.
pub fn count_of(line: &[u8]) -> Result<usize, FeedError>
    ensures ok { IfOk result (λ count. Says is_count line.now count) }
    ensures fault { IfErr result (λ error. Misses faults.Count is_count line.now error) }
{
    match number_of(line)? {
        Some(count) if count <= MOST_WORDS => Ok(usize::try_from(count).unwrap_or(0)),
        _ => Err(FeedError::Fault(Fault::Count)),
    }
}

/// How many bytes the header of a bulk says.
///
/// # Errors
///
/// The line does not end with CR, or says no number from 0 to 536,870,912.
pub fn length_of(line: &[u8]) -> Result<usize, FeedError>
    ensures ok { IfOk result (λ len. Says is_length line.now len) }
    ensures fault { IfErr result (λ error. Misses faults.Length is_length line.now error) }
{
    match number_of(line)? {
        Some(len) if 0 <= len && len <= MOST_WORD_BYTES => Ok(usize::try_from(len).unwrap_or(0)),
        _ => Err(FeedError::Fault(Fault::Length)),
    }
}

/// The number of a header line, behind its mark, if it has one.
fn number_of(line: &[u8]) -> Result<Option<i64>, FeedError>
    ensures { Numbers line.now result }
{
    let Some(header) = before_cr(line) else {
        return Err(FeedError::Fault(Fault::LineEnd));
    };
    Ok(read_int(header.get(1..).unwrap_or(&[])))
}

/// A line without the CR that ends it, where it does.
fn before_cr(line: &[u8]) -> Option<&[u8]>
    ensures { MatchOption result (ends_with_cr line.now ≡ false) (λ front. (ends_with_cr line.now ≡ true) × (front.now ≡ without_last line.now)) }
{
    line.strip_suffix(b"\r")
}

fn without_cr(line: &[u8]) -> &[u8]
    ensures { result.now ≡ without_cr line.now }
{
    before_cr(line).unwrap_or(line)
}

/// The words of an inline line.
///
/// # Errors
///
/// The line holds a quotation mark, or memory runs out.
pub fn inline_words(alloc: Global, line: &[u8]) -> Result<Vec<Blob>, FeedError>
    ensures ok { IfOk result (λ words. (list_any is_quote line.now ≡ false) × (words.items ≡ words_of (without_cr line.now))) }
    ensures fault { IfErr result (λ error. HasQuotes line.now error) }
{
    if has_quotes(line) {
        return Err(FeedError::Fault(Fault::Quotes));
    }
    Ok(words_of(alloc, without_cr(line))?)
}

fn has_quotes(line: &[u8]) -> bool
    ensures { result ≡ list_any is_quote line.now }
{
    line.iter().any(|c| *c == b'"' || *c == b'\'')
}

/// The words of a line, which spaces and tabs part.
fn words_of(alloc: Global, line: &[u8]) -> Result<Vec<Blob>, Memory>
    ensures { IfOk result (λ words. words.items ≡ words_of line.now) }
{
    let mut words = Vec::new(alloc);
    let mut word = Vec::new(alloc);
    for c in line {
        if !is_blank(*c) {
            word.push(*c)?;
        } else if !word.is_empty() {
            words.push(Blob::from_slice(alloc, &word)?)?;
            word.clear();
        }
    }
    if !word.is_empty() {
        words.push(Blob::from_slice(alloc, &word)?)?;
    }
    Ok(words)
}

fn is_blank(c: u8) -> bool
    ensures { result ≡ is_blank c }
{
    c == b' ' || c == b'\t'
}
