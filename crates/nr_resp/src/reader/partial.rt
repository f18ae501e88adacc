// The request whose bytes have come in part: a stage for each thing that may come next, and what the stage holds.
ghost use Rattle.std.specs.Prelude.{◌≡◌, ◌++◌, ◌∷◌, ◌<◌, ◌≤◌, [], length, None, Some, Err, OnOk, OnErr, IfOk, IfErr, IsErr, MatchOption, vec_capacity};
ghost use Rattle.nr_model.specs.Bytes.{Bytes};
ghost use Rattle.nr_model.specs.Requests.{framing_of, most_word_bytes};
ghost use Rattle.nr_model.specs.declared.fault.Fault.{Fault};
ghost use Rattle.nr_blob.specs.Refusals.{refusal};
ghost use Rattle.nr_blob.specs.declared.memory.Memory.{Memory};
ghost use Rattle.nr_resp.specs.declared.reader.FeedError.{FeedError};
ghost use Rattle.nr_resp.specs.declared.reader.FeedError.TheVariants as errors;
ghost use Rattle.nr_resp.specs.Frames.{frames_seen};
ghost use Rattle.nr_resp.specs.Lines.{begins, most_line, long_line, IsLineFront, IsShortHeader};
ghost use Rattle.nr_resp.specs.Stream.{Reads, RanOut};
ghost use Rattle.nr_resp.specs.PartialRequest.{array_front, bytes_at, bytes_of, LacksWords, IsHeld, Breaks};
ghost use Rattle.nr_resp.specs.declared.reader.partial.Stage.TheVariants as stages;

use super::FeedError;
use super::lines::{
    begins_with, count_of, inline_words, joined, length_of, line_end, short_header, whole_body,
};
use crate::frame::Frame;
use nr_blob::Blob;
use nr_model::fault::Fault;
use std::alloc::Global;
use std::mem;

const MOST_HEADER_BYTES: usize = 64;

const MOST_INLINE_BYTES: usize = 65_536;

/// What comes next of a request.
#[derive(Clone, Copy)]
pub enum Stage {
    /// Its first line.
    Line,
    /// A bulk's header, in an array of so many words.
    Header { count: usize },
    /// A bulk's body of so many bytes, and its CR.
    Body { count: usize, len: usize },
    /// The LF behind a body.
    Ending { count: usize },
}

/// A request, as far as it has come.
#[derive(Drop)]
pub struct PartialRequest {
    stage: Stage,
    /// The whole words of an array.
    words: Vec<Blob>,
    /// What has come of the line or the body that is next.
    part: Vec<u8>,
}

impl PartialRequest {
    pub fn new(alloc: Global) -> Self
        ensures held { IsHeld result }
        ensures nothing { bytes_of result ≡ [] }
    {
        PartialRequest {
            stage: Stage::Line,
            words: Vec::new(alloc),
            part: Vec::new(alloc),
        }
    }

    /// Takes a whole piece, and adds each request that ends in it.
    ///
    /// # Errors
    ///
    /// The bytes so far are no requests, or memory runs out: then it holds the front of the request that it failed in.
    pub fn feed(&mut self, piece: &[u8], frames: &mut Vec<Frame>) -> Result<(), FeedError>
        requires { IsHeld self.old }
        ensures held { OnOk result (IsHeld self.new) }
        ensures ok { OnOk result (bytes_of self.new ≡ (framing_of (bytes_of self.old ++ piece.now)).rest) }
        ensures frames { OnOk result (frames_seen frames.new.items ≡ frames_seen frames.old.items ++ (framing_of (bytes_of self.old ++ piece.now)).frames) }
        ensures whole { OnOk result ((framing_of (bytes_of self.old ++ piece.now)).fault ≡ None) }
        ensures fault { (fault : Fault) → result ≡ Err (FeedError.Fault fault) →
            ((framing_of (bytes_of self.old ++ piece.now)).fault ≡ Some fault)
            × (frames_seen frames.new.items ≡ frames_seen frames.old.items ++ (framing_of (bytes_of self.old ++ piece.now)).frames) }
        ensures memory { (memory : Memory) → result ≡ Err (FeedError.Memory memory) →
            RanOut (bytes_of self.old ++ piece.now) (bytes_of self.new) (frames_seen frames.old.items) (frames_seen frames.new.items) }
    {
        let mut left = piece;
        while !left.is_empty() {
            left = self.step(left, frames)?;
        }
        Ok(())
    }

    /// Takes a front of the piece, and gives what is left of it.
    fn step<'a>(&mut self, piece: &'a [u8], frames: &mut Vec<Frame>) -> Result<&'a [u8], FeedError>
        requires held { IsHeld self.old }
        requires some { 0 < length piece.now }
        ensures held { OnOk result (IsHeld self.new) }
        ensures shorter { IfOk result (λ left. length left.now < length piece.now) }
        ensures moved { IfOk result (λ left. Reads (bytes_of self.old ++ piece.now) (bytes_of self.new ++ left.now) (frames_seen frames.old.items) (frames_seen frames.new.items)) }
        ensures stopped { IfErr result (λ error. Breaks (bytes_of self.old ++ piece.now) error) }
        ensures begun { OnErr result ((left : Bytes) × (bytes_of self.new ++ left ≡ bytes_of self.old ++ piece.now)) }
        ensures kept { IsErr result → frames_seen frames.new.items ≡ frames_seen frames.old.items }
    {
        match self.stage {
            Stage::Line => self.first_line(piece, frames),
            Stage::Header { count } => self.header(count, piece),
            Stage::Body { count, len } => self.body(count, len, piece, frames),
            Stage::Ending { count } => self.ending(count, piece, frames),
        }
    }

    /// The number of a short header that the piece begins with, and what is behind it, where no room is taken for a part.
    fn short_header<'a>(&self, mark: u8, piece: &'a [u8]) -> Option<(usize, &'a [u8])>
        ensures { MatchOption result (Unit {0}) (λ header. (self.now.part.items ≡ []) × (vec_capacity self.now.part ≡ 0) × IsShortHeader mark piece.now header.0 header.1.now) }
    {
        if self.part.capacity() > 0 {
            return None;
        }
        short_header(mark, piece)
    }

    // A short header that stands whole in the piece is read in place, any other line up to its LF.
    fn first_line<'a>(
        &mut self,
        piece: &'a [u8],
        frames: &mut Vec<Frame>,
    ) -> Result<&'a [u8], FeedError>
        requires held { IsHeld self.old }
        requires stage { self.old.stage ≡ stages.Line }
        requires some { 0 < length piece.now }
        ensures held { OnOk result (IsHeld self.new) }
        ensures shorter { IfOk result (λ left. length left.now < length piece.now) }
        ensures moved { IfOk result (λ left. Reads (bytes_of self.old ++ piece.now) (bytes_of self.new ++ left.now) (frames_seen frames.old.items) (frames_seen frames.new.items)) }
        ensures stopped { IfErr result (λ error. Breaks (bytes_of self.old ++ piece.now) error) }
        ensures begun { OnErr result ((left : Bytes) × (bytes_of self.new ++ left ≡ bytes_of self.old ++ piece.now)) }
        ensures kept { IsErr result → frames_seen frames.new.items ≡ frames_seen frames.old.items }
    {
        match self.short_header(b'*', piece) {
            Some((count, left)) if count > 0 => {
                self.stage = Stage::Header { count };
                Ok(left)
            }
            _ => self.any_first_line(piece, frames),
        }
    }

    fn any_first_line<'a>(
        &mut self,
        piece: &'a [u8],
        frames: &mut Vec<Frame>,
    ) -> Result<&'a [u8], FeedError>
        requires held { IsHeld self.old }
        requires stage { self.old.stage ≡ stages.Line }
        requires some { 0 < length piece.now }
        ensures held { OnOk result (IsHeld self.new) }
        ensures shorter { IfOk result (λ left. length left.now < length piece.now) }
        ensures moved { IfOk result (λ left. Reads (bytes_of self.old ++ piece.now) (bytes_of self.new ++ left.now) (frames_seen frames.old.items) (frames_seen frames.new.items)) }
        ensures stopped { IfErr result (λ error. Breaks (bytes_of self.old ++ piece.now) error) }
        ensures begun { OnErr result ((left : Bytes) × (bytes_of self.new ++ left ≡ bytes_of self.old ++ piece.now)) }
        ensures kept { IsErr result → frames_seen frames.new.items ≡ frames_seen frames.old.items }
    {
        let starred = begins_with(b'*', &self.part, piece);
        let (most, fault) = line_limit(starred);
        let Some(end) = line_end(most - self.part.len(), fault, piece)? else {
            self.part.extend_from_slice(piece)?;
            return Ok(&[]);
        };
        let mut held = mem::replace(&mut self.part, Vec::new(*self.words.allocator()));
        let line = joined(&mut held, &piece[..end])?;
        self.begin(starred, line, frames)?;
        Ok(&piece[end + 1..])
    }

    /// Takes a whole first line. Whatever count it says, no room is reserved for words.
    fn begin(
        &mut self,
        starred: bool,
        line: &[u8],
        frames: &mut Vec<Frame>,
    ) -> Result<(), FeedError>
        requires stage { self.old.stage ≡ stages.Line }
        requires words { self.old.words.items ≡ [] }
        requires part { self.old.part.items ≡ [] }
        requires starred { starred ≡ begins 42 line.now }
        requires line { IsLineFront (most_line starred) line.now }
        ensures held { OnOk result (IsHeld self.new) }
        ensures moved { OnOk result ((left : Bytes) → Reads (line.now ++ 10 ∷ left) (bytes_of self.new ++ left) (frames_seen frames.old.items) (frames_seen frames.new.items)) }
        ensures stopped { IfErr result (λ error. (left : Bytes) → Breaks (line.now ++ 10 ∷ left) error) }
        ensures begun { OnErr result (bytes_of self.new ≡ []) }
        ensures no_room { OnOk result (vec_capacity self.new.words ≡ vec_capacity self.old.words) }
        ensures kept { IsErr result → frames_seen frames.new.items ≡ frames_seen frames.old.items }
    {
        if starred {
            let count = count_of(line)?;
            if count > 0 {
                self.stage = Stage::Header { count };
            }
        } else {
            let words = inline_words(*self.words.allocator(), line)?;
            if !words.is_empty() {
                frames.push(Frame { words })?;
            }
        }
        Ok(())
    }

    // Takes a front of a bulk's header. Behind a whole one no room is reserved: only bytes that come take any.
    fn header<'a>(&mut self, count: usize, piece: &'a [u8]) -> Result<&'a [u8], FeedError>
        requires held { IsHeld self.old }
        requires stage { self.old.stage ≡ stages.Header count }
        requires some { 0 < length piece.now }
        ensures held { OnOk result (IsHeld self.new) }
        ensures shorter { IfOk result (λ left. length left.now < length piece.now) }
        ensures moved { IfOk result (λ left. bytes_of self.new ++ left.now ≡ bytes_of self.old ++ piece.now) }
        ensures stopped { IfErr result (λ error. Breaks (bytes_of self.old ++ piece.now) error) }
        ensures begun { OnErr result ((left : Bytes) × (bytes_of self.new ++ left ≡ bytes_of self.old ++ piece.now)) }
        ensures no_room { OnOk result (self.new.part.items ≡ [] → vec_capacity self.new.part ≡ 0) }
    {
        match self.short_header(b'$', piece) {
            Some((len, left)) => {
                self.stage = Stage::Body { count, len };
                Ok(left)
            }
            None => self.any_header(count, piece),
        }
    }

    fn any_header<'a>(&mut self, count: usize, piece: &'a [u8]) -> Result<&'a [u8], FeedError>
        requires held { IsHeld self.old }
        requires stage { self.old.stage ≡ stages.Header count }
        requires some { 0 < length piece.now }
        ensures held { OnOk result (IsHeld self.new) }
        ensures shorter { IfOk result (λ left. length left.now < length piece.now) }
        ensures moved { IfOk result (λ left. bytes_of self.new ++ left.now ≡ bytes_of self.old ++ piece.now) }
        ensures stopped { IfErr result (λ error. Breaks (bytes_of self.old ++ piece.now) error) }
        ensures begun { OnErr result ((left : Bytes) × (bytes_of self.new ++ left ≡ bytes_of self.old ++ piece.now)) }
        ensures no_room { OnOk result (self.new.part.items ≡ [] → vec_capacity self.new.part ≡ 0) }
    {
        if !begins_with(b'$', &self.part, piece) {
            return Err(FeedError::Fault(Fault::Dollar(piece[0])));
        }
        let Some(end) = line_end(MOST_HEADER_BYTES - self.part.len(), Fault::Length, piece)? else {
            self.part.extend_from_slice(piece)?;
            return Ok(&[]);
        };
        let mut held = mem::replace(&mut self.part, Vec::new(*self.words.allocator()));
        let len = length_of(joined(&mut held, &piece[..end])?)?;
        self.stage = Stage::Body { count, len };
        Ok(&piece[end + 1..])
    }

    // A body that stands whole in the piece is taken at once, with its CR and LF.
    fn body<'a>(
        &mut self,
        count: usize,
        len: usize,
        piece: &'a [u8],
        frames: &mut Vec<Frame>,
    ) -> Result<&'a [u8], FeedError>
        requires held { IsHeld self.old }
        requires stage { self.old.stage ≡ stages.Body count len }
        requires some { 0 < length piece.now }
        ensures held { OnOk result (IsHeld self.new) }
        ensures shorter { IfOk result (λ left. length left.now < length piece.now) }
        ensures moved { IfOk result (λ left. Reads (bytes_of self.old ++ piece.now) (bytes_of self.new ++ left.now) (frames_seen frames.old.items) (frames_seen frames.new.items)) }
        ensures stopped { IfErr result (λ error. Breaks (bytes_of self.old ++ piece.now) error) }
        ensures begun { OnErr result ((left : Bytes) × (bytes_of self.new ++ left ≡ bytes_of self.old ++ piece.now)) }
        ensures kept { IsErr result → frames_seen frames.new.items ≡ frames_seen frames.old.items }
    {
        if !self.part.is_empty() {
            return self.body_front(count, len, piece);
        }
        let Some((body, left)) = whole_body(len, piece) else {
            return self.body_front(count, len, piece);
        };
        let word = Blob::from_slice(*self.words.allocator(), body)?;
        self.add_word(count, word, frames)?;
        Ok(left)
    }

    fn body_front<'a>(
        &mut self,
        count: usize,
        len: usize,
        piece: &'a [u8],
    ) -> Result<&'a [u8], FeedError>
        requires held { IsHeld self.old }
        requires stage { self.old.stage ≡ stages.Body count len }
        requires some { 0 < length piece.now }
        ensures held { OnOk result (IsHeld self.new) }
        ensures shorter { IfOk result (λ left. length left.now < length piece.now) }
        ensures moved { IfOk result (λ left. bytes_of self.new ++ left.now ≡ bytes_of self.old ++ piece.now) }
        ensures stopped { IfErr result (λ error. Breaks (bytes_of self.old ++ piece.now) error) }
        ensures begun { OnErr result ((left : Bytes) × (bytes_of self.new ++ left ≡ bytes_of self.old ++ piece.now)) }
    {
        let missing = len - self.part.len();
        if missing > 0 {
            let (front, left) = piece.split_at(missing.min(piece.len()));
            self.part.extend_from_slice(front)?;
            return Ok(left);
        }
        if piece[0] != b'\r' {
            return Err(FeedError::Fault(Fault::LineEnd));
        }
        self.stage = Stage::Ending { count };
        Ok(&piece[1..])
    }

    fn ending<'a>(
        &mut self,
        count: usize,
        piece: &'a [u8],
        frames: &mut Vec<Frame>,
    ) -> Result<&'a [u8], FeedError>
        requires held { IsHeld self.old }
        requires stage { self.old.stage ≡ stages.Ending count }
        requires some { 0 < length piece.now }
        ensures held { OnOk result (IsHeld self.new) }
        ensures shorter { IfOk result (λ left. length left.now < length piece.now) }
        ensures moved { IfOk result (λ left. Reads (bytes_of self.old ++ piece.now) (bytes_of self.new ++ left.now) (frames_seen frames.old.items) (frames_seen frames.new.items)) }
        ensures stopped { IfErr result (λ error. Breaks (bytes_of self.old ++ piece.now) error) }
        ensures begun { OnErr result ((left : Bytes) × (bytes_of self.new ++ left ≡ bytes_of self.old ++ piece.now)) }
        ensures kept { IsErr result → frames_seen frames.new.items ≡ frames_seen frames.old.items }
    {
        if piece[0] != b'\n' {
            return Err(FeedError::Fault(Fault::LineEnd));
        }
        let word = mem::replace(&mut self.part, Vec::new(*self.words.allocator()));
        self.add_word(count, Blob::from(word), frames)?;
        Ok(&piece[1..])
    }

    /// Takes a whole word, and adds the request where it is the last one of it.
    ///
    /// # Errors
    ///
    /// Memory runs out: then the words before it are held, or nothing of the request.
    fn add_word(
        &mut self,
        count: usize,
        word: Blob,
        frames: &mut Vec<Frame>,
    ) -> Result<(), FeedError>
        requires lacks { LacksWords count self.old.words.items }
        requires part { self.old.part.items ≡ [] }
        requires short { length word ≤ most_word_bytes }
        ensures held { OnOk result (IsHeld self.new) }
        ensures moved { OnOk result ((left : Bytes) → Reads (bytes_at (stages.Ending count) self.old.words.items word ++ 10 ∷ left) (bytes_of self.new ++ left) (frames_seen frames.old.items) (frames_seen frames.new.items)) }
        ensures refused { IfErr result (λ error. error ≡ errors.Memory refusal) }
        ensures begun { OnErr result ((left : Bytes) × (bytes_of self.new ++ left ≡ array_front count self.old.words.items)) }
        ensures kept { IsErr result → frames_seen frames.new.items ≡ frames_seen frames.old.items }
    {
        self.stage = Stage::Header { count };
        self.words.push(word)?;
        if self.words.len() >= count {
            let alloc = *self.words.allocator();
            let words = mem::replace(&mut self.words, Vec::new(alloc));
            self.stage = Stage::Line;
            frames.push(Frame { words })?;
        }
        Ok(())
    }
}

/// The most bytes of a first line, and the fault of a longer one.
fn line_limit(starred: bool) -> (usize, Fault)
    ensures most { result.0 ≡ most_line starred }
    ensures fault { result.1 ≡ long_line starred }
{
    if starred {
        (MOST_HEADER_BYTES, Fault::Count)
    } else {
        (MOST_INLINE_BYTES, Fault::Inline)
    }
}
