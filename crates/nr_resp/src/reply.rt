// A reply, written as the RESP2 specification spells it, straight into its connection's buffer.
ghost use Rattle.std.specs.Prelude.{◌≡◌, ◌++◌, ◌∷◌, ◌^◌, ◌<◌, ℕ, List, OnOk, OnErr, IfOk, decimal, map, length};
ghost use Rattle.nr_model.specs.Replies as model;
ghost use Rattle.nr_model.specs.Replies.{line, reply_text};
ghost use Rattle.std.specs.Fmt.{signed_decimal};
ghost use Rattle.nr_resp.specs.Seen.{reply_of};

use nr_blob::{Blob, Memory, int_text};

/// A reply, as the RESP2 specification has them.
#[derive(Debug, Drop)]
pub enum Reply {
    /// A line of text, `+text`.
    Simple(&'static str),
    /// An error, `-text`. The text has no CR and no LF.
    Error(Blob),
    /// An error whose text is always the same. It takes no memory.
    FixedError(&'static str),
    /// A number, `:number`.
    Int(i64),
    /// Bytes behind their length.
    Bulk(Blob),
    /// `$-1`: no bytes.
    NullBulk,
    /// Replies behind their count.
    Array(Vec<Reply>),
    /// `*-1`: no array.
    NullArray,
}

impl Reply {
    /// An array of replies, in their order.
    pub fn array(replies: Vec<Reply>) -> Reply
        ensures { reply_of result ≡ model.array (map reply_of replies.items) }
    {
        Reply::Array(replies)
    }

    /// Appends the reply's bytes, or nothing where memory runs out.
    pub fn write(&self, out: &mut Vec<u8>) -> Result<(), Memory>
        ensures ok { OnOk result (out.new.items ≡ out.old.items ++ reply_text (reply_of self.now)) }
        ensures err { OnErr result (out.new.items ≡ out.old.items) }
    {
        let start = out.len();
        let written = append(self, out);
        if written.is_err() {
            out.truncate(start);
        }
        written
    }

    /// The same reply once more.
    #[cycle(copy)]
    pub fn copy(&self) -> Result<Reply, Memory>
        ensures { IfOk result (λ reply. reply_of reply ≡ reply_of self.now) }
    {
        match self {
            Reply::Simple(text) => Ok(Reply::Simple(text)),
            Reply::Error(text) => Ok(Reply::Error(text.copy()?)),
            Reply::FixedError(text) => Ok(Reply::FixedError(text)),
            Reply::Int(number) => Ok(Reply::Int(*number)),
            Reply::Bulk(value) => Ok(Reply::Bulk(value.copy()?)),
            Reply::NullBulk => Ok(Reply::NullBulk),
            Reply::Array(inner) => Ok(Reply::Array(copies(inner)?)),
            Reply::NullArray => Ok(Reply::NullArray),
        }
    }
}

/// Appends a bulk of these bytes, or nothing where memory runs out.
pub(crate) fn write_bulk(bytes: &[u8], out: &mut Vec<u8>) -> Result<(), Memory>
    ensures ok { OnOk result (out.new.items ≡ out.old.items ++ reply_text (model.Bulk bytes.now)) }
    ensures err { OnErr result (out.new.items ≡ out.old.items) }
{
    let before = out.len();
    let written = append_bulk(bytes, out);
    if written.is_err() {
        out.truncate(before);
    }
    written
}

// The same replies once more.
#[cycle(copy)]
fn copies(replies: &Vec<Reply>) -> Result<Vec<Reply>, Memory>
    ensures { IfOk result (λ copied. map reply_of copied.items ≡ map reply_of replies.now.items) }
{
    let mut copied = Vec::with_capacity(*replies.allocator(), replies.len())?;
    for each in replies {
        copied.push(each.copy()?)?;
    }
    Ok(copied)
}

// Appends the reply's bytes. Where memory runs out, some of them may stand behind what was there.
fn append(reply: &Reply, out: &mut Vec<u8>) -> Result<(), Memory>
    ensures ok { OnOk result (out.new.items ≡ out.old.items ++ reply_text (reply_of reply.now)) }
    ensures front { (rest : List ℕ) × (out.new.items ≡ out.old.items ++ rest) }
{
    match reply {
        Reply::Simple(text) => append_line(b'+', text.as_bytes(), out),
        Reply::Error(text) => append_line(b'-', text.bytes(), out),
        Reply::FixedError(text) => append_line(b'-', text.as_bytes(), out),
        Reply::Int(number) => append_number(b':', *number, out),
        Reply::Bulk(value) => append_bulk(value.bytes(), out),
        Reply::NullBulk => append_line(b'$', b"-1", out),
        Reply::Array(inner) => {
            append_number(b'*', inner.len() as i64, out)?;
            for each in inner {
                append(each, out)?;
            }
            Ok(())
        }
        Reply::NullArray => append_line(b'*', b"-1", out),
    }
}

// The text and CR LF.
fn append_text(text: &[u8], out: &mut Vec<u8>) -> Result<(), Memory>
    ensures ok { OnOk result (out.new.items ≡ out.old.items ++ line text.now) }
    ensures front { (rest : List ℕ) × (out.new.items ≡ out.old.items ++ rest) }
{
    out.extend_from_slice(text)?;
    out.extend_from_slice(b"\r\n")?;
    Ok(())
}

// A line of a mark and a text.
pub(crate) fn append_line(mark: u8, text: &[u8], out: &mut Vec<u8>) -> Result<(), Memory>
    ensures ok { OnOk result (out.new.items ≡ out.old.items ++ mark ∷ line text.now) }
    ensures front { (rest : List ℕ) × (out.new.items ≡ out.old.items ++ rest) }
{
    out.push(mark)?;
    append_text(text, out)
}

// A line of a mark and a number.
pub(crate) fn append_number(mark: u8, number: i64, out: &mut Vec<u8>) -> Result<(), Memory>
    ensures ok { OnOk result (out.new.items ≡ out.old.items ++ mark ∷ line (signed_decimal number)) }
    ensures front { (rest : List ℕ) × (out.new.items ≡ out.old.items ++ rest) }
{
    out.push(mark)?;
    int_text(number, out)?;
    append_text(b"", out)
}

// A bulk: the line of its length, and the line of its bytes.
pub(crate) fn append_bulk(text: &[u8], out: &mut Vec<u8>) -> Result<(), Memory>
    ensures ok { OnOk result (out.new.items ≡ out.old.items ++ 36 ∷ line (decimal (length text.now)) ++ line text.now) }
    ensures front { (rest : List ℕ) × (out.new.items ≡ out.old.items ++ rest) }
{
    append_number(b'$', text.len() as i64, out)?;
    append_text(text, out)
}
