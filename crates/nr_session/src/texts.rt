// Replies of texts that are made: the errors of requests and faults, and what a subscribed connection is answered. They touch memory alone.
ghost use Rattle.std.specs.Prelude.{◌≡◌, ◌++◌, ◌∷◌, true, IfOk, OnOk, codes};
ghost use Rattle.nr_model.specs.Bytes.{on_one_line};
ghost use Rattle.nr_model.specs.Replies as replies;
ghost use Rattle.nr_model.specs.Commands.Texts.{unknown_command, wrong_arity};
ghost use Rattle.nr_model.specs.Modes as modes;
ghost use Rattle.nr_model.specs.Modes.{first_word};
ghost use Rattle.nr_model.specs.Requests.{fault_text, fault_reason};
ghost use Rattle.nr_model.specs.Commands.{row_of};
ghost use Rattle.nr_resp.specs.Seen.{reply_of};

use nr_blob::{Blob, Memory, on_one_line, push_quoted};
use nr_model::command::Command;
use nr_model::fault::Fault;
use nr_resp::{Frame, Reply, name};
use std::alloc::Global;

/// The error of a name that is no command's.
pub(crate) fn unknown(alloc: Global, frame: &Frame) -> Result<Reply, Memory>
    ensures { IfOk result (λ reply. reply_of reply ≡ replies.Error (unknown_command (first_word frame.now.words.items))) }
{
    let mut text = Vec::from_slice(alloc, b"ERR unknown command '")?;
    if let Some(word) = frame.words.first() {
        push_quoted(&mut text, word.bytes())?;
    }
    text.extend_from_slice(b"'")?;
    Ok(Reply::Error(Blob::from(text)))
}

/// The error of too few or too many words.
pub(crate) fn wrong_count(alloc: Global, command: Command) -> Result<Reply, Memory>
    ensures { IfOk result (λ reply. reply_of reply ≡ replies.Error (wrong_arity (row_of command).name)) }
{
    let mut text = Vec::from_slice(alloc, b"ERR wrong number of arguments for '")?;
    text.extend_from_slice(name(command).as_bytes())?;
    text.extend_from_slice(b"' command")?;
    Ok(Reply::Error(Blob::from(text)))
}

/// The error of a command that a connection with subscriptions may not send.
pub(crate) fn not_while_subscribed(alloc: Global, command: Command) -> Result<Reply, Memory>
    ensures { IfOk result (λ reply. reply_of reply ≡ replies.Error (modes.not_while_subscribed (row_of command).name)) }
{
    let mut text = Vec::from_slice(alloc, b"ERR Can't execute '")?;
    text.extend_from_slice(name(command).as_bytes())?;
    text.extend_from_slice(b"': not allowed while subscribed")?;
    Ok(Reply::Error(Blob::from(text)))
}

/// The error of a command that a transaction may not hold.
pub(crate) fn not_in_transaction(alloc: Global, command: Command) -> Result<Reply, Memory>
    ensures { IfOk result (λ reply. reply_of reply ≡ replies.Error (modes.not_in_transaction (row_of command).name)) }
{
    let mut text = Vec::from_slice(alloc, b"ERR ")?;
    text.extend_from_slice(name(command).as_bytes())?;
    text.extend_from_slice(b" is not allowed inside a transaction")?;
    Ok(Reply::Error(Blob::from(text)))
}

/// What PING is answered where there are subscriptions; these words are behind it.
pub(crate) fn subscribed_ping(alloc: Global, words: &[Blob]) -> Result<Reply, Memory>
    ensures { IfOk result (λ reply. reply_of reply ≡ modes.subscribed_ping words.now) }
{
    let message = match words {
        [] => Blob::from(Vec::new(alloc)),
        [message] => message.copy()?,
        _ => {
            return Ok(Reply::FixedError("ERR wrong number of arguments for 'ping' command"));
        }
    };
    let mut parts = Vec::with_capacity(alloc, 2)?;
    parts.push(Reply::Bulk(Blob::from_slice(alloc, b"pong")?))?;
    parts.push(Reply::Bulk(message))?;
    Ok(Reply::array(parts))
}

/// The last reply of a connection that sent no requests.
pub(crate) fn fault_reply(alloc: Global, fault: Fault) -> Result<Reply, Memory>
    ensures { IfOk result (λ reply. reply_of reply ≡ replies.Error (fault_text fault)) }
{
    let mut text = Vec::from_slice(alloc, b"ERR Protocol error: ")?;
    push_reason(&mut text, fault)?;
    Ok(Reply::Error(Blob::from(text)))
}

fn push_reason(text: &mut Vec<u8>, fault: Fault) -> Result<(), Memory>
    ensures { OnOk result (text.new.items ≡ text.old.items ++ fault_reason fault) }
{
    match fault {
        Fault::Count => push(text, b"invalid multibulk length"),
        Fault::Length => push(text, b"invalid bulk length"),
        Fault::Dollar(byte) => push_unexpected(text, byte),
        Fault::Inline => push(text, b"too big inline request"),
        Fault::LineEnd => push(text, b"missing CR LF"),
        Fault::Quotes => push(text, b"quotes in inline request"),
    }
}

fn push(text: &mut Vec<u8>, more: &[u8]) -> Result<(), Memory>
    ensures { OnOk result (text.new.items ≡ text.old.items ++ more.now) }
{
    text.extend_from_slice(more)?;
    Ok(())
}

fn push_unexpected(text: &mut Vec<u8>, byte: u8) -> Result<(), Memory>
    ensures { OnOk result (text.new.items ≡ text.old.items ++ (codes "expected '$', got '" ++ on_one_line byte ∷ codes "'")) }
{
    push(text, b"expected '$', got '")?;
    text.push(on_one_line(byte))?;
    push(text, b"'")?;
    Ok(())
}
