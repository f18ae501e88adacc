// Words as errors quote them: their first bytes, on one line.
ghost use Rattle.std.specs.Prelude.{◌≡◌, ◌++◌, take, OnOk, OnErr};
ghost use Rattle.nr_model.specs.Bytes.{quoted, on_one_line};

use crate::memory::Memory;

/// The most bytes of a word that an error quotes.
const MOST_QUOTED_BYTES: usize = 128;

/// Puts at most the first 128 bytes of a word behind a text, with CR and LF as spaces. Where memory runs out the text holds some of them.
pub fn push_quoted(text: &mut Vec<u8>, word: &[u8]) -> Result<(), Memory>
    ensures { OnOk result (text.new.items ≡ text.old.items ++ quoted word.now) }
{
    for byte in shown(word) {
        text.push(on_one_line(*byte))?;
    }
    Ok(())
}

fn shown(word: &[u8]) -> &[u8]
    ensures { result.now ≡ take 128 word.now }
{
    if word.len() <= MOST_QUOTED_BYTES {
        word
    } else {
        &word[..MOST_QUOTED_BYTES]
    }
}

/// A byte as it is shown on one line: CR and LF as spaces.
pub fn on_one_line(byte: u8) -> u8
    ensures { result ≡ on_one_line byte }
{
    match byte {
        b'\r' | b'\n' => b' ',
        _ => byte,
    }
}
