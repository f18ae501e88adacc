// The options of LPOS.
ghost use Rattle.std.specs.Prelude.{◌≡◌, ◌<◌, ◌≤◌, ◌∷◌, length, Ok, IfOk, IfErr};
ghost use Rattle.nr_model.specs.Commands.Reading.{fault, read_options};
ghost use Rattle.nr_model.specs.Commands.Lists as lists;
ghost use Rattle.nr_list_commands.specs.Options.{valued};

use nr_blob::Blob;
use nr_model::refused::Refused;
use nr_resp::words::{integer, is_word, natural};
use std::marker::Model;

/// Which matches LPOS answers.
#[derive(Clone, Copy)]
pub(crate) struct PlaceOptions {
    /// The first of them, from the end where it is below 0.
    pub(crate) rank: i64,
    /// How many, where that is given; 0 is all.
    pub(crate) count: Option<usize>,
    /// How many items are looked at; 0 is all.
    pub(crate) most: usize,
}

impl Model for PlaceOptions {
    ghost use Rattle.nr_model.specs.Commands.Lists as lists;

    ghost Value = { lists.PlaceOptions };

    ghost view = { λ options. record { rank = options.rank; count = options.count; most = options.most } };

    ghost inverse = { λ options. record { rank = options.rank; count = options.count; most = options.most } };
}

/// The options that words say.
pub(crate) fn place_options(words: &[Blob]) -> Result<PlaceOptions, Refused>
    ensures options { IfOk result (λ options. read_options lists.place_option lists.first_place words.now ≡ Ok options) }
    ensures refused { IfErr result (λ why. read_options lists.place_option lists.first_place words.now ≡ fault why) }
{
    let mut options = PlaceOptions {
        rank: 1,
        count: None,
        most: 0,
    };
    let mut left = words;
    while let Some((word, behind)) = left.split_first() {
        left = options.read(word, behind)?;
    }
    Ok(options)
}

impl PlaceOptions {
    // Reads the option that a word begins, and gives the words behind it.
    fn read<'k>(&mut self, word: &Blob, behind: &'k [Blob]) -> Result<&'k [Blob], Refused>
        ensures read { IfOk result (λ left. read_options lists.place_option self.old (word.now ∷ behind.now) ≡ read_options lists.place_option self.new left.now) }
        ensures refused { IfErr result (λ why. read_options lists.place_option self.old (word.now ∷ behind.now) ≡ fault why) }
        ensures fewer { IfOk result (λ left. length left.now ≤ length behind.now) }
    {
        let Some((value, left)) = behind.split_first() else {
            return Err(Refused::Syntax);
        };
        *self = self.with(word, value)?;
        Ok(left)
    }

    // With the option of this word and its value.
    fn with(self, word: &Blob, value: &Blob) -> Result<PlaceOptions, Refused>
        ensures options { IfOk result (λ options. valued (lists.place_option self word.now) value.now ≡ Ok options) }
        ensures refused { IfErr result (λ why. valued (lists.place_option self word.now) value.now ≡ fault why) }
    {
        if is_word("rank", word) {
            return Ok(PlaceOptions {
                rank: rank(value)?,
                ..self
            });
        }
        if is_word("count", word) {
            let count = natural(Refused::Negative, value)?;
            return Ok(PlaceOptions {
                count: Some(count),
                ..self
            });
        }
        if is_word("maxlen", word) {
            let most = natural(Refused::Negative, value)?;
            return Ok(PlaceOptions { most, ..self });
        }
        Err(Refused::Syntax)
    }
}

// The rank that a word spells, which is not 0.
fn rank(word: &Blob) -> Result<i64, Refused>
    ensures rank { IfOk result (λ n. lists.rank word.now ≡ Ok n) }
    ensures refused { IfErr result (λ why. lists.rank word.now ≡ fault why) }
{
    rank_of(integer(word)?)
}

fn rank_of(n: i64) -> Result<i64, Refused>
    ensures rank { IfOk result (λ rank. lists.rank_of n ≡ Ok rank) }
    ensures refused { IfErr result (λ why. lists.rank_of n ≡ fault why) }
{
    if n == 0 {
        return Err(Refused::RankZero);
    }
    Ok(n)
}
