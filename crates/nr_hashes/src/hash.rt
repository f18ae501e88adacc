// A hash: what the commands store, read and take out, field by field.
ghost use Rattle.std.specs.Prelude.{◌≡◌, ◌↔◌, ◌<◌, ◌^◌, not, IsTrue, IfOk, OnOk, OnErr};
ghost use Rattle.std.specs.Option.{option_map};
ghost use Rattle.std.specs.FinMap as map;

use crate::form::Form;
use crate::pairs::{Fields, Pairs, Values};
use nr_blob::{Blob, Memory};
use std::alloc::Global;
use std::hash::RandomState;
use std::marker::Model;

/// A hash, as a key holds it. It is seen as a finite map from fields to values. At most 512 fields, none of them nor their values longer than
/// 64 bytes, stand in one block; more or longer ones make a table of such blocks, and a table stays one. To drop it is linear in its fields.
#[derive(Debug, Drop)]
pub struct Hash {
    // Blocks and copies are made with it.
    alloc: Global,
    form: Form,
}

impl Model for Hash {
    ghost use Rattle.std.specs.FinMap as map;
    ghost use Rattle.nr_model.specs.Hashes.{Hash, coded_hash};

    ghost Value = { Hash };

    ghost coded = { coded_hash };

    ghost use Rattle.nr_packs.specs.Orders.{AreInOrder};
    ghost use Rattle.nr_hashes.specs.Forms.{entries_of};

    ghost view = { λ hash. map.from_sorted (entries_of hash.form) };

    ghost invariant = { λ hash. AreInOrder (entries_of hash.form) };
}

impl Hash {
    /// The empty hash. It takes no memory.
    pub fn new(alloc: Global) -> Hash
        ensures { result ≡ map.empty }
    {
        Hash {
            alloc,
            form: Form::new(alloc),
        }
    }

    /// How many fields. Constant.
    pub fn len(&self) -> usize
        ensures len { result ≡ map.len self.now }
        ensures small { result < 2 ^ 63 }
    {
        self.form.len()
    }

    pub fn is_empty(&self) -> bool
        ensures { IsTrue result ↔ (self.now ≡ map.empty) }
    {
        self.form.len() == 0
    }

    /// Puts a value at a field, in the place of the one that was there, and says whether the field is new. Linear in the bytes of a block;
    /// where a block becomes a table, in those of all, and the table hashes by these keys. Where memory runs out nothing is changed.
    pub fn insert(&mut self, keys: RandomState, field: &Blob, value: &[u8]) -> Result<bool, Memory>
        ensures new { IfOk result (λ is_new. is_new ≡ not (map.contains_key self.old field.now)) }
        ensures ok { OnOk result (self.new ≡ map.insert self.old field.now value.now) }
        ensures err { OnErr result (self.new ≡ self.old) }
    {
        let is_new = self.form.insert(self.alloc, keys, field, value)?;
        Ok(is_new)
    }

    /// The value at a field. Linear in the bytes of a block.
    pub fn get(&self, field: &Blob) -> Option<&[u8]>
        ensures { option_map (λ value. value.now) result ≡ map.get self.now field.now }
    {
        self.form.get(field)
    }

    /// Whether a field is there. Costs what `get` does.
    pub fn contains(&self, field: &Blob) -> bool
        ensures { result ≡ map.contains_key self.now field.now }
    {
        self.get(field).is_some()
    }

    /// Takes a field out, and says whether it was there. Linear in the bytes of a block.
    pub fn remove(&mut self, field: &Blob) -> bool
        ensures there { result ≡ map.contains_key self.old field.now }
        ensures removed { self.new ≡ map.remove self.old field.now }
    {
        self.form.remove(field)
    }

    /// The fields with their values, by the fields' byte order. Those of one block are lent as they lie; those of a table are gathered and sorted, in
    /// O(n log n) and memory for 40 bytes each, which may be refused.
    pub fn pairs(&self) -> Result<Pairs<'_>, Memory>
        ensures { IfOk result (λ pairs. pairs ≡ map.entries self.now) }
    {
        let pairs = self.form.pairs()?;
        Ok(pairs)
    }

    /// The fields, in byte order. Costs what `pairs` does.
    pub fn fields(&self) -> Result<Fields<'_>, Memory>
        ensures { IfOk result (λ fields. fields ≡ map.keys self.now) }
    {
        Ok(Fields::of(self.pairs()?))
    }

    /// The values, by their fields' byte order. Costs what `pairs` does.
    pub fn values(&self) -> Result<Values<'_>, Memory>
        ensures { IfOk result (λ values. values ≡ map.values self.now) }
    {
        Ok(Values::of(self.pairs()?))
    }

    /// The same fields and values once more. Linear in their bytes.
    pub fn copy(&self) -> Result<Hash, Memory>
        ensures { IfOk result (λ copied. copied ≡ self.now) }
    {
        Ok(Hash {
            alloc: self.alloc,
            form: self.form.copy(self.alloc)?,
        })
    }
}
