// Laws and worked rows: whole numbers and their texts.
ghost use Rattle.std.specs.Prelude.{◌≡◌, ℤ, Some};
ghost use Rattle.nr_model.specs.Bytes.{Bytes};
ghost use Rattle.nr_model.specs.Numbers.{IsIntText, int_value};
ghost use Rattle.nr_model.specs.Rows.Integers.{IntegerRows};

/// The law of integers' texts: the value that is read from a text is the integer whose text it is.
fn integer_texts()
    ensures found { (text : Bytes) (z : ℤ) → int_value text ≡ Some z → IsIntText text z }
    ensures only { (text : Bytes) (z : ℤ) → IsIntText text z → int_value text ≡ Some z }
{}

/// Some texts with the integers that they are, and texts that are none.
fn integer_rows()
    ensures { IntegerRows }
{}
