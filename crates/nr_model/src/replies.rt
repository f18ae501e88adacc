// The bytes of replies: worked rows.

ghost use Rattle.nr_model.specs.Rows.Replies.{ReplyRows};

/// The bytes of some replies, by computation.
fn reply_rows()
    ensures { ReplyRows }
{}
