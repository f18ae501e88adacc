// The faults of a stream of requests, as the definitions and the reader both name them.

/// Why bytes are no RESP2 request. A fault gets one error reply and ends its connection.
#[derive(Clone, Copy, Debug, PartialEq, Eq)]
pub enum Fault {
    /// The line behind a `*` is no number of at most 1,048,576.
    Count,
    /// The line behind a `$` is no number from 0 to 536,870,912.
    Length,
    /// This byte stands where a bulk's `$` has to stand.
    Dollar(u8),
    /// An inline line has more than 65,536 bytes.
    Inline,
    /// CR LF is missing after a header line or after a bulk's bytes.
    LineEnd,
    /// An inline line holds a quotation mark.
    Quotes,
}
