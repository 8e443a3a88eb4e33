//! What a reader of lines gives.

/// What a reader of lines gives.
#[derive(Clone, Copy)]
pub enum Next {
    /// A line that a line feed ended.
    Line,
    /// The last line, without a line feed.
    Last,
    /// A line of more than 1,024 octets, which was skipped up to its line feed.
    Long,
    /// A line of more than 1,024 octets, which was skipped up to the end of the input.
    LongLast,
    /// The end of the input.
    End,
    /// The line with the first octet past the limit.
    Limit,
    /// A read failed.
    Failed,
}

/// Whether there is more of the input.
#[derive(Clone, Copy)]
pub enum Fill {
    /// There is at least one octet.
    More,
    /// No: it is at its end.
    Over,
    /// Unknown: a read failed.
    NotRead,
}
