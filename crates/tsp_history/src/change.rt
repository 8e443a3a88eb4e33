//! What a line does to a place that is sought.

/// What a line does to the place that a search looks for, from the newest line back: the last Close
/// or the open exchange of a port (`rounds`), or one of its sends (`sends`).
#[derive(Clone, Copy)]
pub(crate) enum Change {
    /// It leaves it as it was.
    Keeps,
    /// From it on there is none.
    Ends,
    /// It is the place.
    Begins,
}
