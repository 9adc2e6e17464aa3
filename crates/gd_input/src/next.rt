/// What a reader of lines came to.
#[derive(Drop)]
pub enum Next<T> {
    /// A line, as it was read. The last one has no LF, and nothing more is to be read then.
    Line { line: T, is_last: bool },
    /// A line that has more than 65,536 bytes.
    TooLong,
    /// The end of the input.
    Finished,
}
