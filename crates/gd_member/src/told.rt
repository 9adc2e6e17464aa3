/// What came of a typed line.
#[derive(Clone, Copy, Debug, PartialEq, Eq)]
pub enum Told {
    /// It was done, or answered.
    Done,
    /// It is no line, or what it asks for was refused. Then the member is as before.
    Refused,
    /// It asks for nothing that a member does by itself: it is `show`, `poll`, `begin`, `end` or `quit`, or blank.
    /// Nothing was done or said.
    Other,
}
