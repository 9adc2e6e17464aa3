/// How the drawing of a log is printed.
#[derive(Clone, Copy, Debug, PartialEq, Eq)]
pub enum Format {
    /// A line for each shown object, and their number.
    Text,
    /// The shown objects, as one line of JSON.
    Json,
    /// The events of the log, as one line of JSON.
    Events,
}
