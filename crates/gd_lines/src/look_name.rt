/// The parts of a look, as lines name them.
#[derive(Clone, Copy, Debug, PartialEq, Eq)]
pub enum LookName {
    Stroke,
    Fill,
    Width,
    Dash,
    Heads,
    Round,
    Opacity,
    Size,
    Align,
}
