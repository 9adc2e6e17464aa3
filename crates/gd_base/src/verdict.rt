use crate::refusal::FrameFault;

/// What becomes of a frame at a site.
#[derive(Clone, Copy, Debug, PartialEq, Eq)]
pub enum Verdict {
    /// It isn't for this site, or says what can't be. Nothing changes.
    Refused { fault: FrameFault },
    /// It shows that the site and its sender hold different events of the sender, of which each has `count`. The site
    /// keeps what it has, notes that, and takes nothing of the sender from then on.
    Parted { count: u16 },
    /// Nothing: the two have parted before, and that is said.
    Passed,
    /// It is taken.
    Taken,
}
