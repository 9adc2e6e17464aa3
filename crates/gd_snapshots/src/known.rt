//! What a snapshot says of each site.

/// How many events of a site were held, and the site's sure clock: what wasn't held of that site's events lies above
/// it.
#[derive(Clone, Copy, Debug, Default, PartialEq, Eq)]
pub struct Known {
    pub count: u16,
    pub sure: u64,
}
