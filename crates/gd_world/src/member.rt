use gd_site::Site;
use gd_takeback::TakeBack;

/// One member of a session: its site, and what takes its last edits back.
#[derive(Drop)]
pub(crate) struct Member {
    pub(crate) site: Site,
    pub(crate) backs: TakeBack,
}
