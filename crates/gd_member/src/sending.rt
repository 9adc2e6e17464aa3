//! Frames for the other sites.

ghost use Rattle.gd_stable.specs.Peers.{IsOther};
ghost use Rattle.std.specs.Prelude.{true, false, ◌≡◌, ◌<◌, List};
ghost use Rattle.gd_events.specs.Events.{Event};
ghost use Rattle.gd_member.specs.Sending.{FrameIs};
ghost use Rattle.gd_reference.specs.SlowSite.{SlowSite};

use crate::member::Member;
use gd_site::Site;
use gd_wire::FrameBytes;

/// Why there is no frame. The first of them that applies is given, in this order.
#[derive(Clone, Copy, Debug, PartialEq, Eq)]
pub enum SendFault {
    /// It is no other site of the session.
    NoSuchSite,
    /// The caller's journal doesn't have all events, and what isn't kept isn't told.
    Unwritten,
}

impl Member {
    ghost use Rattle.gd_member.specs.Members.{IsLive};
    ghost use Rattle.gd_member.specs.Standing.{Stands};

    /// Writes the frame for another site that begins behind so many of the own events, or behind those that the site
    /// has acknowledged, where these are more, in place of the bytes that were there. Returns how many of the own
    /// events the site has once it took that frame and all those before: while these are fewer than `made`, a further
    /// frame begins there.
    ///
    /// `NoSuchSite` and `Unwritten` are decided in this order, and then the bytes stay. It takes no memory.
    pub fn write_frame(&self, to: u8, behind: u16, out: &mut FrameBytes) -> Result<u16, SendFault>
        requires { IsLive self.now }
        ensures { (slow : SlowSite) (written : List Event) → Stands slow written self.now
            → FrameIs slow written to behind result out.old out.new }
    {
        if !is_other(&self.site, to) {
            return Err(SendFault::NoSuchSite);
        }
        if !self.unwritten.is_empty() {
            return Err(SendFault::Unwritten);
        }
        let acked = self.site.acked(to);
        let start = behind.max(acked);
        Ok(self.site.write_frame_behind(to, start, out))
    }
}

/// Whether it is another site of the session.
fn is_other(site: &Site, to: u8) -> bool
    ensures yes { result ≡ true → IsOther site.now.peers to }
    ensures no { result ≡ false → IsOther site.now.peers to → ⊥ }
{
    if to < 1 {
        return false;
    }
    if to > site.sites() {
        return false;
    }
    if to == site.me() {
        return false;
    }
    true
}
