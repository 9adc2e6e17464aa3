//! What the caller's journal doesn't have yet.

ghost use Rattle.std.specs.Prelude.{◌≡◌, ◌++◌, List};
ghost use Rattle.gd_base.specs.declared.version.Version.TheVariants as version;
ghost use Rattle.gd_events.specs.Events.{Event};
ghost use Rattle.gd_grammar.specs.Closing.{gate_place};
ghost use Rattle.gd_grammar.specs.Drawings.{drawings};
ghost use Rattle.gd_member.specs.Unwritten.{piece_of};
ghost use Rattle.gd_reference.specs.SlowSite.{SlowSite};

use crate::member::Member;

impl Member {
    ghost use Rattle.gd_member.specs.Members.{IsLive};
    ghost use Rattle.gd_member.specs.Standing.{Stands};

    /// The place in the caller's journal at which `unwritten` is put: that of the journal's closing gate.
    pub fn place(&self) -> u64
        ensures { (slow : SlowSite) (written : List Event) → Stands slow written self.now
            → result ≡ gate_place drawings version.Three written }
    {
        self.unwritten.place()
    }

    /// The bytes of the events that the caller's journal doesn't have yet, each behind an open gate, and a closed gate;
    /// nothing where there are none. They are put over the journal's closing gate.
    ///
    /// A journal that is to outlive a crash takes all of them but the first, which is the open gate, at the place
    /// behind it, and is synced; then it takes the first at its place, and is synced.
    pub fn unwritten(&self) -> &[u8]
        ensures { (slow : SlowSite) (written others : List Event) → Stands slow written self.now
            → slow.held ≡ written ++ others → result.now ≡ piece_of written others }
    {
        self.unwritten.bytes()
    }

    /// The caller's journal has the unwritten events now.
    pub fn written(&mut self)
        requires { IsLive self.old }
        ensures { (slow : SlowSite) (written : List Event) → Stands slow written self.old
            → Stands slow slow.held self.new }
    {
        self.unwritten.close();
    }
}
