//! What a snapshot says of its sites, and what its ids and kept events are judged by.

ghost use Rattle.std.specs.Prelude.{◌≡◌, ◌≤◌, ◌*◌, ◌&&◌, nat_le, nat_lt, length};
ghost use Rattle.gd_base.specs.declared.ranges.TheConstants.{SITES};
ghost use Rattle.gd_events.specs.Sound.{is_above};
ghost use Rattle.gd_snapshots.specs.Snapshots.{is_bounded, least_sure, total};

use gd_base::Stamp;
use gd_events::Event;
use gd_snapshots::Known;

/// How many events of all sites were held.
pub fn total(known: &[Known]) -> u32
    requires { length known.now ≤ SITES }
    ensures value { result ≡ total known.now }
    ensures few { result ≤ 65535 * length known.now }
{
    let mut all: u32 = 0;
    'each: for of in known {
        all += u32::from(of.count);
    }
    all
}

/// The least of the sure clocks, and 0 of no site.
#[tactic(auto, unfolding(gd_snapshots::specs::Snapshots::least_sure))]
pub fn least_sure(known: &[Known]) -> u64
    ensures { result ≡ least_sure known.now }
{
    match known {
        [] => 0,
        [of] => of.sure,
        [of, rest @ ..] => of.sure.min(least_sure(rest)),
    }
}

/// Whether the id, or the stamp, is above the last one, if there is one.
pub fn is_above(last: Option<Stamp>, id: Stamp) -> bool
    ensures { result ≡ is_above last id }
{
    match last {
        None => true,
        Some(last) => last.is_before(id),
    }
}

/// Whether the event is one of those that are held of its site, and lies above the line and no higher than its site's
/// sure clock. The line is the least of the sure clocks.
pub fn is_bounded(known: &[Known], line: u64, event: &Event) -> bool
    requires { line ≡ least_sure known.now }
    ensures { result ≡ is_bounded known.now event.now }
{
    let stamp = event.stamp();
    match known.get(stamp.site() as usize - 1) {
        Some(of) => is_within(*of, line, stamp.clock(), event.number()),
        None => false,
    }
}

/// Whether an event with that number and clock is one of those of a site of which that is known, where the line is
/// that.
fn is_within(of: Known, line: u64, clock: u64, number: u16) -> bool
    ensures { result ≡ (nat_le number of.count && (nat_lt line clock && nat_le clock of.sure)) }
{
    number <= of.count && line < clock && clock <= of.sure
}
