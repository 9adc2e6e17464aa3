//! Whether every site of a churn holds every event.

ghost use Rattle.std.specs.Prelude.{◌≡◌, ◌≤◌, length};
ghost use Rattle.std.specs.List.{list_all};
ghost use Rattle.gd_reference.specs.World.{World as SlowWorld};
ghost use Rattle.gd_world.specs.Standing.{StandsFor};
ghost use Rattle.gd_worlds.specs.Churn.{all_hold_all, churn_sites, holds_all_of};

use crate::world::World;

/// Whether each site holds as many events of each one as that one made.
pub(crate) fn all_hold_all(world: &World) -> bool
    requires { length world.now.members ≡ 4 }
    ensures { (w : SlowWorld) → StandsFor w world.now → result ≡ all_hold_all w }
{
    holds_all(world, 1) && holds_all(world, 2) && holds_all(world, 3) && holds_all(world, 4)
}

/// The same of one site.
fn holds_all(world: &World, site: u8) -> bool
    requires four { length world.now.members ≡ 4 }
    requires from { 1 ≤ site }
    requires to { site ≤ 4 }
    ensures { (w : SlowWorld) → StandsFor w world.now
        → result ≡ list_all (holds_all_of w site) churn_sites }
{
    holds_all_of(world, site, 1)
        && holds_all_of(world, site, 2)
        && holds_all_of(world, site, 3)
        && holds_all_of(world, site, 4)
}

/// Whether a site holds as many events of another one as that one made.
fn holds_all_of(world: &World, site: u8, maker: u8) -> bool
    requires four { length world.now.members ≡ 4 }
    requires from { 1 ≤ site }
    requires to { site ≤ 4 }
    requires maker_from { 1 ≤ maker }
    requires maker_to { maker ≤ 4 }
    ensures { (w : SlowWorld) → StandsFor w world.now → result ≡ holds_all_of w site maker }
{
    world.site(site).count(maker) == world.site(maker).made()
}
