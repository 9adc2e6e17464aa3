//! What is printed of a churn at its end.

ghost use Rattle.std.specs.Prelude.{◌≡◌, ◌≤◌, ◌++◌, ◌∷◌, [], length, map, IfOk, OnOk, bytes_eq};
ghost use Rattle.std.specs.List.{concat};
ghost use Rattle.gd_lines.specs.Replies.{reply_text};
ghost use Rattle.gd_lines.specs.declared.reply.Reply.TheVariants as reply;
ghost use Rattle.gd_reference.specs.DrawingText.{item_replies};
ghost use Rattle.gd_reference.specs.World.{World as SlowWorld};
ghost use Rattle.gd_site.specs.Sites.{StandsFor as SiteStandsFor};
ghost use Rattle.gd_world.specs.Standing.{StandsFor};
ghost use Rattle.gd_worlds.specs.Churn.{is_same, shown_at, site_reply, summary};

use crate::churning::counting::Counts;
use crate::replies::Replies;
use crate::world::World;
use gd_base::Item;
use gd_site::Site;
use gd_words::{AsText, Reply};
use std::alloc::{AllocError, Global};

/// How many sites a churn has.
const SITES: u8 = 4;

/// Where each site stands, what was counted, and whether all sites show the same. `AllocError` where memory ran out.
pub(crate) fn summary(world: &World, counts: &Counts) -> Result<Replies, AllocError>
    requires { length world.now.members ≡ 4 }
    ensures { (w : SlowWorld) → StandsFor w world.now
        → IfOk result (λ replies. replies ≡ summary w counts.now) }
{
    let mut replies = standings(world)?;
    replies.push(counts.churned())?;
    replies.push(counts.arrivals())?;
    let yes = show_the_same(world)?;
    replies.push(Reply::Same { yes })?;
    Ok(replies)
}

/// Where each site stands.
fn standings(world: &World) -> Result<Replies, AllocError>
    requires { length world.now.members ≡ 4 }
    ensures { (w : SlowWorld) → StandsFor w world.now
        → IfOk result (λ replies. replies ≡ map (site_reply w) (1 ∷ 2 ∷ 3 ∷ 4 ∷ [])) }
{
    let mut replies = Replies::new(world.alloc());
    for before in 0..SITES {
        let site = before + 1;
        let status = world.site(site).status();
        replies.push(Reply::SiteLine { site, status })?;
    }
    Ok(replies)
}

/// Whether all sites show the same bytes.
fn show_the_same(world: &World) -> Result<bool, AllocError>
    requires { length world.now.members ≡ 4 }
    ensures { (w : SlowWorld) → StandsFor w world.now
        → IfOk result (λ yes. yes ≡ is_same w) }
{
    let first = shown(world, 1)?;
    let second = shows(world, 2, first.as_slice())?;
    let third = shows(world, 3, first.as_slice())?;
    let fourth = shows(world, 4, first.as_slice())?;
    Ok(second && third && fourth)
}

/// Whether a site shows these bytes.
fn shows(world: &World, site: u8, bytes: &[u8]) -> Result<bool, AllocError>
    requires from { 1 ≤ site }
    requires to { site ≤ length world.now.members }
    ensures { (w : SlowWorld) → StandsFor w world.now
        → IfOk result (λ yes. yes ≡ bytes_eq bytes.now (shown_at w site)) }
{
    let shown = shown(world, site)?;
    Ok(bytes == shown.as_slice())
}

/// The bytes that a site shows.
fn shown(world: &World, site: u8) -> Result<Vec<u8>, AllocError>
    requires from { 1 ≤ site }
    requires to { site ≤ length world.now.members }
    ensures { (w : SlowWorld) → StandsFor w world.now
        → IfOk result (λ bytes. bytes.items ≡ shown_at w site) }
{
    let picture = world.site(site).picture()?;
    text_of(world.alloc(), picture.as_slice())
}

/// The text of a drawing in printed order, in memory.
fn text_of(alloc: Global, items: &[Item]) -> Result<Vec<u8>, AllocError>
    ensures { IfOk result
        (λ text. text.items ≡ concat (map reply_text (item_replies items.now))) }
{
    let mut text = Vec::new(alloc);
    for item in items {
        put_item(&mut text, item)?;
    }
    put_end(&mut text, items.len() as u64)?;
    Ok(text)
}

/// Puts the line of an item last. `AllocError` where memory ran out.
fn put_item(text: &mut Vec<u8>, item: &Item) -> Result<(), AllocError>
    ensures { OnOk result
        (text.new.items ≡ text.old.items ++ reply_text (reply.Item item.now)) }
{
    let item = item.share()?;
    put(text, &Reply::Item { item })
}

/// Puts last how many there are. `AllocError` where memory ran out.
fn put_end(text: &mut Vec<u8>, count: u64) -> Result<(), AllocError>
    ensures { OnOk result (text.new.items ≡ text.old.items ++ reply_text (reply.End count)) }
{
    put(text, &Reply::End { count })
}

fn put(text: &mut Vec<u8>, reply: &Reply) -> Result<(), AllocError>
    ensures { OnOk result (text.new.items ≡ text.old.items ++ reply_text reply.now) }
{
    text.extend_from_slice(reply.text().as_slice())?;
    Ok(())
}

impl World {
    /// How many mails were ever sent.
    pub(crate) fn mails(&self) -> usize
        ensures { result ≡ length self.now.mail }
    {
        self.mail.len()
    }

    /// The site of that number.
    pub(crate) fn site(&self, site: u8) -> &Site
        requires from { 1 ≤ site }
        requires to { site ≤ length self.now.members }
        ensures stands { (w : SlowWorld) → StandsFor w self.now
            → SiteStandsFor (w.at site) result.now }
        ensures sites { result.now.peers.sites ≡ length self.now.members }
    {
        &self.members[usize::from(site) - 1].site
    }
}
