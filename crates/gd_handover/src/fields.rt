//! The fields at the front of snapshots. The first fault of each is returned, `Short` at the end of all bytes where it
//! isn't whole.

ghost use Rattle.std.specs.Prelude.{◌≡◌, ◌≤◌, IfOk};
ghost use Rattle.gd_base.specs.Results.{Gives};
ghost use Rattle.gd_base.specs.declared.ranges.TheConstants.{SITES};
ghost use Rattle.gd_grammar.specs.FrameBytes.{frame_version_at};
ghost use Rattle.gd_grammar.specs.HeaderBytes.{magic_at, sites_at};
ghost use Rattle.gd_snapshots.specs.SnapshotBytes.{snapshot_magic, head_at, known_at};

use crate::head::Head;
use gd_base::{FieldFault, FieldWhy, SITES};
use gd_snapshots::Known;
use gd_wire::Bytes;

/// GDOS.
pub(crate) const MAGIC: u32 = 0x4744_4F53;

pub(crate) const VERSION: u8 = 3;

/// GDOS, the version 3, the session, the site, and the number of sites.
#[tactic(auto, unfolding(gd_snapshots::specs::SnapshotBytes::head_at))]
pub fn head<'a>(bytes: &mut Bytes<'a>) -> Result<Head, FieldFault>
    ensures { Gives (λ head. (head, bytes.new)) result (head_at bytes.old) }
{
    magic(bytes)?;
    version(bytes)?;
    let session = bytes.word()?;
    let site = bytes.site()?;
    let sites = sites(bytes, site)?;
    Ok(Head::new(session, site, sites))
}

#[tactic(auto, unfolding(gd_grammar::specs::HeaderBytes::magic_at, gd_grammar::specs::Fields::word_at))]
fn magic<'a>(bytes: &mut Bytes<'a>) -> Result<(), FieldFault>
    ensures { Gives (λ x. (snapshot_magic, bytes.new)) result (magic_at snapshot_magic bytes.old) }
{
    let fault = bytes.fault(FieldWhy::Magic);
    if bytes.word()? != MAGIC {
        return Err(fault);
    }
    Ok(())
}

#[tactic(auto, unfolding(gd_grammar::specs::FrameBytes::frame_version_at))]
fn version<'a>(bytes: &mut Bytes<'a>) -> Result<(), FieldFault>
    ensures { Gives (λ x. (3, bytes.new)) result (frame_version_at bytes.old) }
{
    let fault = bytes.fault(FieldWhy::Version);
    if bytes.byte()? != VERSION {
        return Err(fault);
    }
    Ok(())
}

/// How many sites a session has that has this one.
#[tactic(auto, unfolding(gd_grammar::specs::HeaderBytes::sites_at))]
fn sites<'a>(bytes: &mut Bytes<'a>, site: u8) -> Result<u8, FieldFault>
    ensures read { Gives (λ x. (x, bytes.new)) result (sites_at site bytes.old) }
    ensures above { IfOk result (λ sites. site ≤ sites) }
    ensures below { IfOk result (λ sites. sites ≤ SITES) }
{
    let fault = bytes.fault(FieldWhy::Field);
    let sites = bytes.byte()?;
    if sites < site || sites > SITES {
        return Err(fault);
    }
    Ok(sites)
}

/// How many events of a site were held, and the site's sure clock.
#[tactic(auto, unfolding(gd_snapshots::specs::SnapshotBytes::known_at))]
pub fn known<'a>(bytes: &mut Bytes<'a>) -> Result<Known, FieldFault>
    ensures { Gives (λ known. (known, bytes.new)) result (known_at bytes.old) }
{
    let count = bytes.half()?;
    let sure = bytes.six()?;
    Ok(Known { count, sure })
}
