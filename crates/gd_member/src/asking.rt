//! Who is there.

ghost use Rattle.std.specs.List.{flat_map};
ghost use Rattle.std.specs.Prelude.{◌≡◌, ◌≤◌, ◌++◌, IfOk, IsTrue, OnOk, length};
ghost use Rattle.gd_base.specs.Sites.{is_site};
ghost use Rattle.gd_lines.specs.Replies.{reply_text};
ghost use Rattle.gd_lines.specs.declared.reply.Reply.TheVariants as reply;
ghost use Rattle.gd_reference.specs.NodeRun.{note_said, parting_said, who_at, who_replies};
ghost use Rattle.gd_reference.specs.SlowSite.{SlowSite};
ghost use Rattle.gd_site.specs.Sites.{StandsFor};

use gd_answers::Said;
use gd_base::Note;
use gd_site::Site;
use gd_words::Reply;
use std::alloc::AllocError;

/// Says of each site its note, where it has made one, and at which count this one has parted from it, if it has, and
/// then how many lines these were. `AllocError` where memory ran out.
pub(crate) fn say_who(site: &Site, said: &mut Said) -> Result<(), AllocError>
    ensures { (slow : SlowSite) → StandsFor slow site.now
        → OnOk result (said.new ≡ said.old ++ flat_map reply_text (who_replies slow)) }
{
    let mut count = 0;
    for before in 0..site.sites() {
        let lines = say_site(site, before + 1, said)?;
        count += lines;
    }
    said.add(&Reply::End { count })
}

/// Says that of one site, and returns how many lines it was, at most two. `AllocError` where memory ran out.
fn say_site(site: &Site, number: u8, said: &mut Said) -> Result<u64, AllocError>
    requires { IsTrue (is_site site.now.peers.sites number) }
    ensures said { (slow : SlowSite) → StandsFor slow site.now
        → OnOk result (said.new ≡ said.old ++ flat_map reply_text (who_at slow number)) }
    ensures lines { (slow : SlowSite) → StandsFor slow site.now
        → IfOk result (λ lines. lines ≡ length (who_at slow number)) }
    ensures few { IfOk result (λ lines. lines ≤ 2) }
{
    let noted = say_note(site, number, said)?;
    let parted = say_parting(site, number, said)?;
    Ok(noted + parted)
}

/// Says the note of a site that has made one, and returns how many lines that was. `AllocError` where memory ran out.
fn say_note(site: &Site, number: u8, said: &mut Said) -> Result<u64, AllocError>
    requires { IsTrue (is_site site.now.peers.sites number) }
    ensures said { (slow : SlowSite) → StandsFor slow site.now
        → OnOk result (said.new ≡ said.old ++ flat_map reply_text (note_said slow number)) }
    ensures lines { (slow : SlowSite) → StandsFor slow site.now
        → IfOk result (λ lines. lines ≡ length (note_said slow number)) }
    ensures few { IfOk result (λ lines. lines ≤ 1) }
{
    let note = site.note(number);
    if note.number == 0 {
        return Ok(0);
    }
    add_note(number, note, said)?;
    Ok(1)
}

/// Says that note of that site. `AllocError` where memory ran out.
fn add_note(site: u8, note: Note, said: &mut Said) -> Result<(), AllocError>
    ensures { OnOk result (said.new ≡ said.old ++ reply_text (reply.Who site note)) }
{
    said.add(&Reply::Who { site, note })
}

/// Says that the site has parted from that one, if it has, and returns how many lines that was. `AllocError` where
/// memory ran out.
fn say_parting(site: &Site, number: u8, said: &mut Said) -> Result<u64, AllocError>
    requires { IsTrue (is_site site.now.peers.sites number) }
    ensures said { (slow : SlowSite) → StandsFor slow site.now
        → OnOk result (said.new ≡ said.old ++ flat_map reply_text (parting_said slow number)) }
    ensures lines { (slow : SlowSite) → StandsFor slow site.now
        → IfOk result (λ lines. lines ≡ length (parting_said slow number)) }
    ensures few { IfOk result (λ lines. lines ≤ 1) }
{
    let Some(count) = site.parted(number) else {
        return Ok(0);
    };
    said.add(&Reply::Parted {
        site: number,
        count,
    })?;
    Ok(1)
}
