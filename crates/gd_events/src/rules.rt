//! The rules that a sound event keeps.
ghost use Rattle.std.specs.Prelude.{◌≡◌, ◌&&◌, None, map};
ghost use Rattle.std.specs.List.{list_all};
ghost use Rattle.gd_base.specs.Contents.{is_content};
ghost use Rattle.gd_base.specs.Looks.{is_look};
ghost use Rattle.gd_base.specs.Ranks.{given_at};
ghost use Rattle.gd_base.specs.Stamps as stamps;
ghost use Rattle.gd_events.specs.Sound.{is_shift_in_range, is_link_in_range, is_box_in_range};
ghost use Rattle.gd_events.specs.Sound.{is_object_in_range, is_of_kind, are_ties_in_range, is_in_range, has_members};
ghost use Rattle.gd_events.specs.Sound.{is_content_before, is_link_before, is_member_before, is_tie_before};
ghost use Rattle.gd_events.specs.Sound.{are_ties_before};
ghost use Rattle.gd_events.specs.Sound.{are_ends_before, is_between, is_object_before, names_before, is_above};
ghost use Rattle.gd_events.specs.Sound.{rise_above, has_rising_ids};

use crate::op::Op;
use crate::packed_looks::PackedLooks;
use gd_base::{
    Content, Ends, Height, Link, Member, Object, PLACE_LIMIT, Rank, SIZE_LIMIT, Stamp, Text, Tie,
    is_within, map_content,
};

/// Whether the numbers of the operation are in their ranges.
pub(crate) fn is_in_range(op: &Op) -> bool
    ensures { result ≡ is_in_range op.now }
{
    match op {
        Op::Create { x, y, w, h, .. } => is_box_in_range(*x, *y, *w, *h),
        Op::Delete { .. } | Op::Connect { .. } => true,
        Op::Set { content, .. } => is_content_in_range(content),
        Op::Group { members } => are_shifts_in_range(members.as_slice()),
        Op::Restore { object, ties, .. } => {
            is_object_in_range(object.get()) && are_ties_in_range(ties.as_slice())
        }
        Op::Disband { ties, .. } => are_ties_in_range(ties.as_slice()),
    }
}

fn is_content_in_range(content: &Content<Text, PackedLooks, Height>) -> bool
    ensures { result ≡ is_content content.now }
{
    let numbers = map_content!(content, _label => (), looks => looks.looks(), rank => *rank);
    numbers.is_in_range()
}

fn is_box_in_range(x: i32, y: i32, w: i32, h: i32) -> bool
    ensures { result ≡ is_box_in_range x y w h }
{
    is_within(PLACE_LIMIT, x)
        && is_within(PLACE_LIMIT, y)
        && is_within(SIZE_LIMIT, w)
        && is_within(SIZE_LIMIT, h)
}

fn are_shifts_in_range(members: &[Member]) -> bool
    ensures { result ≡ list_all is_shift_in_range members.now }
{
    members.iter().all(|member| is_within(PLACE_LIMIT, member.dx)
        && is_within(PLACE_LIMIT, member.dy))
}

fn is_object_in_range(object: &Object) -> bool
    ensures { result ≡ is_object_in_range object.now }
{
    is_box_in_range(object.x, object.y, object.w, object.h) && are_others_in_range(object)
}

fn are_others_in_range(object: &Object) -> bool
    ensures { result ≡ (is_look object.now.look
        && (is_of_kind object.now && is_link_in_range object.now.link)) }
{
    object.look.is_in_range() && is_of_kind(object) && is_link_in_range(object.link)
}

/// Whether the label and the ends are what the kind of the object asks for.
fn is_of_kind(object: &Object) -> bool
    ensures { result ≡ is_of_kind object.now }
{
    object.kind.has_label(&object.label) && object.kind.has_ends(object.ends)
}

fn is_link_in_range(link: Option<Link>) -> bool
    ensures { result ≡ is_link_in_range link }
{
    match link {
        Some(link) => is_within(PLACE_LIMIT, link.dx) && is_within(PLACE_LIMIT, link.dy),
        None => true,
    }
}

fn are_ties_in_range(ties: &[Tie]) -> bool
    ensures { result ≡ are_ties_in_range ties.now }
{
    ties.iter().all(|tie| is_link_in_range(tie.link))
}

/// Whether a group has 2 members, what is disbanded a tie, and what is restored with ties is a group.
pub(crate) fn has_members(op: &Op) -> bool
    ensures { result ≡ has_members op.now }
{
    match op {
        Op::Group { members } => members.as_slice().len() >= 2,
        Op::Disband { ties, .. } => ties.as_slice().len() >= 1,
        Op::Restore { object, ties, .. } => ties.as_slice().len() <= object.get().kind.most_ties(),
        _ => true,
    }
}

/// Whether the ids that the operation names, and the stamps of its ranks, are before the stamp.
pub(crate) fn names_before(stamp: Stamp, op: &Op) -> bool
    ensures { result ≡ names_before stamp op.now }
{
    match op {
        Op::Create { .. } => true,
        Op::Delete { id } => id.is_before(stamp),
        Op::Set { id, content } => id.is_before(stamp) && is_content_before(stamp, content),
        Op::Group { members } => are_members_before(stamp, members.as_slice()),
        Op::Connect { ends, .. } => is_between(stamp, *ends),
        Op::Restore { id, object, ties } => {
            is_object_before(stamp, *id, object.get()) && are_ties_before(stamp, ties.as_slice())
        }
        Op::Disband { id, ties } => {
            id.is_before(stamp) && are_ties_before(stamp, ties.as_slice())
        }
    }
}

fn is_content_before(stamp: Stamp, content: &Content<Text, PackedLooks, Height>) -> bool
    ensures { result ≡ is_content_before stamp content.now }
{
    match content {
        Content::ToRank(Height::At(rank)) => given_at(*rank).is_before(stamp),
        Content::ToEnds(ends) => are_ends_before(stamp, *ends),
        _ => true,
    }
}

/// Whether both ends are before the stamp, where there are some.
fn are_ends_before(stamp: Stamp, ends: Option<Ends>) -> bool
    ensures { result ≡ are_ends_before stamp ends }
{
    match ends {
        Some(ends) => is_between(stamp, ends),
        None => true,
    }
}

fn is_between(stamp: Stamp, ends: Ends) -> bool
    ensures { result ≡ is_between stamp ends }
{
    ends.from.is_before(stamp) && ends.to.is_before(stamp)
}

/// The stamp of the event that gave the rank.
fn given_at(rank: Rank) -> Stamp
    ensures { result ≡ given_at rank }
{
    match rank {
        Rank::Low(stamp) | Rank::High(stamp) => stamp,
    }
}

fn are_members_before(stamp: Stamp, members: &[Member]) -> bool
    ensures { result ≡ list_all (is_member_before stamp) members.now }
{
    members.iter().all(|member| member.id.is_before(stamp))
}

fn is_object_before(stamp: Stamp, id: Stamp, object: &Object) -> bool
    ensures { result ≡ is_object_before stamp id object.now }
{
    id.is_before(stamp)
        && given_at(object.rank).is_before(stamp)
        && are_ends_before(stamp, object.ends)
        && is_link_before(stamp, id, object.link)
}

/// Whether the object of that id is linked to a greater one that is before the stamp, if it is linked.
fn is_link_before(stamp: Stamp, id: Stamp, link: Option<Link>) -> bool
    ensures { result ≡ is_link_before stamp id link }
{
    match link {
        Some(link) => id.is_before(link.parent) && link.parent.is_before(stamp),
        None => true,
    }
}

fn are_ties_before(stamp: Stamp, ties: &[Tie]) -> bool
    ensures { result ≡ are_ties_before stamp ties.now }
{
    ties.iter().all(|tie| tie.id.is_before(stamp) && is_link_before(stamp, tie.id, tie.link))
}

/// Whether the ids of members and of ties rise strictly.
pub(crate) fn has_rising_ids(op: &Op) -> bool
    ensures { result ≡ has_rising_ids op.now }
{
    match op {
        Op::Group { members } => are_rising(members.as_slice()),
        Op::Restore { ties, .. } | Op::Disband { ties, .. } => are_rising(ties.as_slice()),
        _ => true,
    }
}

/// What names an object.
trait Naming {
    ghost name: { Self → stamps.Stamp };

    /// The id of the object that it names.
    fn id(&self) -> Stamp
        ensures { result ≡ name self.now };
}

impl Naming for Member {
    ghost name = { λ m. m.id };

    fn id(&self) -> Stamp {
        self.id
    }
}

impl Naming for Tie {
    ghost name = { λ t. t.id };

    fn id(&self) -> Stamp {
        self.id
    }
}

#[tactic(auto, unfolding(crate::specs::Sound::rise_above))]
fn are_rising<N: Naming>(items: &[N]) -> bool
    ensures { result ≡ rise_above None (map N.name items.now) }
{
    let mut last = None;
    for item in items {
        if !is_above(last, item.id()) {
            return false;
        }
        last = Some(item.id());
    }
    true
}

fn is_above(last: Option<Stamp>, id: Stamp) -> bool
    ensures { result ≡ is_above last id }
{
    match last {
        None => true,
        Some(last) => last.is_before(id),
    }
}
