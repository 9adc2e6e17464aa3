//! What becomes of an edit that groups objects.

ghost use Rattle.std.specs.Prelude.{◌≡◌, ◌≤◌, ◌<◌, ◌+◌, List, Some, None, length, map, option_map, if◌then◌else◌};
ghost use Rattle.std.specs.List.{list_all, position, position_or_len};
ghost use Rattle.std.specs.FinMap as map_of;
ghost use Rattle.gd_base.specs.Insertions.{inserted_by};
ghost use Rattle.gd_base.specs.Stamps as stamps;
ghost use Rattle.gd_base.specs.Stamps.{is_before};
ghost use Rattle.gd_base.specs.declared.ranges.TheConstants.{SESSION_EVENTS, MOST_MEMBERS};
ghost use Rattle.gd_events.specs.Sound.{is_shift_in_range};
ghost use Rattle.gd_model.specs.Board.{listed};
ghost use Rattle.gd_slots.specs.Slots.{board_of};
ghost use Rattle.gd_reference.specs.Judging.{Target, target, targets, with_targets, grouped, are_apart, is_other};
ghost use Rattle.gd_judging.specs.Faults.{EditIs};
ghost use Rattle.gd_judging.specs.Targets.{told, as_named, as_member, group_of, rising};

use crate::faults::EditFault;
use crate::judging::{in_range, target};
use arrayvec::ArrayVec;
use gd_base::{EditRefusal, MOST_MEMBERS, Member, Members, Stamp};
use gd_canvas::Canvas;
use gd_events::{MemberList, Op};
use gd_view::Shown;
use std::alloc::Global;

/// An object that a new group names, with what stands above it.
#[derive(Clone, Copy, Default)]
struct Named {
    id: Stamp,
    /// Whether it stands in no group.
    is_free: bool,
    dx: i64,
    dy: i64,
}

impl Named {
    fn new(id: Stamp, shown: &Shown) -> Self
        ensures { result ≡ as_named (id, told shown.now) }
    {
        Named {
            id,
            is_free: shown.parent.is_none(),
            dx: shown.above.x,
            dy: shown.above.y,
        }
    }
}

/// The group of the objects of these ids, or why there is none.
pub(crate) fn group(alloc: Global, canvas: &Canvas, ids: &[Stamp]) -> Result<Op, EditFault>
    requires few { map_of.len (board_of canvas.now) ≤ SESSION_EVENTS }
    requires members { length ids.now ≤ MOST_MEMBERS }
    ensures { EditIs
        (with_targets (targets (target (listed (board_of canvas.now))) ids.now)) result }
{
    let members = members(canvas, ids)?;
    let members = MemberList::new(alloc, &members)?;
    Ok(Op::Group { members })
}

/// The members of the group of the objects of these ids, or why it is refused.
fn members(canvas: &Canvas, ids: &[Stamp]) -> Result<Members, EditRefusal>
    requires few { map_of.len (board_of canvas.now) ≤ SESSION_EVENTS }
    requires members { length ids.now ≤ MOST_MEMBERS }
    ensures { group_of result
        ≡ with_targets (targets (target (listed (board_of canvas.now))) ids.now) }
{
    match all_named(canvas, ids) {
        Some(named) => grouped(named.as_slice()),
        None => Err(EditRefusal::NoObject),
    }
}

/// The objects of these ids, where all of them are shown.
fn all_named(canvas: &Canvas, ids: &[Stamp]) -> Option<ArrayVec<Named, MOST_MEMBERS>>
    requires few { map_of.len (board_of canvas.now) ≤ SESSION_EVENTS }
    requires members { length ids.now ≤ MOST_MEMBERS }
    ensures { option_map (λ l. l.items) result
        ≡ option_map (map as_named) (targets (target (listed (board_of canvas.now))) ids.now) }
{
    let mut all = ArrayVec::new();
    for id in ids {
        let shown = target(canvas, *id)?;
        all.push(Named::new(*id, &shown));
    }
    Some(all)
}

/// The members of the group of objects that are shown, or why it is refused.
fn grouped(named: &[Named]) -> Result<Members, EditRefusal>
    requires { length named.now ≤ MOST_MEMBERS }
    ensures { (ts : List (stamps.Stamp × Target)) → map as_named ts ≡ named.now
        → group_of result ≡ grouped ts }
{
    if !are_apart(named) {
        return Err(EditRefusal::SameMember);
    }
    if !are_free(named) {
        return Err(EditRefusal::NotTop);
    }
    match rising(named) {
        Some(members) => Ok(members),
        None => Err(EditRefusal::TooFar),
    }
}

/// Whether none is named twice.
#[tactic(auto, unfolding(gd_reference::specs::Judging::are_apart))]
fn are_apart(named: &[Named]) -> bool
    ensures { result ≡ are_apart (map (λ n. n.id) named.now) }
{
    for k in 0..named.len() {
        if !is_new(named[k].id, &named[k + 1..]) {
            return false;
        }
    }
    true
}

fn is_new(id: Stamp, others: &[Named]) -> bool
    ensures { result ≡ list_all (λ n. is_other id n.id) others.now }
{
    others.iter().all(|other| !id.is_same(other.id))
}

fn are_free(named: &[Named]) -> bool
    ensures { result ≡ list_all (λ n. n.is_free) named.now }
{
    named.iter().all(|object| object.is_free)
}

/// The members by rising id, where the shifts of all of them are in their range.
fn rising(named: &[Named]) -> Option<Members>
    requires { length named.now ≤ MOST_MEMBERS }
    ensures { result ≡ rising (map as_member named.now) }
{
    let mut sorted = ArrayVec::new();
    for place in (0..named.len()).rev() {
        let member = member(&named[place])?;
        put_in(&mut sorted, member);
    }
    Some(members_of(sorted.as_slice()))
}

/// The object with what stands above it as its shift, where that is in its range.
fn member(named: &Named) -> Option<Member>
    ensures { result ≡ (if is_shift_in_range (as_member named.now)
        then Some (as_member named.now) else None) }
{
    let (dx, dy) = in_range(i128::from(named.dx), i128::from(named.dy))?;
    Some(Member {
        id: named.id,
        dx,
        dy,
    })
}

/// Puts the member in front of the first with a greater id.
fn put_in(members: &mut ArrayVec<Member, MOST_MEMBERS>, member: Member)
    requires { length members.old.items < MOST_MEMBERS }
    ensures items { members.new.items ≡ inserted_by (λ n. n.id) members.old.items member }
    ensures more { length members.new.items ≡ length members.old.items + 1 }
{
    let place = place_of(members.as_slice(), member.id);
    members.insert(place, member);
}

#[tactic(auto, using(crate::proofs::Rising::or_end))]
fn place_of(members: &[Member], id: Stamp) -> usize
    ensures place { result ≡ position_or_len (λ m. is_before id m.id) members.now }
    ensures within { result ≤ length members.now }
{
    first_above(members, id).unwrap_or(members.len())
}

fn first_above(members: &[Member], id: Stamp) -> Option<usize>
    ensures { result ≡ position (λ m. is_before id m.id) members.now }
{
    members.iter().position(|member| id.is_before(member.id))
}

fn members_of(sorted: &[Member]) -> Members
    requires { length sorted.now ≤ MOST_MEMBERS }
    ensures { result ≡ sorted.now }
{
    let mut members = Members::new();
    for member in sorted {
        members.push(*member);
    }
    members
}
