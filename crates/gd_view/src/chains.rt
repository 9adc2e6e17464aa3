//! What stands above one object, by its chain of links.

ghost use Rattle.std.specs.Prelude.{◌≡◌, ◌≤◌, ◌+◌, ◌+ℤ◌, ◌≤ℤ◌, pos, neg_ℤ, length, None, Some, IfSome, option_copied};
ghost use Rattle.std.specs.Prelude.{option_map, if◌then◌else◌};
ghost use Rattle.gd_base.specs.declared.ranges.TheConstants.{SESSION_EVENTS};
ghost use Rattle.gd_model.specs.Board.{listed};
ghost use Rattle.gd_model.specs.Shown.{above, above_in};
ghost use Rattle.gd_slots.specs.Slots.{board_of};
ghost use Rattle.gd_view.specs.Chains.{first_parent, group_in, link_limit, parent_by, sum_limit, with_link, Within};

use crate::OBJECTS;
use gd_base::{Link, Object, Stamp};
use gd_canvas::Canvas;
use gd_model::Above;

/// What stands above an object of that id and link. Ids rise along a chain, so it has at most as many links as there
/// are objects.
pub(crate) fn above(canvas: &Canvas, id: Stamp, link: Option<Link>) -> Option<Above>
    requires { length (listed (board_of canvas.now)) ≤ SESSION_EVENTS }
    ensures above { result ≡ above (listed (board_of canvas.now)) id link }
    ensures within { IfSome result (λ a. Within SESSION_EVENTS a) }
{
    above_within(canvas, id, link, OBJECTS)
}

/// The same along at most `most` links.
fn above_within(canvas: &Canvas, id: Stamp, link: Option<Link>, most: u32) -> Option<Above>
    requires { most ≤ SESSION_EVENTS }
    ensures above { result ≡ above_in most (listed (board_of canvas.now)) id link }
    ensures within { IfSome result (λ a. Within SESSION_EVENTS a) }
{
    let mut sum = Above {
        parent: None,
        dx: 0,
        dy: 0,
    };
    let mut below = id;
    let mut next = link;
    for turn in 0..most {
        let Some(link) = next else {
            return Some(sum);
        };
        let Some(group) = group_at(canvas, below, &link) else {
            return None;
        };
        let parent = first_parent(sum.parent, parent_by(&link, group));
        sum = with_link(&sum, parent, &link, group, turn);
        below = link.parent;
        next = group.link;
    }
    if next.is_none() { Some(sum) } else { None }
}

/// The group that a link leads to, where it is there and has a greater id.
#[tactic(auto, using(crate::proofs::Rulesets::drawn))]
pub(crate) fn group_at<'a>(canvas: &'a Canvas, below: Stamp, link: &Link) -> Option<&'a Object>
    ensures { option_copied result
        ≡ group_in (listed (board_of canvas.now)) below link.now }
{
    if below.is_before(link.parent) {
        canvas.get(link.parent)
    } else {
        None
    }
}

/// The sum with one link more, and that parent.
pub(crate) fn with_link(
    sum: &Above,
    parent: Option<Stamp>,
    link: &Link,
    group: &Object,
    turn: u32,
) -> Above
    requires few { turn ≤ SESSION_EVENTS }
    requires within { Within turn sum.now }
    ensures sum { result ≡ with_link sum.now parent link.now group.now }
    ensures within { Within (1 + turn) result }
{
    let dx = add(sum.dx, link.dx, group.x);
    let dy = add(sum.dy, link.dy, group.y);
    Above { parent, dx, dy }
}

/// The parent that a link gives, where its group isn't dissolved.
pub(crate) fn parent_by(link: &Link, group: &Object) -> Option<Stamp>
    ensures { result ≡ parent_by link.now group.now }
{
    if group.dissolved {
        None
    } else {
        Some(link.parent)
    }
}

/// The parent that comes first along a chain.
pub(crate) fn first_parent(parent: Option<Stamp>, further: Option<Stamp>) -> Option<Stamp>
    ensures { result ≡ first_parent parent further }
{
    match parent {
        Some(parent) => Some(parent),
        None => further,
    }
}

/// The sum with one shift and one place more.
pub(crate) fn add(sum: i64, shift: i32, place: i32) -> i64
    requires low { neg_ℤ (pos sum_limit) ≤ℤ sum }
    requires high { sum ≤ℤ pos sum_limit }
    ensures sum { result ≡ sum +ℤ (shift +ℤ place) }
    ensures low { sum ≤ℤ (result +ℤ pos link_limit) }
    ensures high { result ≤ℤ (sum +ℤ pos link_limit) }
{
    sum + (i64::from(shift) + i64::from(place))
}
