//! The items in printed order, by a walk that keeps its own stack.

ghost use Rattle.std.specs.Prelude.{◌≡◌, ◌++◌, Option, IsTrue, IfOk, OnOk, option_to_list};
ghost use Rattle.gd_base.specs.Stamps as stamps;
ghost use Rattle.gd_model.specs.Shown.{climbs, in_printed_order};
ghost use Rattle.gd_view.specs.Walk.{first_from, nexts_from, first_in};

use crate::firsts::Firsts;
use gd_base::Item;
use std::alloc::{AllocError, Global};

/// The items by their places: the first of each group, and behind each item the next of its group.
#[derive(Drop)]
struct Links {
    firsts: Firsts,
    next: Vec<Option<usize>>,
}

/// Goes from the last item to the first and pushes each in front of its group's list, so the former first is its next.
fn link_up(alloc: Global, items: &[Item]) -> Result<Links, AllocError>
    ensures first { IfOk result (λ l. (q : Option stamps.Stamp)
        → first_in l.firsts q ≡ first_from 0 q items.now) }
    ensures next { IfOk result (λ l. l.next.items ≡ nexts_from 0 items.now) }
{
    let mut firsts = Firsts::new(alloc);
    let mut next = Vec::with_capacity(alloc, items.len())?;
    for place in (0..items.len()).rev() {
        let later = firsts.put(items[place].parent, place)?;
        next.push(later)?;
    }
    next.reverse();
    Ok(Links { firsts, next })
}

fn open(stack: &mut Vec<usize>, place: Option<usize>) -> Result<(), AllocError>
    ensures { OnOk result (stack.new.items ≡ stack.old.items ++ option_to_list place) }
{
    if let Some(place) = place {
        stack.push(place)?;
    }
    Ok(())
}

/// Copies of the items, each followed by its own. The stack has, for each group that is being printed, the place of its
/// next item.
pub(crate) fn in_printed_order(alloc: Global, items: &[Item]) -> Result<Vec<Item>, AllocError>
    requires { IsTrue (climbs items.now) }
    ensures { IfOk result (λ printed. printed.items ≡ in_printed_order items.now) }
{
    let links = link_up(alloc, items)?;
    let mut printed = Vec::with_capacity(alloc, items.len())?;
    let mut stack = Vec::new(alloc);
    open(&mut stack, links.firsts.get(None))?;
    while let Some(place) = stack.pop() {
        let item = items[place].share()?;
        open(&mut stack, links.next[place])?;
        open(&mut stack, links.firsts.get(Some(item.id)))?;
        printed.push(item)?;
    }
    Ok(printed)
}
