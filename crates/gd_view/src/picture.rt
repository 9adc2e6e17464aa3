ghost use Rattle.std.specs.Prelude.{◌≡◌, ◌≤◌, IfOk};
ghost use Rattle.std.specs.FinMap as map_of;
ghost use Rattle.gd_base.specs.declared.ranges.TheConstants.{SESSION_EVENTS};
ghost use Rattle.gd_model.specs.Board.{listed};
ghost use Rattle.gd_model.specs.Shown.{items};
ghost use Rattle.gd_slots.specs.Slots.{board_of};

use crate::listing::shown_items;
use crate::walk::in_printed_order;
use gd_base::Item;
use gd_canvas::Canvas;
use std::alloc::{AllocError, Global};
use std::marker::Model;

/// The items of a drawing in printed order, as contracts see them.
#[derive(Drop)]
pub struct Picture {
    items: Vec<Item>,
}

impl Model for Picture {
    ghost use Rattle.std.specs.Prelude.{List};
    ghost use Rattle.gd_base.specs.declared.item.Item.{Item};

    ghost Value = { List Item };

    ghost view = { λ p. p.items.items };
}

impl Picture {
    /// The picture of a drawing, which stays as it is.
    #[tactic(auto, using(crate::proofs::Rulesets::drawn))]
    pub fn of(alloc: Global, canvas: &Canvas) -> Result<Picture, AllocError>
        requires { map_of.len (board_of canvas.now) ≤ SESSION_EVENTS }
        ensures { IfOk result (λ p. p ≡ items (listed (board_of canvas.now))) }
    {
        let shown = shown_items(alloc, canvas)?;
        let items = in_printed_order(alloc, shown.as_slice())?;
        Ok(Picture { items })
    }

    pub fn as_slice(&self) -> &[Item]
        ensures { result.now ≡ self.now }
    {
        self.items.as_slice()
    }
}
