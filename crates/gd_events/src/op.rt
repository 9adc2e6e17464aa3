ghost use Rattle.std.specs.Prelude.{◌≡◌, IfOk};

use crate::boxed_object::BoxedObject;
use crate::member_list::MemberList;
use crate::operation::Operation;
use crate::packed_looks::PackedLooks;
use crate::tie_list::TieList;
use gd_base::{Height, Text, map_content, map_op};
use std::alloc::{AllocError, Global};

/// An operation on a drawing, as an event has it, in the memory that it needs: labels are shared, objects and most looks
/// lie in boxes, and members and ties take as much as there are.
pub type Op = gd_base::Op<Text, PackedLooks, MemberList, Height, BoxedObject, TieList>;

impl Operation for Op {
    ghost use Rattle.gd_events.specs.Sound.{IsOp as is_op};

    ghost IsOp = { is_op };

    fn copy(&self, alloc: Global) -> Result<Op, AllocError> {
        Ok(map_op!(self,
            label => label.share()?,
            looks => looks.copy(alloc)?,
            members => members.copy(alloc)?,
            object => object.copy(alloc)?,
            ties => ties.copy(alloc)?))
    }
}
