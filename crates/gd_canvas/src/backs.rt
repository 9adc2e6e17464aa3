//! What takes operations back over a drawing.
ghost use Rattle.std.specs.Prelude.{◌≡◌, ◌≤◌, ◌<◌, ◌+◌, ◌++◌, List, IfOk, length, option_copied, unwrap_or};
ghost use Rattle.std.specs.Prelude.{if◌then◌else◌};
ghost use Rattle.std.specs.FinMap as map_of;
ghost use Rattle.gd_base.specs.Contents.{content_map};
ghost use Rattle.gd_base.specs.declared.content.Height.TheVariants.{At};
ghost use Rattle.gd_base.specs.declared.op.Op.TheVariants.{Restore};
ghost use Rattle.gd_base.specs.declared.ranges.TheConstants.{MOST_MEMBERS};
ghost use Rattle.gd_base.specs.declared.ties.Tie.{Tie as TieValue};
ghost use Rattle.gd_model.specs.Backs.{back, op_of, taking};
ghost use Rattle.gd_model.specs.Forms.{member_ties, rank_at};
ghost use Rattle.gd_model.specs.Objects.{fits, new_group, old};
ghost use Rattle.gd_model.specs.Undoing.{before_by, old_in, old_ties, with_old};
ghost use Rattle.gd_model.specs.declared.form.Form.TheVariants.{Sets, Puts, Takes};
ghost use Rattle.gd_slots.specs.Slots.{board_of};

use crate::canvas::Canvas;
use crate::contents::{exchange, fits};
use crate::grouping::member_ties;
use crate::kept::NewShape;
use crate::new_objects;
use crate::swap::rank_at;
use crate::tied::{own_ties, tie_list};
use gd_base::{Content, Height, Member, Object, Stamp, Text, Tie, Ties, map_content};
use gd_events::{BoxedObject, Op, PackedLooks, TieList};
use gd_model::Held;
use std::alloc::{AllocError, Global};

impl Canvas {
    /// What takes an operation at that stamp back over this drawing: its before-value as an operation, or the same
    /// operation again where it changes nothing. `AllocError` where memory ran out.
    #[tactic(auto, unfolding(gd_model::specs::Backs::back))]
    pub fn back(&self, alloc: Global, stamp: Stamp, op: &Op) -> Result<Op, AllocError>
        ensures { IfOk result (λ undo. undo ≡ back stamp op.now (board_of self.now)) }
    {
        match op {
            Op::Create {
                kind,
                x,
                y,
                w,
                h,
                label,
            } => {
                let new = NewShape {
                    kind: *kind,
                    x: *x,
                    y: *y,
                    w: *w,
                    h: *h,
                };
                let object = new_objects::shape(stamp, &new, label.share()?);
                self.back_of_put(alloc, stamp, object, &[])
            }
            Op::Connect { ends, label } => {
                let object = new_objects::connector(stamp, *ends, label.share()?);
                self.back_of_put(alloc, stamp, object, &[])
            }
            Op::Delete { id } => self.back_of_take(alloc, *id, &[]),
            Op::Set { id, content } => {
                let content = held(stamp, content)?;
                self.back_of_set(alloc, *id, content)
            }
            Op::Group { members } => self.back_of_group(alloc, stamp, members.as_slice()),
            Op::Restore { id, object, ties } => {
                let object = object.get().share()?;
                self.back_of_put(alloc, *id, object, ties.as_slice())
            }
            Op::Disband { id, ties } => self.back_of_take(alloc, *id, ties.as_slice()),
        }
    }

    /// What takes back that a content is set: the one that is there, or the same one where the object hasn't the part.
    fn back_of_set(&self, alloc: Global, id: Stamp, content: Held) -> Result<Op, AllocError>
        ensures { IfOk result (λ undo. undo ≡ op_of (unwrap_or
            (before_by (Sets id content) (map_of.get (board_of self.now))) (Sets id content))) }
    {
        let content = said(alloc, self.old_or(id, content)?)?;
        Ok(Op::Set { id, content })
    }

    /// What takes back that members are grouped.
    fn back_of_group(
        &self,
        alloc: Global,
        stamp: Stamp,
        members: &[Member],
    ) -> Result<Op, AllocError>
        requires { length members.now ≤ MOST_MEMBERS }
        ensures { IfOk result (λ undo. undo ≡ op_of (unwrap_or
            (before_by (Puts stamp (new_group stamp) (member_ties stamp members.now))
            (map_of.get (board_of self.now)))
            (Puts stamp (new_group stamp) (member_ties stamp members.now)))) }
    {
        let ties = member_ties(stamp, members);
        self.back_of_put(alloc, stamp, new_objects::group(stamp), ties.as_slice())
    }

    /// What takes back that an object is put: it is taken away, or put again where one is there.
    fn back_of_put(
        &self,
        alloc: Global,
        id: Stamp,
        object: Object,
        ties: &[Tie],
    ) -> Result<Op, AllocError>
        requires { length ties.now ≤ MOST_MEMBERS }
        ensures { IfOk result (λ undo. undo ≡ op_of (unwrap_or
            (before_by (Puts id object ties.now) (map_of.get (board_of self.now)))
            (Puts id object ties.now))) }
    {
        if self.get(id).is_some() {
            restoring(alloc, id, object, tie_list(alloc, ties)?)
        } else {
            let olds = self.old_ties(alloc, own_ties(object.kind, ties))?;
            Ok(taking(id, olds))
        }
    }

    /// What takes back that an object is taken: it is put back, or taken again where none is there.
    fn back_of_take(&self, alloc: Global, id: Stamp, ties: &[Tie]) -> Result<Op, AllocError>
        requires { length ties.now ≤ MOST_MEMBERS }
        ensures { IfOk result (λ undo. undo ≡ op_of (unwrap_or
            (before_by (Takes id ties.now) (map_of.get (board_of self.now))) (Takes id ties.now))) }
    {
        match self.get(id) {
            Some(object) => {
                let olds = self.old_ties(alloc, own_ties(object.kind, ties))?;
                restoring(alloc, id, object.share()?, olds)
            }
            None => Ok(taking(id, tie_list(alloc, ties)?)),
        }
    }

    /// What stands where a content goes, or the content itself where the object isn't there or hasn't the part.
    fn old_or(&self, id: Stamp, content: Held) -> Result<Held, AllocError>
        ensures { IfOk result (λ old. old
            ≡ unwrap_or (old_in content (map_of.get (board_of self.now) id)) content) }
    {
        match self.get(id) {
            Some(object) => old_in(object, content),
            None => Ok(content),
        }
    }

    /// The links that those have which are tied.
    fn old_ties(&self, alloc: Global, ties: &[Tie]) -> Result<TieList, AllocError>
        requires { length ties.now ≤ MOST_MEMBERS }
        ensures { IfOk result (λ olds. olds
            ≡ old_ties ties.now (map_of.get (board_of self.now))) }
    {
        let mut olds = Ties::new();
        for tie in ties {
            push_old(&mut olds, tie.id, self.get(tie.id));
        }
        TieList::new(alloc, &olds)
    }
}

/// Puts the link of an object last, where it is there. There has to be room.
fn push_old(olds: &mut Ties, id: Stamp, object: Option<&Object>)
    requires room { length olds.old < MOST_MEMBERS }
    ensures olds { (rest : List TieValue) → olds.new ++ rest
        ≡ olds.old ++ with_old id (option_copied object.entry) rest }
    ensures count { length olds.new ≤ length olds.old + 1 }
{
    if let Some(object) = object {
        olds.push(Tie {
            id,
            link: object.link,
        });
    }
}

/// What stands in the object where the content would go, or the content itself where the object hasn't the part.
fn old_in(object: &Object, content: Held) -> Result<Held, AllocError>
    ensures { IfOk result (λ found. found
        ≡ (if fits content object.now.kind then old content object.now else content)) }
{
    if !fits(&content, object.kind) {
        return Ok(content);
    }
    Ok(exchange(&mut object.share()?, content))
}

/// What puts an object back and ties others. `AllocError` where memory ran out.
fn restoring(alloc: Global, id: Stamp, object: Object, ties: TieList) -> Result<Op, AllocError>
    ensures { IfOk result (λ op. op ≡ Restore id object ties) }
{
    let object = BoxedObject::new(alloc, object)?;
    Ok(Op::Restore { id, object, ties })
}

/// What takes an object away and ties others.
fn taking(id: Stamp, ties: TieList) -> Op
    ensures { result ≡ taking id ties }
{
    if ties.as_slice().is_empty() {
        Op::Delete { id }
    } else {
        Op::Disband { id, ties }
    }
}

/// What the operation sets at that stamp.
fn held(stamp: Stamp, content: &Content<Text, PackedLooks, Height>) -> Result<Held, AllocError>
    ensures { IfOk result (λ held. held
        ≡ content_map (λ label. label) (λ looks. looks) (rank_at stamp) content.now) }
{
    Ok(map_content!(content,
        label => label.share()?,
        looks => looks.looks(),
        height => rank_at(stamp, *height)))
}

/// The content as an operation says it, which sets the same at any stamp.
fn said(alloc: Global, content: Held) -> Result<Content<Text, PackedLooks, Height>, AllocError>
    ensures { IfOk result (λ said. said
        ≡ content_map (λ label. label) (λ looks. looks) At content) }
{
    Ok(map_content!(&content,
        label => label.share()?,
        looks => PackedLooks::new(alloc, looks)?,
        rank => Height::At(*rank)))
}
