//! Objects: those of snapshots, and those that an operation restores.
ghost use Rattle.std.specs.Prelude.{◌≡◌, ◌≤◌, ◌<◌, ◌+◌, ◌++◌, ◌∷◌, [], IfOk, length, option_map};
ghost use Rattle.gd_base.specs.Results.{Gives};
ghost use Rattle.gd_grammar.specs.FieldBytes.{signed_bytes};
ghost use Rattle.gd_grammar.specs.ObjectBytes.{ends_or_none_at, joined_at, kind_at, flag_at, parent_at, some_ends_at};
ghost use Rattle.gd_grammar.specs.ObjectBytes.{some_link_at, link_at};
ghost use Rattle.gd_grammar.specs.ObjectBytes.{given_at, object_at, of_kind_at, own_ends_at, rank_at};
ghost use Rattle.gd_grammar.specs.Spelling.{ends_bytes, kind_byte, flag_byte, link_bytes, rank_bytes, object_bytes};
ghost use Rattle.gd_grammar.specs.declared.sizes.TheConstants.{EVENT_BYTES, OBJECT_BYTES};
ghost use Rattle.gd_wire.specs.Packed.{GivesPacked};

use crate::buffer::EventBytes;
use crate::bytes::Bytes;
use crate::pack_error::PackError;
use gd_base::{
    Ends, FieldFault, FieldWhy, Kind, Link, Object, PLACE_LIMIT, Rank, SIZE_LIMIT, Shape, Stamp,
};
use gd_grammar::Naming;
use std::alloc::Global;

/// The kind of a group, behind those of shapes.
const GROUP: u8 = 5;

/// That of a connector, behind it.
const CONNECTOR: u8 = 6;

impl<'a> Bytes<'a> {
    /// An object of at most `OBJECT_BYTES`, without its id, and the operation that names it, if one does. The first
    /// fault is returned: `Short` at the end of all bytes where a field isn't whole, `FutureId` at a group or a rank
    /// that this operation may not name, and `Field` at the first byte of any other field that is out of its range.
    /// `Memory` where memory ran out.
    #[tactic(auto, unfolding(gd_grammar::specs::ObjectBytes::object_at, gd_grammar::specs::Readers::steps))]
    pub fn object(&mut self, alloc: Global, naming: &Option<Naming>) -> Result<Object, PackError>
        ensures { GivesPacked (λ object. (object, self.new)) result
            (object_at naming.now self.old) }
    {
        let kind = self.kind()?;
        self.of_kind(alloc, kind, naming)
    }

    /// What stands behind the kind of an object.
    #[tactic(auto, unfolding(gd_grammar::specs::ObjectBytes::of_kind_at, gd_grammar::specs::Readers::steps))]
    pub(crate) fn of_kind(
        &mut self,
        alloc: Global,
        kind: Kind,
        naming: &Option<Naming>,
    ) -> Result<Object, PackError>
        ensures read { GivesPacked (λ object. (object, self.new)) result
            (of_kind_at kind naming.now self.old) }
        ensures kind { IfOk result (λ object. object.kind ≡ kind) }
    {
        let x = self.signed(PLACE_LIMIT)?;
        let y = self.signed(PLACE_LIMIT)?;
        let w = self.signed(SIZE_LIMIT)?;
        let h = self.signed(SIZE_LIMIT)?;
        let look = self.whole_look()?;
        let label = self.own_text(alloc, kind)?;
        let ends = self.own_ends(kind, stamp_of(naming))?;
        let link = self.link(naming)?;
        let dissolved = self.flag()?;
        let rank = self.rank(stamp_of(naming))?;
        Ok(Object {
            kind,
            x,
            y,
            w,
            h,
            look,
            label,
            ends,
            link,
            dissolved,
            rank,
        })
    }

    #[tactic(auto, unfolding(gd_grammar::specs::ObjectBytes::kind_at, gd_grammar::specs::Readers::steps))]
    pub(crate) fn kind(&mut self) -> Result<Kind, FieldFault>
        ensures { Gives (λ kind. (kind, self.new)) result (kind_at self.old) }
    {
        let fault = self.fault(FieldWhy::Field);
        match self.byte()? {
            1 => Ok(Kind::Shape(Shape::Rect)),
            2 => Ok(Kind::Shape(Shape::Ellipse)),
            3 => Ok(Kind::Shape(Shape::Line)),
            4 => Ok(Kind::Shape(Shape::Text)),
            5 => Ok(Kind::Group),
            6 => Ok(Kind::Connector),
            _ => Err(fault),
        }
    }

    /// 0 or 1.
    #[tactic(auto, unfolding(gd_grammar::specs::ObjectBytes::flag_at, gd_grammar::specs::Readers::steps))]
    pub(crate) fn flag(&mut self) -> Result<bool, FieldFault>
        ensures { Gives (λ flag. (flag, self.new)) result (flag_at self.old) }
    {
        let fault = self.fault(FieldWhy::Field);
        match self.byte()? {
            0 => Ok(false),
            1 => Ok(true),
            _ => Err(fault),
        }
    }

    /// The group and the shift behind a 1, or none behind a 0.
    #[tactic(auto, unfolding(gd_grammar::specs::ObjectBytes::link_at, gd_grammar::specs::Readers::steps))]
    pub(crate) fn link(&mut self, naming: &Option<Naming>) -> Result<Option<Link>, FieldFault>
        ensures { Gives (λ link. (link, self.new)) result (link_at naming.now self.old) }
    {
        let fault = self.fault(FieldWhy::Field);
        match self.byte()? {
            0 => Ok(None),
            1 => self.some_link(naming),
            _ => Err(fault),
        }
    }

    #[tactic(auto, unfolding(gd_grammar::specs::ObjectBytes::some_link_at, gd_grammar::specs::Readers::steps))]
    fn some_link(&mut self, naming: &Option<Naming>) -> Result<Option<Link>, FieldFault>
        ensures { Gives (λ link. (link, self.new)) result (some_link_at naming.now self.old) }
    {
        let parent = self.parent(naming)?;
        let dx = self.signed(PLACE_LIMIT)?;
        let dy = self.signed(PLACE_LIMIT)?;
        Ok(Some(Link { parent, dx, dy }))
    }

    /// The group to which an object is linked.
    #[tactic(auto, unfolding(gd_grammar::specs::ObjectBytes::parent_at, gd_grammar::specs::EventBytes::parent_id_at))]
    fn parent(&mut self, naming: &Option<Naming>) -> Result<Stamp, FieldFault>
        ensures { Gives (λ parent. (parent, self.new)) result (parent_at naming.now self.old) }
    {
        let Some(naming) = naming else {
            return self.stamp();
        };
        let fault = self.fault(FieldWhy::FutureId);
        let parent = self.id(naming.stamp)?;
        if !naming.id.is_before(parent) {
            return Err(fault);
        }
        Ok(parent)
    }

    /// The ends of an object of that kind: a connector has some.
    #[tactic(auto, unfolding(gd_grammar::specs::ObjectBytes::own_ends_at))]
    fn own_ends(&mut self, kind: Kind, stamp: Option<Stamp>) -> Result<Option<Ends>, FieldFault>
        ensures { Gives (λ ends. (ends, self.new)) result (own_ends_at kind stamp self.old) }
    {
        match kind {
            Kind::Connector => self.joined(stamp),
            Kind::Shape(_) | Kind::Group => self.ends_or_none(stamp),
        }
    }

    /// Ends behind a 1.
    #[tactic(auto, unfolding(gd_grammar::specs::ObjectBytes::joined_at, gd_grammar::specs::Readers::steps))]
    fn joined(&mut self, stamp: Option<Stamp>) -> Result<Option<Ends>, FieldFault>
        ensures { Gives (λ ends. (ends, self.new)) result (joined_at stamp self.old) }
    {
        let fault = self.fault(FieldWhy::Field);
        match self.byte()? {
            1 => self.some_ends(stamp),
            _ => Err(fault),
        }
    }

    /// Ends behind a 1, or none behind a 0. They are before that stamp, if there is one.
    #[tactic(auto, unfolding(gd_grammar::specs::ObjectBytes::ends_or_none_at, gd_grammar::specs::Readers::steps))]
    fn ends_or_none(&mut self, stamp: Option<Stamp>) -> Result<Option<Ends>, FieldFault>
        ensures { Gives (λ ends. (ends, self.new)) result (ends_or_none_at stamp self.old) }
    {
        let fault = self.fault(FieldWhy::Field);
        match self.byte()? {
            0 => Ok(None),
            1 => self.some_ends(stamp),
            _ => Err(fault),
        }
    }

    #[tactic(auto, unfolding(gd_grammar::specs::ObjectBytes::some_ends_at, gd_grammar::specs::Readers::steps))]
    fn some_ends(&mut self, stamp: Option<Stamp>) -> Result<Option<Ends>, FieldFault>
        ensures { Gives (λ ends. (ends, self.new)) result (some_ends_at stamp self.old) }
    {
        let from = self.given(&stamp)?;
        let to = self.given(&stamp)?;
        Ok(Some(Ends { from, to }))
    }

    /// The stamp behind a 1 where it is high, and behind a 0 where it is low. It is before that one, if there is one.
    #[tactic(auto, unfolding(gd_grammar::specs::ObjectBytes::rank_at, gd_grammar::specs::Readers::steps))]
    pub(crate) fn rank(&mut self, stamp: Option<Stamp>) -> Result<Rank, FieldFault>
        ensures { Gives (λ rank. (rank, self.new)) result (rank_at stamp self.old) }
    {
        let fault = self.fault(FieldWhy::Field);
        match self.byte()? {
            0 => {
                let given = self.given(&stamp)?;
                Ok(Rank::Low(given))
            }
            1 => {
                let given = self.given(&stamp)?;
                Ok(Rank::High(given))
            }
            _ => Err(fault),
        }
    }

    #[tactic(auto, unfolding(gd_grammar::specs::ObjectBytes::given_at))]
    fn given(&mut self, stamp: &Option<Stamp>) -> Result<Stamp, FieldFault>
        ensures { Gives (λ given. (given, self.new)) result (given_at stamp.now self.old) }
    {
        match stamp {
            None => self.stamp(),
            Some(stamp) => self.id(*stamp),
        }
    }
}

/// The stamp of the event that names an object, if one does.
fn stamp_of(naming: &Option<Naming>) -> Option<Stamp>
    ensures { result ≡ option_map (λ n. n.stamp) naming.now }
{
    match naming {
        None => None,
        Some(naming) => Some(naming.stamp),
    }
}

impl EventBytes {
    /// An object, without its id.
    pub fn put_object(&mut self, object: &Object)
        requires { length self.old + OBJECT_BYTES ≤ EVENT_BYTES }
        ensures bytes { self.new ≡ self.old ++ object_bytes object.now }
        ensures grown { length self.new ≤ length self.old + OBJECT_BYTES }
    {
        self.put_form(object);
        self.put_look(&object.look);
        self.put_label(object.label.as_str());
        self.put_ends(object.ends);
        self.put_link(object.link);
        self.put_flag(object.dissolved);
        self.put_rank(object.rank);
    }

    /// The kind of an object, its place and its size.
    fn put_form(&mut self, object: &Object)
        requires { length self.old + 17 ≤ EVENT_BYTES }
        ensures bytes { self.new ≡ self.old ++ kind_byte object.now.kind ∷ signed_bytes object.now.x
            ++ signed_bytes object.now.y ++ signed_bytes object.now.w ++ signed_bytes object.now.h }
        ensures grown { length self.new ≡ length self.old + 17 }
    {
        self.put_kind(object.kind);
        self.put_signed(object.x);
        self.put_signed(object.y);
        self.put_signed(object.w);
        self.put_signed(object.h);
    }

    fn put_kind(&mut self, kind: Kind)
        requires { length self.old < EVENT_BYTES }
        ensures bytes { self.new ≡ self.old ++ kind_byte kind ∷ [] }
        ensures grown { length self.new ≡ length self.old + 1 }
    {
        match kind {
            Kind::Shape(shape) => self.put_shape(shape),
            Kind::Group => self.put_byte(GROUP),
            Kind::Connector => self.put_byte(CONNECTOR),
        }
    }

    pub(crate) fn put_flag(&mut self, flag: bool)
        requires { length self.old < EVENT_BYTES }
        ensures bytes { self.new ≡ self.old ++ flag_byte flag ∷ [] }
        ensures grown { length self.new ≡ length self.old + 1 }
    {
        if flag {
            self.put_byte(1);
        } else {
            self.put_byte(0);
        }
    }

    /// Whether there is a link, and the link.
    pub(crate) fn put_link(&mut self, link: Option<Link>)
        requires { length self.old + 16 ≤ EVENT_BYTES }
        ensures bytes { self.new ≡ self.old ++ link_bytes link }
        ensures grown { length self.new ≤ length self.old + 16 }
    {
        match link {
            Some(link) => {
                self.put_byte(1);
                self.put_stamp(link.parent);
                self.put_signed(link.dx);
                self.put_signed(link.dy);
            }
            None => self.put_byte(0),
        }
    }

    /// Whether there are ends, and both.
    fn put_ends(&mut self, ends: Option<Ends>)
        requires { length self.old + 15 ≤ EVENT_BYTES }
        ensures bytes { self.new ≡ self.old ++ ends_bytes ends }
        ensures grown { length self.new ≤ length self.old + 15 }
    {
        match ends {
            Some(ends) => {
                self.put_byte(1);
                self.put_stamp(ends.from);
                self.put_stamp(ends.to);
            }
            None => self.put_byte(0),
        }
    }

    /// Whether it is high, and its stamp.
    pub(crate) fn put_rank(&mut self, rank: Rank)
        requires { length self.old + 8 ≤ EVENT_BYTES }
        ensures bytes { self.new ≡ self.old ++ rank_bytes rank }
        ensures grown { length self.new ≡ length self.old + 8 }
    {
        match rank {
            Rank::Low(stamp) => {
                self.put_byte(0);
                self.put_stamp(stamp);
            }
            Rank::High(stamp) => {
                self.put_byte(1);
                self.put_stamp(stamp);
            }
        }
    }
}
