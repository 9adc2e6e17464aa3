//! Operations, as they are printed.

ghost use Rattle.std.specs.List.{flat_map};
ghost use Rattle.std.specs.Prelude.{◌≡◌, ◌≤◌, ◌+◌, ◌*◌, ◌++◌, codes, decimal, is_some, length};
ghost use Rattle.std.specs.Int.{from_bool};
ghost use Rattle.gd_lines.specs.OpText.{align_or_none, behind_text, both_text, command_text, content_text, dash_word};
ghost use Rattle.gd_lines.specs.OpText.{dissolved_text, ends_text, heads_word, looks_text};
ghost use Rattle.gd_lines.specs.OpText.{kind_text, number_or_none, parts_of, link_text, member_text, op_text};
ghost use Rattle.gd_lines.specs.OpText.{rank_text, spaced, state_text, tie_text, two_text, whole_text};
ghost use Rattle.gd_lines.specs.Text.{colour_text, fill_text, shape_word};
ghost use Rattle.gd_words.specs.Told.{led_text, named_text, part_text};
ghost use Rattle.gd_words.specs.declared.reply_text.TheConstants.{LONGEST_REPLY};

use crate::colours::push_colour;
use crate::items::{align_word, push_escaped, push_fill, push_label, push_marks, shape_word};
use crate::reply_text::ReplyText;
use gd_base::{
    Align, Content, Dash, Ends, Heads, Height, Kind, Link, Looks, Member, Object, Rank, Shape,
    Side, Stamp, Text, Tie,
};
use gd_events::{Op, PackedLooks};

/// Appends the operation, of at most 6,400 bytes.
pub(crate) fn push_op(text: &mut ReplyText, op: &Op)
    requires room { length text.old + 6400 ≤ LONGEST_REPLY }
    ensures value { text.new ≡ text.old ++ op_text op.now }
    ensures grown { length text.new ≤ length text.old + 6400 }
{
    match op {
        Op::Create {
            kind,
            x,
            y,
            w,
            h,
            label,
        } => {
            text.word(b"create");
            push_shape(text, *kind);
            push_box(text, *x, *y, *w, *h);
            push_behind(text, label);
        }
        Op::Delete { id } => push_command(text, b"delete", *id),
        Op::Set { id, content } => push_content(text, *id, content),
        Op::Group { members } => {
            text.word(b"group");
            push_members(text, members.as_slice());
        }
        Op::Connect { ends, label } => {
            text.word(b"connect");
            push_both(text, *ends);
            push_behind(text, label);
        }
        Op::Restore { id, object, ties } => {
            let object = object.get();
            push_command(text, b"restore", *id);
            push_whole(text, object);
            push_state(text, object);
            push_ties(text, ties.as_slice());
            push_label(text, object.label.as_str());
        }
        Op::Disband { id, ties } => {
            push_command(text, b"disband", *id);
            push_ties(text, ties.as_slice());
        }
    }
}

/// Appends what sets a content of the object of that id.
fn push_content(text: &mut ReplyText, id: Stamp, content: &Content<Text, PackedLooks, Height>)
    requires room { length text.old + 1100 ≤ LONGEST_REPLY }
    ensures value { text.new ≡ text.old ++ content_text id content.now }
    ensures grown { length text.new ≤ length text.old + 1100 }
{
    match content {
        Content::ToPlace { x, y } => {
            push_command(text, b"move", id);
            push_two(text, *x, *y);
        }
        Content::ToSize { w, h } => {
            push_command(text, b"resize", id);
            push_two(text, *w, *h);
        }
        Content::ToLooks(looks) => push_looks(text, id, &looks.looks()),
        Content::ToText(label) => {
            push_command(text, b"text", id);
            push_behind(text, label);
        }
        Content::ToFlag(true) => push_command(text, b"ungroup", id),
        Content::ToFlag(false) => push_command(text, b"reopen", id),
        Content::ToEnds(ends) => {
            push_command(text, b"reconnect", id);
            push_ends(text, *ends);
        }
        Content::ToRank(Height::To(Side::Top)) => push_command(text, b"raise", id),
        Content::ToRank(Height::To(Side::Bottom)) => push_command(text, b"lower", id),
        Content::ToRank(Height::At(rank)) => {
            push_command(text, b"rerank", id);
            push_rank(text, *rank);
        }
    }
}

/// Appends what sets looks: a lone part in the words of its line, and others in those of a style.
fn push_looks(text: &mut ReplyText, id: Stamp, looks: &Looks)
    requires room { length text.old + 652 ≤ LONGEST_REPLY }
    ensures value { text.new ≡ text.old ++ looks_text id (parts_of looks.now) }
    ensures grown { length text.new ≤ length text.old + 652 }
{
    let count = count_of(looks);
    if count == 1 {
        push_pairs(text, &Some(id), looks);
        return;
    }
    push_command(text, b"style", id);
    push_pairs(text, &None, looks);
}

/// How many parts are set.
fn count_of(looks: &Looks) -> usize
    ensures { result ≡ length (parts_of looks.now) }
{
    one_of(&looks.stroke)
        + one_of(&looks.fill)
        + one_of(&looks.width)
        + one_of(&looks.dash)
        + one_of(&looks.heads)
        + one_of(&looks.round)
        + one_of(&looks.opacity)
        + one_of(&looks.letters)
        + one_of(&looks.align)
}

/// One where it is set, else zero.
fn one_of<T>(part: &Option<T>) -> usize
    ensures count { result ≡ from_bool (is_some part.now) }
    ensures bound { result ≤ 1 }
{
    if part.is_some() { 1 } else { 0 }
}

/// Appends each part that is set: its name, and the id behind that where there is one, and its value.
fn push_pairs(text: &mut ReplyText, id: &Option<Stamp>, looks: &Looks)
    requires room { length text.old + 600 ≤ LONGEST_REPLY }
    ensures value { text.new ≡ text.old ++ flat_map (led_text id.now) (parts_of looks.now) }
    ensures grown { length text.new ≤ length text.old + 600 }
{
    push_stroke_part(text, id, looks.stroke);
    push_fill_part(text, id, looks.fill);
    push_number_part(text, id, b"width", looks.width);
    push_dash_part(text, id, looks.dash);
    push_heads_part(text, id, looks.heads);
    push_round_part(text, id, looks.round);
    push_number_part(text, id, b"opacity", looks.opacity);
    push_size_part(text, id, looks.letters);
    push_align_part(text, id, looks.align);
}

fn push_stroke_part(text: &mut ReplyText, id: &Option<Stamp>, stroke: Option<u32>)
    requires room { length text.old + 62 ≤ LONGEST_REPLY }
    ensures value { text.new ≡ text.old ++ part_text id.now (codes "stroke") colour_text stroke }
    ensures grown { length text.new ≤ length text.old + 62 }
{
    if let Some(stroke) = stroke {
        push_name(text, b"stroke", id);
        push_colour(text, stroke);
    }
}

fn push_fill_part(text: &mut ReplyText, id: &Option<Stamp>, fill: Option<Option<u32>>)
    requires room { length text.old + 62 ≤ LONGEST_REPLY }
    ensures value { text.new ≡ text.old ++ part_text id.now (codes "fill") fill_text fill }
    ensures grown { length text.new ≤ length text.old + 62 }
{
    if let Some(fill) = fill {
        push_name(text, b"fill", id);
        push_fill(text, fill);
    }
}

/// Appends a part whose value is a byte.
fn push_number_part(text: &mut ReplyText, id: &Option<Stamp>, name: &[u8], number: Option<u8>)
    requires room { length text.old + 74 ≤ LONGEST_REPLY }
    requires short { length name.now ≤ 10 }
    ensures value { text.new ≡ text.old ++ part_text id.now name.now decimal number }
    ensures grown { length text.new ≤ length text.old + 74 }
{
    if let Some(number) = number {
        push_name(text, name, id);
        text.number(u64::from(number));
    }
}

fn push_dash_part(text: &mut ReplyText, id: &Option<Stamp>, dash: Option<Dash>)
    requires room { length text.old + 60 ≤ LONGEST_REPLY }
    ensures value { text.new ≡ text.old ++ part_text id.now (codes "dash") dash_word dash }
    ensures grown { length text.new ≤ length text.old + 60 }
{
    if let Some(dash) = dash {
        push_name(text, b"dash", id);
        text.word(dash_word(dash));
    }
}

fn push_heads_part(text: &mut ReplyText, id: &Option<Stamp>, heads: Option<Heads>)
    requires room { length text.old + 60 ≤ LONGEST_REPLY }
    ensures value { text.new ≡ text.old ++ part_text id.now (codes "heads") heads_word heads }
    ensures grown { length text.new ≤ length text.old + 60 }
{
    if let Some(heads) = heads {
        push_name(text, b"heads", id);
        text.word(heads_word(heads));
    }
}

fn push_round_part(text: &mut ReplyText, id: &Option<Stamp>, round: Option<Option<u32>>)
    requires room { length text.old + 74 ≤ LONGEST_REPLY }
    ensures value { text.new ≡ text.old ++ part_text id.now (codes "round") number_or_none round }
    ensures grown { length text.new ≤ length text.old + 74 }
{
    if let Some(round) = round {
        push_name(text, b"round", id);
        push_round(text, round);
    }
}

fn push_size_part(text: &mut ReplyText, id: &Option<Stamp>, letters: Option<Option<u16>>)
    requires room { length text.old + 74 ≤ LONGEST_REPLY }
    ensures value { text.new ≡ text.old ++ part_text id.now (codes "size") number_or_none letters }
    ensures grown { length text.new ≤ length text.old + 74 }
{
    if let Some(letters) = letters {
        push_name(text, b"size", id);
        push_letters(text, letters);
    }
}

fn push_align_part(text: &mut ReplyText, id: &Option<Stamp>, align: Option<Option<Align>>)
    requires room { length text.old + 60 ≤ LONGEST_REPLY }
    ensures value { text.new ≡ text.old ++ part_text id.now (codes "align") align_or_none align }
    ensures grown { length text.new ≤ length text.old + 60 }
{
    if let Some(align) = align {
        push_name(text, b"align", id);
        text.word(align_or_none(align));
    }
}

/// Appends the name of a part in front of its value: that of a line with its id, or behind a space.
fn push_name(text: &mut ReplyText, name: &[u8], id: &Option<Stamp>)
    requires room { length text.old + 54 ≤ LONGEST_REPLY }
    requires short { length name.now ≤ 10 }
    ensures value { text.new ≡ text.old ++ named_text id.now name.now ++ codes " " }
    ensures grown { length text.new ≤ length text.old + 54 }
{
    push_called(text, name, id);
    text.word(b" ");
}

fn push_called(text: &mut ReplyText, name: &[u8], id: &Option<Stamp>)
    requires room { length text.old + 53 ≤ LONGEST_REPLY }
    requires short { length name.now ≤ 10 }
    ensures value { text.new ≡ text.old ++ named_text id.now name.now }
    ensures grown { length text.new ≤ length text.old + 53 }
{
    match id {
        Some(id) => push_command(text, name, *id),
        None => {
            text.word(b" ");
            text.word(name);
        }
    }
}

/// Appends how round corners are, or that it is as the kind has it.
fn push_round(text: &mut ReplyText, round: Option<u32>)
    requires room { length text.old + 20 ≤ LONGEST_REPLY }
    ensures value { text.new ≡ text.old ++ number_or_none round }
    ensures grown { length text.new ≤ length text.old + 20 }
{
    match round {
        Some(round) => text.number(u64::from(round)),
        None => text.word(b"none"),
    }
}

/// Appends how large letters are, or that it is as the kind has it.
fn push_letters(text: &mut ReplyText, letters: Option<u16>)
    requires room { length text.old + 20 ≤ LONGEST_REPLY }
    ensures value { text.new ≡ text.old ++ number_or_none letters }
    ensures grown { length text.new ≤ length text.old + 20 }
{
    match letters {
        Some(letters) => text.number(u64::from(letters)),
        None => text.word(b"none"),
    }
}

fn align_or_none(align: Option<Align>) -> &'static [u8]
    ensures word { result.now ≡ align_or_none align }
    ensures short { length result.now ≤ 6 }
{
    match align {
        Some(align) => align_word(align),
        None => b"none",
    }
}

fn dash_word(dash: Dash) -> &'static [u8]
    ensures word { result.now ≡ dash_word dash }
    ensures short { length result.now ≤ 6 }
{
    match dash {
        Dash::Solid => b"solid",
        Dash::Dashed => b"dashed",
        Dash::Dotted => b"dotted",
    }
}

fn heads_word(heads: Heads) -> &'static [u8]
    ensures word { result.now ≡ heads_word heads }
    ensures short { length result.now ≤ 5 }
{
    match heads {
        Heads::Bare => b"none",
        Heads::AtEnd => b"end",
        Heads::AtStart => b"start",
        Heads::AtBoth => b"both",
    }
}

/// Appends the ends of a connector, each behind a space.
fn push_both(text: &mut ReplyText, ends: Ends)
    requires room { length text.old + 84 ≤ LONGEST_REPLY }
    ensures value { text.new ≡ text.old ++ both_text ends }
    ensures grown { length text.new ≤ length text.old + 84 }
{
    text.word(b" ");
    text.id(ends.from);
    text.word(b" ");
    text.id(ends.to);
}

fn push_ends(text: &mut ReplyText, ends: Option<Ends>)
    requires room { length text.old + 84 ≤ LONGEST_REPLY }
    ensures value { text.new ≡ text.old ++ ends_text ends }
    ensures grown { length text.new ≤ length text.old + 84 }
{
    if let Some(ends) = ends {
        push_both(text, ends);
    }
}

/// Appends a command's name, and the object that it is of.
#[tactic(auto, unfolding(gd_lines::specs::OpText::command_text))]
fn push_command(text: &mut ReplyText, name: &[u8], id: Stamp)
    requires room { length text.old + 52 ≤ LONGEST_REPLY }
    requires short { length name.now ≤ 10 }
    ensures value { text.new ≡ text.old ++ command_text name.now id }
    ensures grown { length text.new ≤ length text.old + 52 }
{
    text.word(name);
    text.word(b" ");
    text.id(id);
}

#[tactic(auto, unfolding(gd_lines::specs::OpText::two_text))]
fn push_two(text: &mut ReplyText, x: i32, y: i32)
    requires room { length text.old + 42 ≤ LONGEST_REPLY }
    ensures value { text.new ≡ text.old ++ two_text x y }
    ensures grown { length text.new ≤ length text.old + 42 }
{
    text.word(b" ");
    text.signed(i64::from(x));
    text.word(b" ");
    text.signed(i64::from(y));
}

/// Appends a place and a size.
fn push_box(text: &mut ReplyText, x: i32, y: i32, w: i32, h: i32)
    requires room { length text.old + 84 ≤ LONGEST_REPLY }
    ensures value { text.new ≡ text.old ++ two_text x y ++ two_text w h }
    ensures grown { length text.new ≤ length text.old + 84 }
{
    push_two(text, x, y);
    push_two(text, w, h);
}

/// Appends a label as a line that asks for it has it.
fn push_behind(text: &mut ReplyText, label: &Text)
    requires room { length text.old + 1001 ≤ LONGEST_REPLY }
    ensures value { text.new ≡ text.old ++ behind_text label.now }
    ensures grown { length text.new ≤ length text.old + 1001 }
{
    let label = label.as_str();
    if label.is_empty() {
        return;
    }
    text.word(b" ");
    push_escaped(text, label);
}

fn push_members(text: &mut ReplyText, members: &[Member])
    requires room { length text.old + 84 * length members.now ≤ LONGEST_REPLY }
    ensures value { text.new ≡ text.old ++ flat_map member_text members.now }
    ensures grown { length text.new ≤ length text.old + 84 * length members.now }
{
    for member in members {
        push_member(text, *member);
    }
}

#[tactic(auto, unfolding(gd_lines::specs::OpText::member_text))]
fn push_member(text: &mut ReplyText, member: Member)
    requires room { length text.old + 84 ≤ LONGEST_REPLY }
    ensures value { text.new ≡ text.old ++ member_text member }
    ensures grown { length text.new ≤ length text.old + 84 }
{
    text.word(b" ");
    text.id(member.id);
    push_two(text, member.dx, member.dy);
}

fn push_ties(text: &mut ReplyText, ties: &[Tie])
    requires room { length text.old + 133 * length ties.now ≤ LONGEST_REPLY }
    ensures value { text.new ≡ text.old ++ flat_map tie_text ties.now }
    ensures grown { length text.new ≤ length text.old + 133 * length ties.now }
{
    for tie in ties {
        push_tie(text, *tie);
    }
}

#[tactic(auto, unfolding(gd_lines::specs::OpText::tie_text))]
fn push_tie(text: &mut ReplyText, tie: Tie)
    requires room { length text.old + 133 ≤ LONGEST_REPLY }
    ensures value { text.new ≡ text.old ++ tie_text tie }
    ensures grown { length text.new ≤ length text.old + 133 }
{
    text.word(b" tie ");
    text.id(tie.id);
    push_link(text, tie.link);
}

/// Appends to which group an object is linked, with its shift, or that it is to none.
fn push_link(text: &mut ReplyText, link: Option<Link>)
    requires room { length text.old + 87 ≤ LONGEST_REPLY }
    ensures value { text.new ≡ text.old ++ link_text link }
    ensures grown { length text.new ≤ length text.old + 87 }
{
    match link {
        None => text.word(b" in -"),
        Some(link) => {
            text.word(b" in ");
            text.id(link.parent);
            push_two(text, link.dx, link.dy);
        }
    }
}

fn push_rank(text: &mut ReplyText, rank: Rank)
    requires room { length text.old + 47 ≤ LONGEST_REPLY }
    ensures value { text.new ≡ text.old ++ rank_text rank }
    ensures grown { length text.new ≤ length text.old + 47 }
{
    match rank {
        Rank::Low(stamp) => {
            text.word(b" low ");
            text.id(stamp);
        }
        Rank::High(stamp) => {
            text.word(b" high ");
            text.id(stamp);
        }
    }
}

/// Appends what an object is, where it stands, and how it looks.
#[tactic(auto, unfolding(gd_lines::specs::OpText::whole_text))]
fn push_whole(text: &mut ReplyText, object: &Object)
    requires room { length text.old + 360 ≤ LONGEST_REPLY }
    ensures value { text.new ≡ text.old ++ whole_text object.now }
    ensures grown { length text.new ≤ length text.old + 360 }
{
    push_kind(text, object.kind);
    push_ends(text, object.ends);
    push_box(text, object.x, object.y, object.w, object.h);
    push_look(
        text,
        object.look.stroke,
        object.look.fill,
        object.look.width,
    );
    push_marks(text, &object.look);
}

/// Appends the colours and the width, each behind a space.
fn push_look(text: &mut ReplyText, stroke: u32, fill: Option<u32>, width: u8)
    requires room { length text.old + 39 ≤ LONGEST_REPLY }
    ensures value { text.new ≡
        text.old ++ spaced (colour_text stroke) ++ spaced (fill_text fill)
        ++ spaced (decimal width) }
    ensures grown { length text.new ≤ length text.old + 39 }
{
    text.word(b" ");
    push_colour(text, stroke);
    text.word(b" ");
    push_fill(text, fill);
    text.word(b" ");
    text.number(u64::from(width));
}

fn push_kind(text: &mut ReplyText, kind: Kind)
    requires room { length text.old + 10 ≤ LONGEST_REPLY }
    ensures value { text.new ≡ text.old ++ kind_text kind }
    ensures grown { length text.new ≤ length text.old + 10 }
{
    match kind {
        Kind::Group => text.word(b" group"),
        Kind::Connector => text.word(b" connector"),
        Kind::Shape(shape) => push_shape(text, shape),
    }
}

fn push_shape(text: &mut ReplyText, shape: Shape)
    requires room { length text.old + 8 ≤ LONGEST_REPLY }
    ensures value { text.new ≡ text.old ++ spaced (shape_word shape) }
    ensures grown { length text.new ≤ length text.old + 8 }
{
    text.word(b" ");
    text.word(shape_word(shape));
}

/// Appends to which group an object is linked, whether it is dissolved, and how high it lies.
#[tactic(auto, unfolding(gd_lines::specs::OpText::state_text))]
fn push_state(text: &mut ReplyText, object: &Object)
    requires room { length text.old + 144 ≤ LONGEST_REPLY }
    ensures value { text.new ≡ text.old ++ state_text object.now }
    ensures grown { length text.new ≤ length text.old + 144 }
{
    push_link(text, object.link);
    push_dissolved(text, object.dissolved);
    push_rank(text, object.rank);
}

fn push_dissolved(text: &mut ReplyText, dissolved: bool)
    requires room { length text.old + 10 ≤ LONGEST_REPLY }
    ensures value { text.new ≡ text.old ++ dissolved_text dissolved }
    ensures grown { length text.new ≤ length text.old + 10 }
{
    if dissolved {
        text.word(b" dissolved");
    }
}
