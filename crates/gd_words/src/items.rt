//! The parts of an item's line.

ghost use Rattle.std.specs.Prelude.{◌≡◌, ◌≤◌, ◌+◌, ◌*◌, ◌++◌, [], length};
ghost use Rattle.gd_lines.specs.Text.{align_text, align_word, between_text, colours_text, dash_text, escaped};
ghost use Rattle.gd_lines.specs.Text.{escaped_byte, fill_text, head_text};
ghost use Rattle.gd_lines.specs.Text.{heads_text, joined_text, kind_word, label_text, letters_text, look_of, look_text};
ghost use Rattle.gd_lines.specs.Text.{marks_text, opacity_text};
ghost use Rattle.gd_lines.specs.Text.{parent_text, place_text, round_text, shape_word, size_text, style_text};
ghost use Rattle.gd_lines.specs.Text.{where_text, width_text};
ghost use Rattle.gd_words.specs.declared.reply_text.TheConstants.{LONGEST_REPLY};

use crate::colours::push_colour;
use crate::reply_text::ReplyText;
use gd_base::{
    Align, Body, Dash, Ends, Heads, Item, JoinedItem, Look, OPACITY_LIMIT, Shape, ShapeItem, Stamp,
};

/// Appends what each item has: what it is, its id, its effective parent, and where it is.
#[tactic(auto, unfolding(gd_lines::specs::Text::head_text))]
pub(crate) fn push_head(text: &mut ReplyText, item: &Item)
    requires { text.old ≡ [] }
    ensures value { text.new ≡ head_text item.now }
    ensures short { length text.new ≤ 200 }
{
    text.word(kind_word(&item.body));
    text.word(b" ");
    text.id(item.id);
    text.word(b" in ");
    push_parent(text, item.parent);
    push_where(text, item);
}

/// Appends the place, or the ends.
fn push_where(text: &mut ReplyText, item: &Item)
    requires room { length text.old + 95 ≤ LONGEST_REPLY }
    ensures value { text.new ≡ text.old ++ where_text item.now item.now.body }
    ensures grown { length text.new ≤ length text.old + 95 }
{
    match &item.body {
        Body::Joined(joined) => push_between(text, joined.ends),
        Body::Shape(_) | Body::Group => push_place(text, item.at.x, item.at.y),
    }
}

#[tactic(auto, unfolding(gd_lines::specs::Text::between_text))]
fn push_between(text: &mut ReplyText, ends: Ends)
    requires room { length text.old + 95 ≤ LONGEST_REPLY }
    ensures value { text.new ≡ text.old ++ between_text ends }
    ensures grown { length text.new ≤ length text.old + 95 }
{
    text.word(b" from ");
    text.id(ends.from);
    text.word(b" to ");
    text.id(ends.to);
}

#[tactic(auto, unfolding(gd_lines::specs::Text::place_text))]
fn push_place(text: &mut ReplyText, x: i64, y: i64)
    requires room { length text.old + 45 ≤ LONGEST_REPLY }
    ensures value { text.new ≡ text.old ++ place_text x y }
    ensures grown { length text.new ≤ length text.old + 45 }
{
    text.word(b" at ");
    text.signed(x);
    text.word(b" ");
    text.signed(y);
}

/// Appends what only a shape has, or only a connector.
pub(crate) fn push_look_of(text: &mut ReplyText, body: &Body)
    requires room { length text.old + 1300 ≤ LONGEST_REPLY }
    ensures value { text.new ≡ text.old ++ look_of body.now }
    ensures grown { length text.new ≤ length text.old + 1300 }
{
    match body {
        Body::Shape(shape) => push_look(text, shape),
        Body::Joined(joined) => push_joined(text, joined),
        Body::Group => {}
    }
}

fn kind_word(body: &Body) -> &'static [u8]
    ensures word { result.now ≡ kind_word body.now }
    ensures short { length result.now ≤ 9 }
{
    match body {
        Body::Shape(shape) => shape_word(shape.kind),
        Body::Joined(_) => b"connector",
        Body::Group => b"group",
    }
}

pub(crate) fn shape_word(kind: Shape) -> &'static [u8]
    ensures word { result.now ≡ shape_word kind }
    ensures short { length result.now ≤ 7 }
{
    match kind {
        Shape::Rect => b"rect",
        Shape::Ellipse => b"ellipse",
        Shape::Line => b"line",
        Shape::Text => b"text",
    }
}

/// Appends the id, or that there is none.
pub(crate) fn push_parent(text: &mut ReplyText, parent: Option<Stamp>)
    requires room { length text.old + 41 ≤ LONGEST_REPLY }
    ensures value { text.new ≡ text.old ++ parent_text parent }
    ensures grown { length text.new ≤ length text.old + 41 }
{
    match parent {
        None => text.word(b"-"),
        Some(id) => text.id(id),
    }
}

#[tactic(auto, unfolding(gd_lines::specs::Text::look_text))]
fn push_look(text: &mut ReplyText, shape: &ShapeItem)
    requires room { length text.old + 1300 ≤ LONGEST_REPLY }
    ensures value { text.new ≡ text.old ++ look_text shape.now }
    ensures grown { length text.new ≤ length text.old + 1300 }
{
    push_size(text, shape.w, shape.h);
    push_style(text, &shape.look);
    push_label(text, shape.label.as_str());
}

#[tactic(auto, unfolding(gd_lines::specs::Text::joined_text))]
fn push_joined(text: &mut ReplyText, joined: &JoinedItem)
    requires room { length text.old + 1300 ≤ LONGEST_REPLY }
    ensures value { text.new ≡ text.old ++ joined_text joined.now }
    ensures grown { length text.new ≤ length text.old + 1300 }
{
    push_style(text, &joined.look);
    push_label(text, joined.label.as_str());
}

/// Appends how something looks.
#[tactic(auto, unfolding(gd_lines::specs::Text::style_text))]
fn push_style(text: &mut ReplyText, look: &Look)
    requires room { length text.old + 200 ≤ LONGEST_REPLY }
    ensures value { text.new ≡ text.old ++ style_text look.now }
    ensures grown { length text.new ≤ length text.old + 200 }
{
    push_colours(text, look.stroke, look.fill);
    push_width(text, look.width);
    push_marks(text, look);
}

/// Appends what of a look isn't as it is made.
#[tactic(auto, unfolding(gd_lines::specs::Text::marks_text))]
pub(crate) fn push_marks(text: &mut ReplyText, look: &Look)
    requires room { length text.old + 140 ≤ LONGEST_REPLY }
    ensures value { text.new ≡ text.old ++ marks_text look.now }
    ensures grown { length text.new ≤ length text.old + 140 }
{
    push_dash(text, look.dash);
    push_heads(text, look.heads);
    push_round(text, look.round);
    push_opacity(text, look.opacity);
    push_letters(text, look.letters);
    push_align(text, look.align);
}

fn push_round(text: &mut ReplyText, round: Option<u32>)
    requires room { length text.old + 27 ≤ LONGEST_REPLY }
    ensures value { text.new ≡ text.old ++ round_text round }
    ensures grown { length text.new ≤ length text.old + 27 }
{
    if let Some(round) = round {
        text.word(b" round ");
        text.number(u64::from(round));
    }
}

fn push_opacity(text: &mut ReplyText, opacity: u8)
    requires room { length text.old + 29 ≤ LONGEST_REPLY }
    ensures value { text.new ≡ text.old ++ opacity_text opacity }
    ensures grown { length text.new ≤ length text.old + 29 }
{
    if opacity == OPACITY_LIMIT {
        return;
    }
    text.word(b" opacity ");
    text.number(u64::from(opacity));
}

fn push_letters(text: &mut ReplyText, letters: Option<u16>)
    requires room { length text.old + 26 ≤ LONGEST_REPLY }
    ensures value { text.new ≡ text.old ++ letters_text letters }
    ensures grown { length text.new ≤ length text.old + 26 }
{
    if let Some(letters) = letters {
        text.word(b" size ");
        text.number(u64::from(letters));
    }
}

fn push_align(text: &mut ReplyText, align: Option<Align>)
    requires room { length text.old + 13 ≤ LONGEST_REPLY }
    ensures value { text.new ≡ text.old ++ align_text align }
    ensures grown { length text.new ≤ length text.old + 13 }
{
    if let Some(align) = align {
        text.word(b" align ");
        text.word(align_word(align));
    }
}

fn push_dash(text: &mut ReplyText, dash: Dash)
    requires room { length text.old + 12 ≤ LONGEST_REPLY }
    ensures value { text.new ≡ text.old ++ dash_text dash }
    ensures grown { length text.new ≤ length text.old + 12 }
{
    match dash {
        Dash::Solid => {}
        Dash::Dashed => text.word(b" dash dashed"),
        Dash::Dotted => text.word(b" dash dotted"),
    }
}

fn push_heads(text: &mut ReplyText, heads: Heads)
    requires room { length text.old + 12 ≤ LONGEST_REPLY }
    ensures value { text.new ≡ text.old ++ heads_text heads }
    ensures grown { length text.new ≤ length text.old + 12 }
{
    match heads {
        Heads::Bare => {}
        Heads::AtEnd => text.word(b" heads end"),
        Heads::AtStart => text.word(b" heads start"),
        Heads::AtBoth => text.word(b" heads both"),
    }
}

pub(crate) fn align_word(align: Align) -> &'static [u8]
    ensures word { result.now ≡ align_word align }
    ensures short { length result.now ≤ 6 }
{
    match align {
        Align::Start => b"start",
        Align::Middle => b"middle",
        Align::End => b"end",
    }
}

#[tactic(auto, unfolding(gd_lines::specs::Text::size_text))]
fn push_size(text: &mut ReplyText, w: i32, h: i32)
    requires room { length text.old + 47 ≤ LONGEST_REPLY }
    ensures value { text.new ≡ text.old ++ size_text w h }
    ensures grown { length text.new ≤ length text.old + 47 }
{
    text.word(b" size ");
    text.signed(i64::from(w));
    text.word(b" ");
    text.signed(i64::from(h));
}

#[tactic(auto, unfolding(gd_lines::specs::Text::colours_text))]
fn push_colours(text: &mut ReplyText, stroke: u32, fill: Option<u32>)
    requires room { length text.old + 30 ≤ LONGEST_REPLY }
    ensures value { text.new ≡ text.old ++ colours_text stroke fill }
    ensures grown { length text.new ≤ length text.old + 30 }
{
    text.word(b" stroke ");
    push_colour(text, stroke);
    text.word(b" fill ");
    push_fill(text, fill);
}

pub(crate) fn push_fill(text: &mut ReplyText, fill: Option<u32>)
    requires room { length text.old + 8 ≤ LONGEST_REPLY }
    ensures value { text.new ≡ text.old ++ fill_text fill }
    ensures grown { length text.new ≤ length text.old + 8 }
{
    match fill {
        None => text.word(b"none"),
        Some(colour) => push_colour(text, colour),
    }
}

#[tactic(auto, unfolding(gd_lines::specs::Text::width_text))]
fn push_width(text: &mut ReplyText, width: u8)
    requires room { length text.old + 27 ≤ LONGEST_REPLY }
    ensures value { text.new ≡ text.old ++ width_text width }
    ensures grown { length text.new ≤ length text.old + 27 }
{
    text.word(b" width ");
    text.number(u64::from(width));
}

pub(crate) fn push_label(text: &mut ReplyText, label: &str)
    requires room { length text.old + 6 + 2 * length label.now ≤ LONGEST_REPLY }
    ensures value { text.new ≡ text.old ++ label_text label.now }
    ensures grown { length text.new ≤ length text.old + 6 + 2 * length label.now }
{
    if label.is_empty() {
        return;
    }
    text.word(b" text ");
    push_escaped(text, label);
}

/// Appends a label as it stands on a line.
#[tactic(auto, unfolding(gd_lines::specs::Text::escaped))]
pub(crate) fn push_escaped(text: &mut ReplyText, label: &str)
    requires room { length text.old + 2 * length label.now ≤ LONGEST_REPLY }
    ensures value { text.new ≡ text.old ++ escaped label.now }
    ensures grown { length text.new ≤ length text.old + 2 * length label.now }
{
    for byte in label.as_bytes() {
        push_escaped_byte(text, *byte);
    }
}

fn push_escaped_byte(text: &mut ReplyText, byte: u8)
    requires room { length text.old + 2 ≤ LONGEST_REPLY }
    ensures value { text.new ≡ text.old ++ escaped_byte byte }
    ensures grown { length text.new ≤ length text.old + 2 }
{
    if byte == b'\n' {
        text.word(b"\\n");
    } else if byte == b'\\' {
        text.word(b"\\\\");
    } else {
        text.word(&[byte]);
    }
}
