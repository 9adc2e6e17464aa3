//! The words of edits.
#![tactic(auto, unfolding(crate::proofs::Opened::reading))]

ghost use Rattle.std.specs.Prelude.{◌≡◌, ◌≤◌};
ghost use Rattle.gd_base.specs.Looks.{no_looks};
ghost use Rattle.gd_base.specs.Ranges.{place_limit, size_limit};
ghost use Rattle.gd_base.specs.Results.{Gives};
ghost use Rattle.gd_base.specs.declared.content.Content.TheVariants as content;
ghost use Rattle.gd_base.specs.declared.ranges.TheConstants.{MOST_MEMBERS};
ghost use Rattle.gd_lines.specs.Edits.{connect_words, create_words, delete_words, edit_rows, ends_at, ends_words};
ghost use Rattle.gd_lines.specs.Edits.{group_words, look_rows, look_words, looks_at, named_at, other_rows, pairs};
ghost use Rattle.gd_lines.specs.Edits.{set_words, style_words, text_words, two_words, value_at};
ghost use Rattle.gd_lines.specs.Reading.{pure};
ghost use Rattle.gd_lines.specs.Rows.{by_name};
ghost use Rattle.gd_words.specs.Asked.{Asks};

use crate::rows::{Asked, by_name};
use crate::words::Words;
use gd_base::{
    Content, Edit, Ends, LETTERS_LIMIT, Label, LineFault, Looks, MOST_MEMBERS, OPACITY_LIMIT,
    PLACE_LIMIT, ROUND_LIMIT, SIZE_LIMIT, Side,
};
use gd_lines::{Command, LookName};

/// The edit of that name, with the `count` words behind it.
#[tactic(auto, unfolding(gd_lines::specs::Rows::by_name, gd_lines::specs::Edits::edit_rows))]
pub(crate) fn edit(
    words: &mut Words<'_>,
    name: &[u8],
    count: usize,
    command: &mut Command,
) -> Asked<()>
    ensures { Asks (λ u. (command.new, words.new)) result
        (by_name edit_rows name.now count) words.old }
{
    by_name! { name;
        b"create", count >= 5 => create(words, command),
        b"delete", count == 1 => delete(words, command),
        b"move", count == 3 => set_place(words, command),
        b"resize", count == 3 => set_size(words, command),
        _ => look_edit(words, name, count, command)
    }
}

/// Of looks, and then the others.
#[tactic(auto, unfolding(gd_lines::specs::Rows::by_name, gd_lines::specs::Edits::look_rows))]
fn look_edit(words: &mut Words<'_>, name: &[u8], count: usize, command: &mut Command) -> Asked<()>
    ensures { Asks (λ u. (command.new, words.new)) result
        (by_name look_rows name.now count) words.old }
{
    by_name! { name;
        b"stroke", count == 2 => set_look(words, LookName::Stroke, command),
        b"fill", count == 2 => set_look(words, LookName::Fill, command),
        b"width", count == 2 => set_look(words, LookName::Width, command),
        b"dash", count == 2 => set_look(words, LookName::Dash, command),
        b"heads", count == 2 => set_look(words, LookName::Heads, command),
        b"round", count == 2 => set_look(words, LookName::Round, command),
        b"opacity", count == 2 => set_look(words, LookName::Opacity, command),
        b"size", count == 2 => set_look(words, LookName::Size, command),
        b"align", count == 2 => set_look(words, LookName::Align, command),
        b"style", are_pairs(count) => set_style(words, (count - 1) / 2, command),
        _ => other_edit(words, name, count, command)
    }
}

/// Of texts, connectors, groups and the stack.
#[tactic(auto, unfolding(gd_lines::specs::Rows::by_name, gd_lines::specs::Edits::other_rows))]
fn other_edit(words: &mut Words<'_>, name: &[u8], count: usize, command: &mut Command) -> Asked<()>
    ensures { Asks (λ u. (command.new, words.new)) result
        (by_name other_rows name.now count) words.old }
{
    by_name! { name;
        b"text", count >= 1 => set_text(words, command),
        b"connect", count >= 2 => connect(words, command),
        b"reconnect", count == 3 => set_ends(words, command),
        b"group", count >= 2 && count <= MOST_MEMBERS => group(words, count, command),
        b"ungroup", count == 1 => set(words, Content::ToFlag(true), command),
        b"raise", count == 1 => set(words, Content::ToRank(Side::Top), command),
        b"lower", count == 1 => set(words, Content::ToRank(Side::Bottom), command),
        _ => Err(LineFault::UnknownCommand)
    }
}

fn create(words: &mut Words<'_>, command: &mut Command) -> Result<(), LineFault>
    ensures { Gives (λ u. (command.new, words.new)) result (create_words words.old) }
{
    *command = Command::Edit(Edit::Create {
        kind: words.kind()?,
        x: words.within(PLACE_LIMIT)?,
        y: words.within(PLACE_LIMIT)?,
        w: words.within(SIZE_LIMIT)?,
        h: words.within(SIZE_LIMIT)?,
        label: words.label()?,
    });
    Ok(())
}

fn delete(words: &mut Words<'_>, command: &mut Command) -> Result<(), LineFault>
    ensures { Gives (λ u. (command.new, words.new)) result (delete_words words.old) }
{
    *command = Command::Edit(Edit::Delete { id: words.id()? });
    Ok(())
}

fn group(words: &mut Words<'_>, count: usize, command: &mut Command) -> Result<(), LineFault>
    requires { count ≤ MOST_MEMBERS }
    ensures { Gives (λ u. (command.new, words.new)) result (group_words count words.old) }
{
    *command = Command::Edit(Edit::Group {
        members: words.ids(count)?,
    });
    Ok(())
}

/// An id, and what is set without further words.
fn set(
    words: &mut Words<'_>,
    content: Content<Label, Looks, Side>,
    command: &mut Command,
) -> Result<(), LineFault>
    ensures { Gives (λ u. (command.new, words.new)) result (set_words (pure content) words.old) }
{
    *command = Command::Edit(Edit::Set {
        id: words.id()?,
        content,
    });
    Ok(())
}

fn set_place(words: &mut Words<'_>, command: &mut Command) -> Result<(), LineFault>
    ensures { Gives (λ u. (command.new, words.new)) result
        (set_words (two_words place_limit content.ToPlace) words.old) }
{
    *command = Command::Edit(Edit::Set {
        id: words.id()?,
        content: Content::ToPlace {
            x: words.within(PLACE_LIMIT)?,
            y: words.within(PLACE_LIMIT)?,
        },
    });
    Ok(())
}

fn set_size(words: &mut Words<'_>, command: &mut Command) -> Result<(), LineFault>
    ensures { Gives (λ u. (command.new, words.new)) result
        (set_words (two_words size_limit content.ToSize) words.old) }
{
    *command = Command::Edit(Edit::Set {
        id: words.id()?,
        content: Content::ToSize {
            w: words.within(SIZE_LIMIT)?,
            h: words.within(SIZE_LIMIT)?,
        },
    });
    Ok(())
}

/// Whether so many words are an id and 1 to 9 pairs of a name and a value.
fn are_pairs(count: usize) -> bool
    ensures { result ≡ pairs count }
{
    count % 2 == 1 && 3 <= count && count <= 19
}

/// One part of a look.
fn set_look(words: &mut Words<'_>, name: LookName, command: &mut Command) -> Result<(), LineFault>
    ensures { Gives (λ u. (command.new, words.new)) result (set_words (look_words name) words.old) }
{
    let id = words.id()?;
    let looks = value(words, name, Looks::none())?;
    let content = Content::ToLooks(looks);
    *command = Command::Edit(Edit::Set { id, content });
    Ok(())
}

/// So many parts of a look.
fn set_style(words: &mut Words<'_>, count: usize, command: &mut Command) -> Result<(), LineFault>
    ensures { Gives (λ u. (command.new, words.new)) result
        (set_words (style_words count) words.old) }
{
    let id = words.id()?;
    let looks = looks(words, count)?;
    let content = Content::ToLooks(looks);
    *command = Command::Edit(Edit::Set { id, content });
    Ok(())
}

fn looks(words: &mut Words<'_>, count: usize) -> Result<Looks, LineFault>
    ensures { Gives (λ l. (l, words.new)) result (looks_at count no_looks words.old) }
{
    let mut looks = Looks::none();
    for _ in 0..count {
        let more = named(words, looks)?;
        looks = more;
    }
    Ok(looks)
}

/// A name that wasn't named yet, and its value.
fn named(words: &mut Words<'_>, looks: Looks) -> Result<Looks, LineFault>
    ensures { Gives (λ l. (l, words.new)) result (named_at looks words.old) }
{
    let name = words.new_name(&looks)?;
    value(words, name, looks)
}

/// The value of a part of a look, with those that were read.
#[tactic(auto, unfolding(crate::proofs::Opened::reading, gd_lines::specs::Edits::value_at))]
fn value(words: &mut Words<'_>, name: LookName, looks: Looks) -> Result<Looks, LineFault>
    ensures { Gives (λ l. (l, words.new)) result (value_at name looks words.old) }
{
    match name {
        LookName::Stroke => {
            let stroke = Some(words.colour()?);
            Ok(Looks { stroke, ..looks })
        }
        LookName::Fill => {
            let fill = Some(words.fill()?);
            Ok(Looks { fill, ..looks })
        }
        LookName::Width => {
            let width = Some(words.width()?);
            Ok(Looks { width, ..looks })
        }
        LookName::Dash => {
            let dash = Some(words.dash()?);
            Ok(Looks { dash, ..looks })
        }
        LookName::Heads => {
            let heads = Some(words.heads()?);
            Ok(Looks { heads, ..looks })
        }
        LookName::Round => {
            let round = Some(Some(words.natural(0, ROUND_LIMIT)?));
            Ok(Looks { round, ..looks })
        }
        LookName::Opacity => {
            let opacity = Some(words.natural(1, u32::from(OPACITY_LIMIT))? as u8);
            Ok(Looks { opacity, ..looks })
        }
        LookName::Size => {
            let letters = Some(Some(words.natural(1, u32::from(LETTERS_LIMIT))? as u16));
            Ok(Looks { letters, ..looks })
        }
        LookName::Align => {
            let align = Some(Some(words.alignment()?));
            Ok(Looks { align, ..looks })
        }
    }
}

fn connect(words: &mut Words<'_>, command: &mut Command) -> Result<(), LineFault>
    ensures { Gives (λ u. (command.new, words.new)) result (connect_words words.old) }
{
    let from = words.id()?;
    let to = words.id()?;
    let label = words.label()?;
    let ends = Ends { from, to };
    *command = Command::Edit(Edit::Connect { ends, label });
    Ok(())
}

#[tactic(auto, unfolding(crate::proofs::Opened::reading, gd_lines::specs::Edits::ends_at))]
fn ends(words: &mut Words<'_>) -> Result<Ends, LineFault>
    ensures { Gives (λ e. (e, words.new)) result (ends_at words.old) }
{
    let from = words.id()?;
    let to = words.id()?;
    Ok(Ends { from, to })
}

fn set_ends(words: &mut Words<'_>, command: &mut Command) -> Result<(), LineFault>
    ensures { Gives (λ u. (command.new, words.new)) result (set_words ends_words words.old) }
{
    let id = words.id()?;
    let ends = ends(words)?;
    let content = Content::ToEnds(Some(ends));
    *command = Command::Edit(Edit::Set { id, content });
    Ok(())
}

fn set_text(words: &mut Words<'_>, command: &mut Command) -> Result<(), LineFault>
    ensures { Gives (λ u. (command.new, words.new)) result (set_words text_words words.old) }
{
    *command = Command::Edit(Edit::Set {
        id: words.id()?,
        content: Content::ToText(words.label()?),
    });
    Ok(())
}
