//! What a churn draws from its generator.

ghost use Rattle.std.specs.Prelude.{◌≡◌, ◌⊎◌, ℕ, ◌<◌, ◌≤◌, ◌+◌, ◌^◌, ◌++◌, [], ◌∷◌, Some, pos, codes, length, IfSome};
ghost use Rattle.gd_base.specs.Labels.{IsLabel};
ghost use Rattle.gd_base.specs.Stamps.{IsStamp};
ghost use Rattle.gd_base.specs.Typed.{AreEnds};
ghost use Rattle.gd_lines.specs.InRange.{IsEdit};
ghost use Rattle.gd_world.specs.Drawn.{IsOfOne, IsPlayed, edit_at, turn_at};
ghost use Rattle.gd_worlds.specs.Churn.{below, connect, create, dash_of, deliver, ends, group, line_for, move};
ghost use Rattle.gd_worlds.specs.Churn.{reconnect, send, step, stroke, style, write};

use gd_base::{COLOUR_LIMIT, Content, Dash, Edit, Ends, Ids, Label, Looks, Shape, Side, Stamp};
use gd_lines::{Command, ScriptLine, Turn};
use rand_core::utils::NextWord;
use rand_pcg::Pcg32;
use std::str;

/// Objects are put and moved to places from 0 on and below this.
const PLACES: u32 = 1000;

/// Their widths and heights.
const SIZE: i32 = 10;

/// The line of a step, where these ids were made and so many mails sent; none where the step is idle.
pub(crate) fn step(generator: &mut Pcg32, made: &[Stamp], mails: u32) -> Option<ScriptLine>
    requires { length made.now < 2 ^ 32 }
    ensures drawn { (result, generator.new) ≡ step made.now mails generator.old }
    ensures ranged { IfSome result IsPlayed }
{
    let site = 1 + below(generator, 4) as u8;
    let number = below(generator, 22);
    line_for(generator, made, mails, site, number)
}

/// The line of a site by a number: 0 to 3 make an object, 4 to 11 change one that was made, 12 and 13 send, 14 and 15
/// deliver, 16 takes an edit back, 17 does one again, 18 connects two, and all above change one that was made.
fn line_for(
    generator: &mut Pcg32,
    made: &[Stamp],
    mails: u32,
    site: u8,
    number: u32,
) -> Option<ScriptLine>
    requires few { length made.now < 2 ^ 32 }
    requires sites { site ≤ 4 }
    ensures drawn { (result, generator.new) ≡ line_for made.now mails site number generator.old }
    ensures ranged { IfSome result IsPlayed }
{
    if number < 4 {
        let edit = create(generator);
        return asks(site, edit);
    }
    if number < 12 {
        return line_of_one(generator, made, site, number);
    }
    if number < 14 {
        return send(generator, site);
    }
    if number < 16 {
        return deliver(generator, mails);
    }
    if number == 16 {
        return turns(site, Turn::Undo);
    }
    if number == 17 {
        return turns(site, Turn::Redo);
    }
    line_of_one(generator, made, site, number)
}

/// A site is asked for an edit.
fn asks(site: u8, edit: Edit) -> Option<ScriptLine>
    requires { IsEdit edit }
    ensures line { result ≡ edit_at site edit }
    ensures ranged { IfSome result IsPlayed }
{
    Some(ScriptLine::At {
        site,
        command: Command::Edit(edit),
    })
}

/// A site is asked to take an edit back, or to do one again.
fn turns(site: u8, which: Turn) -> Option<ScriptLine>
    ensures line { result ≡ turn_at site which }
    ensures ranged { IfSome result IsPlayed }
{
    Some(ScriptLine::At {
        site,
        command: Command::Turn(which),
    })
}

/// The line that changes one of these, where there is one.
fn line_of_one(generator: &mut Pcg32, made: &[Stamp], site: u8, number: u32) -> Option<ScriptLine>
    requires few { length made.now < 2 ^ 32 }
    requires from { 4 ≤ number }
    requires to { number < 12 ⊎ 18 ≤ number }
    ensures drawn { (mails : ℕ) → (result, generator.new)
        ≡ line_for made.now mails site number generator.old }
    ensures ranged { IfSome result IsPlayed }
{
    if made.is_empty() {
        return None;
    }
    let edit = edit_of_one(generator, made, number);
    asks(site, edit)
}

/// The edit that changes one of these.
fn edit_of_one(generator: &mut Pcg32, made: &[Stamp], number: u32) -> Edit
    requires some { 0 < length made.now }
    requires few { length made.now < 2 ^ 32 }
    requires from { 4 ≤ number }
    requires to { number < 12 ⊎ 18 ≤ number }
    ensures drawn { (mails site : ℕ) → (edit_at site result, generator.new)
        ≡ line_for made.now mails site number generator.old }
    ensures ranged { IsEdit result }
{
    match number {
        7 => Edit::Delete {
            id: pick(generator, made),
        },
        8 => Edit::Set {
            id: pick(generator, made),
            content: Content::ToRank(Side::Top),
        },
        9 => group(generator, made),
        10 => Edit::Set {
            id: pick(generator, made),
            content: Content::ToFlag(true),
        },
        11 => stroke(generator, made),
        18 => connect(generator, made),
        19 => reconnect(generator, made),
        20 => style(generator, made),
        21.. => write(generator, made),
        _ => move_to(generator, made),
    }
}

/// A small rectangle.
fn create(generator: &mut Pcg32) -> Edit
    ensures drawn { (result, generator.new) ≡ create generator.old }
    ensures ranged { IsEdit result }
{
    let x = place(generator);
    let y = place(generator);
    Edit::Create {
        kind: Shape::Rect,
        x,
        y,
        w: SIZE,
        h: SIZE,
        label: Label::default(),
    }
}

fn move_to(generator: &mut Pcg32, made: &[Stamp]) -> Edit
    requires some { 0 < length made.now }
    requires few { length made.now < 2 ^ 32 }
    ensures drawn { IsOfOne move made.now result generator.old generator.new }
    ensures ranged { IsEdit result }
{
    let id = pick(generator, made);
    let x = place(generator);
    let y = place(generator);
    Edit::Set {
        id,
        content: Content::ToPlace { x, y },
    }
}

/// The group of two of these, perhaps of one and the same.
fn group(generator: &mut Pcg32, made: &[Stamp]) -> Edit
    requires some { 0 < length made.now }
    requires few { length made.now < 2 ^ 32 }
    ensures drawn { IsOfOne group made.now result generator.old generator.new }
    ensures ranged { IsEdit result }
{
    let id = pick(generator, made);
    let other = pick(generator, made);
    let mut ids = Ids::new();
    ids.push(id);
    ids.push(other);
    Edit::Group { members: ids }
}

fn stroke(generator: &mut Pcg32, made: &[Stamp]) -> Edit
    requires some { 0 < length made.now }
    requires few { length made.now < 2 ^ 32 }
    ensures drawn { IsOfOne stroke made.now result generator.old generator.new }
    ensures ranged { IsEdit result }
{
    let id = pick(generator, made);
    let colour = below(generator, COLOUR_LIMIT + 1);
    Edit::Set {
        id,
        content: Content::ToLooks(Looks::only_stroke(colour)),
    }
}

/// A connector between two of these, perhaps from one to itself.
fn connect(generator: &mut Pcg32, made: &[Stamp]) -> Edit
    requires some { 0 < length made.now }
    requires few { length made.now < 2 ^ 32 }
    ensures drawn { IsOfOne connect made.now result generator.old generator.new }
    ensures ranged { IsEdit result }
{
    let ends = ends(generator, made);
    Edit::Connect {
        ends,
        label: Label::default(),
    }
}

fn reconnect(generator: &mut Pcg32, made: &[Stamp]) -> Edit
    requires some { 0 < length made.now }
    requires few { length made.now < 2 ^ 32 }
    ensures drawn { IsOfOne reconnect made.now result generator.old generator.new }
    ensures ranged { IsEdit result }
{
    let id = pick(generator, made);
    let ends = ends(generator, made);
    Edit::Set {
        id,
        content: Content::ToEnds(Some(ends)),
    }
}

fn ends(generator: &mut Pcg32, made: &[Stamp]) -> Ends
    requires some { 0 < length made.now }
    requires few { length made.now < 2 ^ 32 }
    ensures drawn { IsOfOne ends made.now result generator.old generator.new }
    ensures stamps { AreEnds (Some result) }
{
    let from = pick(generator, made);
    let to = pick(generator, made);
    Ends { from, to }
}

/// Three parts of a look at once.
fn style(generator: &mut Pcg32, made: &[Stamp]) -> Edit
    requires some { 0 < length made.now }
    requires few { length made.now < 2 ^ 32 }
    ensures drawn { IsOfOne style made.now result generator.old generator.new }
    ensures ranged { IsEdit result }
{
    let id = pick(generator, made);
    let colour = below(generator, COLOUR_LIMIT + 1);
    let dash = dash_of(below(generator, 3));
    let opacity = 1 + below(generator, 100) as u8;
    let looks = Looks {
        stroke: Some(colour),
        dash: Some(dash),
        opacity: Some(opacity),
        ..Looks::none()
    };
    Edit::Set {
        id,
        content: Content::ToLooks(looks),
    }
}

fn dash_of(number: u32) -> Dash
    ensures { result ≡ dash_of number }
{
    match number {
        0 => Dash::Solid,
        1 => Dash::Dashed,
        _ => Dash::Dotted,
    }
}

/// A label of two lines, the second one of a letter.
fn write(generator: &mut Pcg32, made: &[Stamp]) -> Edit
    requires some { 0 < length made.now }
    requires few { length made.now < 2 ^ 32 }
    ensures drawn { IsOfOne write made.now result generator.old generator.new }
    ensures ranged { IsEdit result }
{
    let id = pick(generator, made);
    let letter = below(generator, 26) as u8;
    Edit::Set {
        id,
        content: Content::ToText(lettered(letter)),
    }
}

/// A label of two lines, the second one of that letter, from `a` on.
fn lettered(letter: u8) -> Label
    requires { letter < 26 }
    ensures { result ≡ codes "churn\n" ++ (97 + letter) ∷ [] }
{
    label_of(&[b'c', b'h', b'u', b'r', b'n', b'\n', b'a' + letter])
}

/// The label of these bytes.
fn label_of(bytes: &[u8]) -> Label
    requires { IsLabel bytes.now }
    ensures { result ≡ bytes.now }
{
    match str::from_utf8(bytes) {
        Ok(text) => match Label::new(text) {
            Ok(label) => label,
            Err(_) => Label::default(),
        },
        Err(_) => Label::default(),
    }
}

/// One of the three others is sent a frame.
fn send(generator: &mut Pcg32, site: u8) -> Option<ScriptLine>
    requires { site ≤ 4 }
    ensures drawn { (result, generator.new) ≡ send site generator.old }
    ensures ranged { IfSome result IsPlayed }
{
    let k = below(generator, 3) as u8;
    Some(ScriptLine::Send {
        from: site,
        to: 1 + (site + k) % 4,
    })
}

/// One of so many mails is delivered, where there is one.
fn deliver(generator: &mut Pcg32, mails: u32) -> Option<ScriptLine>
    ensures drawn { (result, generator.new) ≡ deliver mails generator.old }
    ensures ranged { IfSome result IsPlayed }
{
    if mails == 0 {
        return None;
    }
    let k = below(generator, mails);
    Some(ScriptLine::Deliver { mail: 1 + k })
}

/// One of these ids.
fn pick(generator: &mut Pcg32, ids: &[Stamp]) -> Stamp
    requires some { 0 < length ids.now }
    requires few { length ids.now < 2 ^ 32 }
    ensures drawn { IsOfOne (λ picked. picked) ids.now result generator.old generator.new }
    ensures stamp { IsStamp result }
{
    let k = below(generator, ids.len() as u32);
    let id = ids[k as usize];
    let _site = id.site();
    id
}

fn place(generator: &mut Pcg32) -> i32
    ensures { (x : ℕ) × (x < 1000) × (result ≡ pos x)
        × ((x, generator.new) ≡ below 1000 generator.old) }
{
    below(generator, PLACES) as i32
}

/// The next word, modulo a number.
fn below(generator: &mut Pcg32, n: u32) -> u32
    requires { 0 < n }
    ensures drawn { (result, generator.new) ≡ below n generator.old }
    ensures less { result < n }
{
    generator.next_word() % n
}
