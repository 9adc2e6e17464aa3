//! Ids, colours and kinds as strings.

ghost use Rattle.std.specs.Prelude.{◌≡◌, ◌<◌, ◌++◌, ◌∷◌, [], IfOk, OnOk, decimal, string_bytes};
ghost use Rattle.gd_lines.specs.Text.{hex_digit, nibble, high_digits, colour_text, id_text, shape_word};

use gd_base::{Shape, Stamp};
use std::alloc::{AllocError, Global};

#[tactic(auto, unfolding(gd_lines::specs::Text::id_text))]
pub fn id_of(alloc: Global, id: Stamp) -> Result<String, AllocError>
    ensures { IfOk result (λ text. string_bytes text ≡ id_text id) }
{
    pair_of(alloc, id.clock(), id.site())
}

fn pair_of(alloc: Global, clock: u64, site: u8) -> Result<String, AllocError>
    ensures { IfOk result (λ text. string_bytes text ≡ decimal clock ++ 46 ∷ decimal site) }
{
    format!(in alloc; "{clock}.{site}")
}

/// The colour, with at least six digits.
#[tactic(auto, unfolding(gd_lines::specs::Text::colour_text))]
pub fn colour_of(alloc: Global, colour: u32) -> Result<String, AllocError>
    ensures { IfOk result (λ text. string_bytes text ≡ colour_text colour) }
{
    let mut text = String::new(alloc);
    push_high_digits(&mut text, colour)?;
    push_digit(&mut text, colour, 0x10_0000)?;
    push_digit(&mut text, colour, 0x1_0000)?;
    push_digit(&mut text, colour, 0x1000)?;
    push_digit(&mut text, colour, 0x100)?;
    push_digit(&mut text, colour, 0x10)?;
    push_digit(&mut text, colour, 1)?;
    Ok(text)
}

/// Puts the digits last that stand in front of the last six.
#[tactic(auto, unfolding(gd_lines::specs::Text::high_digits))]
fn push_high_digits(text: &mut String, colour: u32) -> Result<(), AllocError>
    ensures { OnOk result (string_bytes text.new ≡ string_bytes text.old ++ high_digits colour) }
{
    if colour >= 0x1000_0000 {
        push_digit(text, colour, 0x1000_0000)?;
        push_digit(text, colour, 0x100_0000)
    } else if colour >= 0x100_0000 {
        push_digit(text, colour, 0x100_0000)
    } else {
        Ok(())
    }
}

/// Puts the digit of that weight last.
fn push_digit(text: &mut String, colour: u32, weight: u32) -> Result<(), AllocError>
    requires { 0 < weight }
    ensures { OnOk result
        (string_bytes text.new ≡ string_bytes text.old ++ nibble colour weight ∷ []) }
{
    text.push(char::from(nibble(colour, weight)))
}

/// The hexadecimal digit of that weight.
#[tactic(auto, unfolding(gd_lines::specs::Text::nibble))]
fn nibble(number: u32, weight: u32) -> u8
    requires { 0 < weight }
    ensures value { result ≡ nibble number weight }
    ensures ascii { result < 128 }
{
    hex_digit((number / weight % 16) as u8)
}

#[tactic(auto, unfolding(gd_lines::specs::Text::hex_digit))]
fn hex_digit(digit: u8) -> u8
    requires { digit < 16 }
    ensures value { result ≡ hex_digit digit }
    ensures ascii { result < 128 }
{
    if digit < 10 {
        b'0' + digit
    } else {
        b'A' + digit - 10
    }
}

pub fn kind_of(kind: Shape) -> &'static str
    ensures { result.now ≡ shape_word kind }
{
    match kind {
        Shape::Rect => "rect",
        Shape::Ellipse => "ellipse",
        Shape::Line => "line",
        Shape::Text => "text",
    }
}
