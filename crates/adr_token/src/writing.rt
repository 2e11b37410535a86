//! Writers of tokens, each to the end of some bytes.

ghost use Rattle.std.specs.Prelude.{◌≡◌, ◌++◌, ◌<◌, OnOk, flat_map, length, false};
ghost use Rattle.std.specs.Fmt.{decimal, digits};
ghost use Rattle.adr_token.specs.Room.{TakesRoom};
ghost use Rattle.adr_token.specs.Spelling.{escaped, two_figures, text_token, identifier_text, identifier_token};
ghost use Rattle.uuid.specs.Text.{hex_digit, lower, hyphenated_text};

use adr_values::Guid;
use itoa::Buffer;
use std::alloc::AllocError;

/// Adds bytes.
pub fn push(out: &mut Vec<u8>, bytes: &[u8]) -> Result<(), AllocError>
    ensures items { OnOk result (out.new.items ≡ out.old.items ++ bytes.now) }
    ensures room { TakesRoom (length bytes.now) out.old result out.new }
{
    out.extend_from_slice(bytes)?;
    Ok(())
}

fn figure(half: u8) -> u8
    requires { half < 16 }
    ensures { result ≡ hex_digit lower half }
{
    if half < 10 { 48 + half } else { 87 + half }
}

/// Adds a byte in two lower-case hexadecimal figures.
pub fn push_two_figures(out: &mut Vec<u8>, byte: u8) -> Result<(), AllocError>
    ensures { OnOk result (out.new.items ≡ out.old.items ++ two_figures byte) }
{
    push(out, &[figure(byte / 16), figure(byte % 16)])
}

/// Adds a byte of a text in quotes.
fn push_escaped(out: &mut Vec<u8>, byte: u8) -> Result<(), AllocError>
    ensures { OnOk result (out.new.items ≡ out.old.items ++ escaped byte) }
{
    if byte == b'"' || byte == b'\\' {
        push(out, &[b'\\', byte])
    } else if byte < 32 || byte == 127 {
        push(out, b"\\")?;
        push_two_figures(out, byte)
    } else {
        push(out, &[byte])
    }
}

/// Adds a text in quotes.
#[tactic(auto, unfolding(crate::specs::Spelling::text_token))]
pub fn push_text(out: &mut Vec<u8>, text: &[u8]) -> Result<(), AllocError>
    ensures { OnOk result (out.new.items ≡ out.old.items ++ text_token text.now) }
{
    push(out, b"\"")?;
    push_all_escaped(out, text)?;
    push(out, b"\"")
}

fn push_all_escaped(out: &mut Vec<u8>, text: &[u8]) -> Result<(), AllocError>
    ensures { OnOk result (out.new.items ≡ out.old.items ++ flat_map escaped text.now) }
{
    for byte in text {
        push_escaped(out, *byte)?;
    }
    Ok(())
}

/// Adds a number in hexadecimal figures.
#[tactic(auto, using(crate::proofs::Figures::one_figure, crate::proofs::Figures::fewer_figures))]
fn push_figures(out: &mut Vec<u8>, number: u32) -> Result<(), AllocError>
    ensures items { OnOk result (out.new.items ≡ out.old.items ++ digits 16 false number) }
    ensures room { TakesRoom (length (digits 16 false number)) out.old result out.new }
{
    if number < 16 {
        return push(out, &[figure(number as u8)]);
    }
    push_figures(out, number / 16)?;
    push(out, &[figure((number % 16) as u8)])
}

#[tactic(auto, using(crate::proofs::Figures::full_length))]
fn push_full(out: &mut Vec<u8>, id: Guid) -> Result<(), AllocError>
    ensures items { OnOk result (out.new.items ≡ out.old.items ++ hyphenated_text lower id) }
    ensures room { TakesRoom 36 out.old result out.new }
{
    let mut buffer = [0; 36];
    push(out, id.hyphenated(&mut buffer).as_bytes())
}

#[tactic(auto, using(crate::proofs::Figures::figures_short))]
fn push_identifier_text(out: &mut Vec<u8>, id: Guid) -> Result<(), AllocError>
    ensures items { OnOk result (out.new.items ≡ out.old.items ++ identifier_text id) }
    ensures room { TakesRoom 36 out.old result out.new }
{
    let number = id.as_u128();
    if number < 4_294_967_296 {
        push_figures(out, number as u32)
    } else {
        push_full(out, id)
    }
}

/// Adds an identifier: its short form below 2^32, else its full form.
#[tactic(auto, unfolding(crate::specs::Spelling::identifier_token))]
pub fn push_identifier(out: &mut Vec<u8>, id: Guid) -> Result<(), AllocError>
    ensures items { OnOk result (out.new.items ≡ out.old.items ++ identifier_token id) }
    ensures room { TakesRoom 37 out.old result out.new }
{
    push(out, b"#")?;
    push_identifier_text(out, id)
}

/// Adds a number in decimal.
pub fn push_number(out: &mut Vec<u8>, number: u64) -> Result<(), AllocError>
    ensures items { OnOk result (out.new.items ≡ out.old.items ++ decimal number) }
    ensures room { TakesRoom 20 out.old result out.new }
{
    let mut buffer = Buffer::new();
    push(out, buffer.format(number).as_bytes())
}
