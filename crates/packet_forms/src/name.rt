//! Names of applications, and their execution counters.

ghost use Rattle.std.specs.Prelude.{◌≡◌, ◌==◌, if◌then◌else◌, Some, None, true, codes, length, position};
ghost use Rattle.std.specs.List.{list_all};
ghost use Rattle.packet_forms.specs.Names.{is_name_byte, is_name_text, is_name, name_text, name_of};

use crate::pieces::{are_zeros, behind, front, place};
use std::marker::Model;

/// A name of 1 to 19 letters, digits and underscores, seen as 20 bytes with zero bytes behind it.
#[derive(Clone, Copy, Debug, PartialEq, Eq)]
pub struct Name {
    bytes: [u8; 20],
}

impl Model for Name {
    ghost use Rattle.std.specs.Prelude.{◌≡◌, List, ℕ, true};
    ghost use Rattle.packet_forms.specs.Names.{is_name};

    ghost Value = { List ℕ };

    ghost view = { λ a. a.bytes };

    ghost invariant = { λ a. is_name a.bytes ≡ true };

    ghost inverse = { λ bytes. record { bytes = bytes } };
}

/// The execution counter of an application.
#[derive(Clone, Copy, Debug, Default, PartialEq, Eq)]
pub struct Counter {
    pub name: Name,
    pub value: u32,
}

impl Name {
    /// The 20 bytes of the name.
    pub fn bytes(&self) -> &[u8]
        ensures value { result.now ≡ self.now }
        ensures size { length result.now ≡ 20 }
        ensures name { is_name self.now ≡ true }
    {
        &self.bytes
    }

    /// The name in these 20 bytes, or None where they are no name and zero bytes behind it.
    pub fn from_bytes(bytes: &[u8]) -> Option<Name>
        ensures { result ≡ (if is_name bytes.now then Some bytes.now else None) }
    {
        if !is_name(bytes) {
            return None;
        }
        let mut places = [0; 20];
        place(&mut places, 0, bytes);
        Some(Name { bytes: places })
    }

    /// The name of a text of 1 to 19 letters, digits and underscores, or None where it is another.
    pub fn from_text(text: &str) -> Option<Name>
        ensures { result ≡ (if is_name_text text.now then Some (name_of text.now) else None) }
    {
        let text = text.as_bytes();
        if !is_name_text(text) {
            return None;
        }
        let mut places = [0; 20];
        place(&mut places, 0, text);
        Some(Name { bytes: places })
    }

    /// The characters of the name.
    pub fn text(&self) -> &str
        ensures value { result.now ≡ name_text self.now }
        ensures name { is_name_text result.now ≡ true }
    {
        match str::from_utf8(text_part(&self.bytes)) {
            Ok(text) => text,
            Err(_) => unreachable!(),
        }
    }
}

/// The name with this text, which is known to be one.
pub fn named(text: &str) -> Name
    requires { is_name_text text.now ≡ true }
    ensures { result ≡ name_of text.now }
{
    match Name::from_text(text) {
        Some(name) => name,
        None => unreachable!(),
    }
}

/// The bytes before the first zero byte, or all where none is zero.
fn text_part(bytes: &[u8]) -> &[u8]
    ensures { result.now ≡ name_text bytes.now }
{
    match first_zero(bytes) {
        Some(end) => front(bytes, end),
        None => bytes,
    }
}

fn first_zero(bytes: &[u8]) -> Option<usize>
    ensures { result ≡ position (λ b. b == 0) bytes.now }
{
    bytes.iter().position(|byte| *byte == 0)
}

/// Whether these are 20 bytes: a name's text, and zero bytes behind it.
#[tactic(auto, unfolding(crate::specs::Names::is_name))]
fn is_name(bytes: &[u8]) -> bool
    ensures { result ≡ is_name bytes.now }
{
    let text = text_part(bytes);
    let is_text = is_name_text(text);
    let is_padded = are_zeros(behind(bytes, text.len()));
    bytes.len() == 20 && is_text && is_padded
}

/// Whether these are 1 to 19 letters, digits and underscores.
#[tactic(auto, unfolding(crate::specs::Names::is_name_text))]
fn is_name_text(text: &[u8]) -> bool
    ensures { result ≡ is_name_text text.now }
{
    let are_name_bytes = are_name_bytes(text);
    0 < text.len() && text.len() <= 19 && are_name_bytes
}

fn are_name_bytes(text: &[u8]) -> bool
    ensures { result ≡ list_all is_name_byte text.now }
{
    text.iter().all(|byte| is_name_byte(*byte))
}

fn is_name_byte(byte: u8) -> bool
    ensures { result ≡ is_name_byte byte }
{
    (48 <= byte && byte <= 57)
        || (65 <= byte && byte <= 90)
        || (97 <= byte && byte <= 122)
        || byte == 95
}

impl Default for Name {
    /// The name `A`.
    #[tactic(auto, unfolding(crate::specs::Names::is_name, crate::specs::Names::is_name_text, crate::specs::Names::name_text))]
    fn default() -> Name
        ensures { result ≡ name_of (codes "A") }
    {
        let mut bytes = [0; 20];
        bytes[0] = b'A';
        Name { bytes }
    }
}
