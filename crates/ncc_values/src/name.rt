//! Names of dimensions, variables and attributes.

ghost use Rattle.std.specs.Prelude.{◌≡◌, ◌↔◌, IsTrue, IsOk, IfOk, IsAscii, chars};
ghost use Rattle.ncc_values.specs.Name.{can_begin, can_follow, can_begin_plain, can_follow_plain, are_name_characters, FitsAsName};

use std::alloc::{AllocError, Global};
use unicode_normalization::is_nfc;

/// Which bytes can follow in a name that is ASCII.
static FOLLOWS: [bool; 256] = [
    false, false, false, false, false, false, false, false, false, false, false, false, false,
    false, false, false, false, false, false, false, false, false, false, false, false, false,
    false, false, false, false, false, false, true, true, true, true, true, true, true, true, true,
    true, true, true, true, true, true, false, true, true, true, true, true, true, true, true,
    true, true, true, true, true, true, true, true, true, true, true, true, true, true, true, true,
    true, true, true, true, true, true, true, true, true, true, true, true, true, true, true, true,
    true, true, true, true, true, true, true, true, true, true, true, true, true, true, true, true,
    true, true, true, true, true, true, true, true, true, true, true, true, true, true, true, true,
    true, true, true, true, true, true, true, false, false, false, false, false, false, false,
    false, false, false, false, false, false, false, false, false, false, false, false, false,
    false, false, false, false, false, false, false, false, false, false, false, false, false,
    false, false, false, false, false, false, false, false, false, false, false, false, false,
    false, false, false, false, false, false, false, false, false, false, false, false, false,
    false, false, false, false, false, false, false, false, false, false, false, false, false,
    false, false, false, false, false, false, false, false, false, false, false, false, false,
    false, false, false, false, false, false, false, false, false, false, false, false, false,
    false, false, false, false, false, false, false, false, false, false, false, false, false,
    false, false, false, false, false, false, false, false, false, false, false, false, false,
    false, false, false, false, false,
];

/// Whether the bytes fit as a name: UTF-8 in the normal form NFC, of at least one character, the
/// first a letter, a digit, an underscore or past ASCII, none an ASCII control or a slash, the last no
/// space. On ASCII it allocates nothing.
pub fn name_fits(alloc: Global, name: &[u8]) -> Result<bool, AllocError>
    ensures fits { IfOk result (λ fits. IsTrue fits ↔ FitsAsName name.now) }
    ensures ascii { IsAscii name.now → IsOk result }
{
    if is_plain(name) {
        return Ok(true);
    }
    text_fits(alloc, name)
}

/// The same, of a name that may have more than ASCII. It stands apart, so that most names don't pay for its locals.
#[inline(never)]
fn text_fits(alloc: Global, name: &[u8]) -> Result<bool, AllocError>
    ensures fits { IfOk result (λ fits. IsTrue fits ↔ FitsAsName name.now) }
    ensures ascii { IsAscii name.now → IsOk result }
{
    let Ok(text) = std::str::from_utf8(name) else {
        return Ok(false);
    };
    if !has_name_characters(text) {
        return Ok(false);
    }
    is_nfc(alloc, text)
}

/// Whether the bytes are ASCII that fits as a name: each byte is looked at once.
fn is_plain(name: &[u8]) -> bool
    ensures ascii { IsTrue result → IsAscii name.now }
    ensures characters { IsTrue result → IsTrue (are_name_characters name.now) }
{
    let Some((first, rest)) = name.split_first() else {
        return false;
    };
    let mut last = *first;
    for byte in rest {
        if !can_follow_byte(*byte) {
            return false;
        }
        last = *byte;
    }
    can_begin_byte(*first) && last != b' '
}

/// Whether it is ASCII that can begin a name.
#[inline]
fn can_begin_byte(byte: u8) -> bool
    ensures { result ≡ can_begin_plain byte }
{
    byte.is_ascii_alphanumeric() || byte == b'_'
}

/// Whether it is ASCII that can follow in a name.
#[inline]
fn can_follow_byte(byte: u8) -> bool
    ensures { result ≡ can_follow_plain byte }
{
    FOLLOWS[byte as usize]
}

fn has_name_characters(text: &str) -> bool
    ensures { result ≡ are_name_characters (chars text.now) }
{
    let mut characters = text.chars();
    let Some(first) = characters.next() else {
        return false;
    };
    let mut last = first;
    for character in characters {
        if !can_follow(character) {
            return false;
        }
        last = character;
    }
    can_begin(first) && last != ' '
}

fn can_begin(character: char) -> bool
    ensures { result ≡ can_begin character }
{
    character.is_ascii_alphanumeric() || character == '_' || !character.is_ascii()
}

fn can_follow(character: char) -> bool
    ensures { result ≡ can_follow character }
{
    matches!(character, ' '..='~') && character != '/' || !character.is_ascii()
}
