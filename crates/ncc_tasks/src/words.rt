//! The words of the command line, which need not be UTF-8.

ghost use Rattle.std.specs.Prelude.{◌≡◌};

use ncc_lines::push_name;
use std::alloc::{AllocError, Global};
use std::env::{Env, FillError};
use std::str;

/// A word that isn't UTF-8, and the text that stands for it.
#[derive(Drop)]
struct Alias {
    text: String,
    bytes: Vec<u8>,
}

/// The words of a command line, the program's name first.
#[derive(Drop)]
pub struct Words {
    texts: Vec<String>,
    aliases: Vec<Alias>,
}

/// What stands for a word that isn't UTF-8: its bytes as `list` prints a name, and a byte that no word has.
fn alias_text(alloc: Global, bytes: &[u8]) -> Result<String, AllocError> {
    let mut text = Vec::new(alloc);
    push_name(&mut text, bytes)?;
    text.push(1)?;
    match str::from_utf8(&text) {
        Ok(shown) => shown.to_string(alloc),
        Err(_) => Ok(String::new(alloc)),
    }
}

impl Words {
    ghost use Rattle.ncc_tasks.specs.Words.{bytes_named};

    pub fn new(alloc: Global) -> Words {
        Words {
            texts: Vec::new(alloc),
            aliases: Vec::new(alloc),
        }
    }

    /// Adds a word.
    pub fn push(&mut self, alloc: Global, bytes: Vec<u8>) -> Result<(), AllocError> {
        if let Ok(text) = str::from_utf8(&bytes) {
            self.texts.push(text.to_string(alloc)?)?;
            return Ok(());
        }
        self.texts.push(alias_text(alloc, &bytes)?)?;
        self.aliases.push(Alias {
            text: alias_text(alloc, &bytes)?,
            bytes,
        })?;
        Ok(())
    }

    /// The texts of the words.
    pub fn texts(&self) -> &[String] {
        &self.texts
    }

    /// The bytes of a word, by its text.
    pub fn bytes_of<'a>(&'a self, text: &'a str) -> &'a [u8]
        ensures { result.now ≡ bytes_named self.now text.now }
    {
        for alias in &self.aliases {
            if alias.text.as_str() == text {
                return &alias.bytes;
            }
        }
        text.as_bytes()
    }
}

/// How often the room for a word is doubled at most.
const DOUBLINGS: usize = 32;

/// A word of the command line by its number, if there are so many.
fn read_word<R: Env>(rt: &R, alloc: Global, number: usize) -> Result<Option<Vec<u8>>, AllocError> {
    let mut size: usize = 256;
    for _ in 0..DOUBLINGS {
        let mut word = vec![in alloc; 0; size]?;
        match rt.arg(number, &mut word) {
            Ok(n) => {
                word.truncate(n);
                return Ok(Some(word));
            }
            Err(FillError::NotPresent) => return Ok(None),
            Err(FillError::TooLong) => size = size.saturating_mul(2),
        }
    }
    Err(AllocError)
}

/// The command line.
pub fn read_words<R: Env>(rt: &R, alloc: Global) -> Result<Words, AllocError> {
    let mut words = Words::new(alloc);
    for number in 0..usize::MAX {
        match read_word(rt, alloc, number)? {
            Some(word) => words.push(alloc, word)?,
            None => break,
        }
    }
    Ok(words)
}
