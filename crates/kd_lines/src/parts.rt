//! A line's command and items, each with the words that belong to it.

use crate::tokens::{LineError, Token, number_of, unquoted};
use kd_types::{Blob, Text};
use std::alloc::{AllocError, Global};

/// A number and its name.
#[derive(Clone, Copy, Debug)]
struct Number<'a> {
    name: &'a [u8],
    value: u64,
}

/// A command or an item: its name, its numbers, its flags and other words, and what it has in
/// quotes.
#[derive(Debug, Drop)]
pub(crate) struct Part<'a> {
    name: &'a [u8],
    numbers: Vec<Number<'a>>,
    marks: Vec<&'a [u8]>,
    text: Option<Blob>,
}

/// Whether the bytes are this text.
pub(crate) fn is(word: &[u8], text: &str) -> bool {
    word == text.as_bytes()
}

/// Whether a word begins with a capital letter, as the names of commands and items do.
fn is_name(word: &[u8]) -> bool {
    match word {
        [first, ..] => first.is_ascii_uppercase(),
        [] => false,
    }
}

impl<'a> Part<'a> {
    /// A part of this name, without words yet.
    pub(crate) fn of(alloc: Global, name: &'a [u8]) -> Part<'a> {
        Part {
            name,
            numbers: Vec::new(alloc),
            marks: Vec::new(alloc),
            text: None,
        }
    }

    /// Adds a word that has no `=`, or a name, `=` and a number.
    fn add_word(&mut self, word: &'a [u8]) -> Result<(), LineError> {
        let Some(place) = word.iter().position(|byte| *byte == b'=') else {
            self.marks.push(word)?;
            return Ok(());
        };
        let (name, behind) = word.split_at(place);
        let [_, digits @ ..] = behind else {
            return Err(LineError::Bad);
        };
        let Some(value) = number_of(digits) else {
            return Err(LineError::Bad);
        };
        self.numbers.push(Number { name, value })?;
        Ok(())
    }

    /// Adds what stands behind the name.
    fn add(&mut self, alloc: Global, token: Token<'a>) -> Result<(), LineError> {
        match token {
            Token::Word(word) => self.add_word(word),
            Token::Quoted(_) if self.text.is_some() => Err(LineError::Bad),
            Token::Quoted(text) => {
                self.text = Some(Blob::of(unquoted(alloc, text)?));
                Ok(())
            }
        }
    }

    /// Its name.
    pub(crate) fn name(&self) -> &'a [u8] {
        self.name
    }

    /// Its flags and other words.
    pub(crate) fn marks(&self) -> &[&'a [u8]] {
        &self.marks
    }

    /// The number of this name; 0 where there is none.
    pub(crate) fn number(&self, name: &str) -> u64 {
        for number in &self.numbers {
            if is(number.name, name) {
                return number.value;
            }
        }
        0
    }

    /// Whether it has a number of this name.
    pub(crate) fn has_number(&self, name: &str) -> bool {
        self.numbers.iter().any(|number| is(number.name, name))
    }

    /// Whether it has no number but of these names.
    pub(crate) fn has_only(&self, names: &[&str]) -> bool {
        for number in &self.numbers {
            let mut is_known = false;
            for name in names {
                is_known |= is(number.name, name);
            }
            if !is_known {
                return false;
            }
        }
        true
    }

    /// Whether it has bytes in quotes.
    pub(crate) fn has_bytes(&self) -> bool {
        self.text.is_some()
    }

    /// The bytes in quotes, moved out.
    pub(crate) fn into_blob(self) -> Result<Blob, LineError> {
        let Part {
            name: _,
            numbers: _,
            marks: _,
            text,
        } = self;
        match text {
            Some(text) => Ok(text),
            None => Err(LineError::Bad),
        }
    }

    /// A copy of the bytes in quotes, as a text.
    pub(crate) fn copy_text(&self, alloc: Global) -> Result<Text, LineError> {
        match &self.text {
            Some(text) => Ok(Text::of(alloc, text.bytes())?),
            None => Err(LineError::Bad),
        }
    }
}

/// The parts of a line, from the name of its command on.
pub(crate) fn parts_of<'a>(
    alloc: Global,
    tokens: &[Token<'a>],
) -> Result<Vec<Part<'a>>, LineError> {
    let mut parts: Vec<Part<'a>> = Vec::new(alloc);
    for token in tokens {
        if let Token::Word(word) = *token {
            if is_name(word) {
                parts.push(Part::of(alloc, word))?;
                continue;
            }
        }
        match parts.last_mut() {
            Some(part) => part.add(alloc, *token)?,
            None => return Err(LineError::Bad),
        }
    }
    Ok(parts)
}
