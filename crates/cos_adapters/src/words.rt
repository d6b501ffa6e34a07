// The words that the system hands to a program.

use std::alloc::Global;
use std::env::{Env, FillError};
use std::str;

/// The longest word that the system hands to a program, in bytes.
const LONGEST: usize = 131_072;

/// The words after the program's name, as far as they can be read.
#[derive(Drop)]
pub enum Words {
    All(Vec<String>),
    /// The words before one that isn't UTF-8.
    Misspelled(Vec<String>),
    NoMemory,
}

/// Reads the words after the program's name.
pub fn read_words<R: Env>(alloc: Global, rt: &R) -> Words {
    let mut words = Vec::new(alloc);
    let mut buffer = [0u8; LONGEST];
    for place in 1..usize::MAX {
        let length = match rt.arg(place, &mut buffer) {
            Ok(length) => length,
            Err(FillError::NotPresent) => return Words::All(words),
            Err(FillError::TooLong) => return Words::NoMemory,
        };
        let Ok(text) = str::from_utf8(&buffer[..length]) else {
            return Words::Misspelled(words);
        };
        let Ok(word) = String::from_str(alloc, text) else {
            return Words::NoMemory;
        };
        match words.push(word) {
            Ok(()) => {}
            Err(_) => return Words::NoMemory,
        }
    }
    Words::All(words)
}
