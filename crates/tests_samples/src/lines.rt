//! Lines that tell of things. Want of memory is told at the end alone, so that no step has a case for it.

use std::alloc::{AllocError, Global};

/// A text that grows.
pub struct Lines {
    text: String,
    is_cut: bool,
}

impl Lines {
    pub fn new(alloc: Global) -> Lines {
        Lines {
            text: String::new(alloc),
            is_cut: false,
        }
    }

    pub fn say(&mut self, words: &str) {
        if self.text.push_str(words).is_err() {
            self.is_cut = true;
        }
    }

    pub fn number(&mut self, number: usize) {
        if write!(self.text, "{number}").is_err() {
            self.is_cut = true;
        }
    }

    pub fn value(&mut self, value: i32) {
        if write!(self.text, "{value}").is_err() {
            self.is_cut = true;
        }
    }

    /// The words, and a number behind them.
    pub fn numbered(&mut self, words: &str, number: u32) {
        self.say(words);
        self.number(number as usize);
    }

    /// The words, and a value behind them.
    pub fn valued(&mut self, words: &str, value: i32) {
        self.say(words);
        self.value(value);
    }

    /// What begins the line of the thing of this number.
    pub fn begin(&mut self, words: &str, number: usize) {
        self.say(words);
        self.number(number);
        self.say(" ");
    }

    pub fn end_line(&mut self) {
        self.say("\n");
    }

    /// All that was said, if memory sufficed.
    pub fn into_text(self) -> Result<String, AllocError> {
        let Lines { text, is_cut } = self;
        if is_cut { Err(AllocError) } else { Ok(text) }
    }
}

/// What is told of each thing of a list.
pub trait Told {
    /// Writes the lines of the thing of this number.
    fn tell(&self, number: usize, lines: &mut Lines);
}

/// Writes the lines of all things, in order.
pub fn tell_all<T: Told>(things: &[T], lines: &mut Lines) {
    for (number, thing) in things.iter().enumerate() {
        thing.tell(number, lines);
    }
}
