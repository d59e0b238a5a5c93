//! An answer while it is written.
use crate::reading::Unanswered;
use std::alloc::{AllocError, Global};
use std::fmt::{Display, Write};
use vt_value::{Refusal, Row, Value};

/// How many equal bytes are written as a run.
const LONG_RUN: usize = 64;

/// The text of an answer. Once a growth was refused the answer has failed.
#[derive(Drop)]
pub struct CaseAnswer {
    pub text: String,
    pub has_failed: bool,
}

impl CaseAnswer {
    /// An answer without text.
    pub fn new(alloc: Global) -> CaseAnswer {
        CaseAnswer {
            text: String::new(alloc),
            has_failed: false,
        }
    }

    fn note(&mut self, done: Result<(), AllocError>) {
        if done.is_err() {
            self.has_failed = true;
        }
    }

    /// Puts a word as it is.
    pub fn put(&mut self, word: &str) {
        let done = self.text.push_str(word);
        self.note(done);
    }

    /// Puts a value as it shows itself.
    pub fn show<T: Display>(&mut self, value: &T) {
        let done = write!(self.text, "{value}");
        self.note(done);
    }

    /// Puts a number.
    pub fn put_number(&mut self, number: u64) {
        self.show(&number);
    }

    /// Puts how a scene went: `ok` if each thing was as it is to be, else `WRONG`.
    pub fn put_went(&mut self, went: Result<bool, Refusal>) -> Result<(), Unanswered> {
        self.put(if went? { "ok" } else { "WRONG" });
        Ok(())
    }

    /// Puts one of two words.
    pub fn put_truth(&mut self, truth: bool) {
        self.put(if truth { "true" } else { "false" });
    }

    fn put_char(&mut self, letter: char) {
        let done = self.text.push(letter);
        self.note(done);
    }

    fn put_digits(&mut self, byte: u8) {
        let digits = b"0123456789abcdef";
        self.put_char(char::from(digits[usize::from(byte / 16)]));
        self.put_char(char::from(digits[usize::from(byte % 16)]));
    }

    fn put_run(&mut self, run: &[u8]) {
        if let Some(byte) = run.first()
            && run.len() >= LONG_RUN
        {
            self.put("(");
            self.put_digits(*byte);
            self.put("*");
            self.put_number(run.len() as u64);
            self.put(")");
            return;
        }
        for byte in run {
            self.put_digits(*byte);
        }
    }

    /// Puts bytes in hexadecimal, a long run as `(07*300)`.
    pub fn put_bytes(&mut self, bytes: &[u8]) {
        for run in bytes.chunk_by(|one, next| one == next) {
            self.put_run(run);
        }
    }

    /// Puts bytes in hexadecimal, `.` if there are none.
    pub fn put_some_bytes(&mut self, bytes: &[u8]) {
        if bytes.is_empty() {
            self.put(".");
        }
        self.put_bytes(bytes);
    }

    fn put_letter(&mut self, byte: u8) {
        if 0x20 <= byte && byte <= 0x7E && byte != b'\\' {
            self.put_char(char::from(byte));
        } else {
            self.put("\\x");
            self.put_digits(byte);
        }
    }

    /// Puts a text: the bytes 20 to 7E but the backslash as they are, each other as `\x` and two digits.
    pub fn put_text(&mut self, text: &[u8]) {
        for byte in text {
            self.put_letter(*byte);
        }
    }

    fn put_value(&mut self, value: &Value) {
        match value {
            Value::Null => self.put("NULL"),
            Value::Int(number) => self.show(number),
            Value::Bytes(text) => {
                self.put("x");
                self.put_bytes(text.as_slice());
            }
        }
    }

    /// Puts values with blanks between them.
    pub fn put_row(&mut self, row: &[Value]) {
        for (i, value) in row.iter().enumerate() {
            self.put(if i == 0 { "" } else { " " });
            self.put_value(value);
        }
    }

    /// Puts rows, each in brackets.
    pub fn put_rows(&mut self, rows: &[Row]) {
        for row in rows {
            self.put("[");
            self.put_row(row.as_slice());
            self.put("]");
        }
    }
}
