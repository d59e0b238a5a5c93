//! A line that is under way.
ghost use Rattle.std.specs.Prelude.{◌≡◌, ℕ, List, [], ◌∷◌, ◌++◌, true, flat_map, IfOk, IfSome, OnOk};
ghost use Rattle.std.specs.List.{list_all};
ghost use Rattle.log.specs.Kv.{value_text};
ghost use Rattle.program_log.specs.lines.Lines.{IsTimeText, is_visible, level_text, log_field, log_head, span_pairs};

use crate::lines::line::LogLine;
use crate::lines::text::{field_of, head_of};
use crate::lines::time::time_text;
use jiff::Timestamp;
use log::kv::{Source, VisitSource};
use log::span::{Spans, VisitSpans};
use log::{Level, kv};
use std::alloc::{AllocError, Global};
use std::fmt::Display;
use std::marker::Model;

/// The bytes of a line, as far as it is written. Each is visible. Contracts see the bytes.
#[derive(Drop)]
pub struct Draft {
    alloc: Global,
    bytes: Vec<u8>,
}

impl Model for Draft {
    ghost use Rattle.std.specs.Prelude.{◌≡◌, ℕ, List, true};
    ghost use Rattle.std.specs.List.{list_all};
    ghost use Rattle.program_log.specs.lines.Lines.{is_visible};

    ghost Value = { List ℕ };

    ghost view = { λ d. d.bytes.items };

    ghost invariant = { λ d. list_all is_visible d.bytes.items ≡ true };
}

/// The word of a level.
fn level_word(level: Level) -> &'static [u8]
    ensures { result.now ≡ level_text level }
{
    match level {
        Level::Error => b"error",
        Level::Warn => b"warn",
        Level::Info => b"info",
        Level::Debug => b"debug",
        Level::Trace => b"trace",
    }
}

impl Draft {
    /// A line that has its time, its level and its event.
    pub fn begun<D: Display>(
        alloc: Global,
        instant: Timestamp,
        level: Level,
        event: &D,
    ) -> Result<Draft, AllocError>
        ensures { IfOk result (λ d. IfSome (D.output event.now) (λ text. (time : List ℕ) × IsTimeText instant time
            × (d ≡ log_head time (level_text level) text))) }
    {
        let text = event.to_string(alloc)?;
        let time = time_text(instant);
        let bytes = head_of(
            alloc,
            time.as_str().as_bytes(),
            level_word(level),
            text.as_bytes(),
        )?;
        Ok(Draft { alloc, bytes })
    }

    // Puts bytes that are visible after the others.
    fn add(&mut self, text: &[u8]) -> Result<(), AllocError>
        requires { list_all is_visible text.now ≡ true }
        ensures { OnOk result (self.new ≡ self.old ++ text.now) }
    {
        self.bytes.extend_from_slice(text)?;
        Ok(())
    }

    fn add_field<D: Display>(
        &mut self,
        key: &str,
        value: &kv::Value<'_, D>,
    ) -> Result<(), AllocError>
        ensures { OnOk result (IfSome (value_text D.output value.now) (λ text. self.new ≡ self.old ++ log_field (key.now, text))) }
    {
        let alloc = self.alloc;
        let text = value.to_string(alloc)?;
        let field = field_of(alloc, key.as_bytes(), text.as_bytes())?;
        self.add(&field)
    }

    /// Adds the fields of the spans, from the outermost on.
    pub fn add_spans<S: Spans>(&mut self, spans: &S) -> Result<(), AllocError>
        ensures { OnOk result (IfSome (S.scopes spans.now) (λ scopes. self.new ≡ self.old ++ flat_map log_field (span_pairs scopes))) }
    {
        match spans.visit(self) {
            Ok(()) => Ok(()),
            Err(_) => Err(AllocError),
        }
    }

    /// Adds a record's own fields.
    pub fn add_pairs<K: Source>(&mut self, pairs: &K) -> Result<(), AllocError>
        ensures { OnOk result (IfSome (K.pairs pairs.now) (λ ps. self.new ≡ self.old ++ flat_map log_field ps)) }
    {
        match pairs.visit(self) {
            Ok(()) => Ok(()),
            Err(_) => Err(AllocError),
        }
    }

    /// The line, which has ended.
    pub fn ended(self) -> Result<LogLine, AllocError>
        ensures { IfOk result (λ line. line ≡ self ++ 0x0A ∷ []) }
    {
        let Draft { alloc: _, bytes } = self;
        LogLine::of(bytes)
    }
}

impl VisitSource for Draft {
    ghost use Rattle.std.specs.Prelude.{◌≡◌, ◌++◌};
    ghost use Rattle.program_log.specs.lines.Lines.{log_field};

    ghost visit_pair_gives = { λ old pair new. new ≡ old ++ log_field pair };

    fn visit_pair<D: Display>(
        &mut self,
        key: &str,
        value: kv::Value<'_, D>,
    ) -> Result<(), kv::Error> {
        match self.add_field(key, &value) {
            Ok(()) => Ok(()),
            Err(_) => Err(kv::Error::Fmt),
        }
    }
}

impl VisitSpans for Draft {
    ghost use Rattle.std.specs.Prelude.{◌≡◌, ◌++◌, flat_map};
    ghost use Rattle.program_log.specs.lines.Lines.{log_field};

    ghost visit_span_gives = { λ old scope new. new ≡ old ++ flat_map log_field scope.1 };

    fn visit_span<K: Source>(&mut self, _name: &str, fields: &K) -> Result<(), kv::Error> {
        match self.add_pairs(fields) {
            Ok(()) => Ok(()),
            Err(_) => Err(kv::Error::Fmt),
        }
    }
}
