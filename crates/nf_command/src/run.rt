//! `Said`: what the words of `run` say, one word after another.

ghost use Rattle.std.specs.Prelude.{◌≡◌, IfOk, codes, unwrap_or, option_map};
ghost use Rattle.nf_value.specs.View.{plain_of};
ghost use Rattle.nf_command.specs.Words.{setting_of as setting_in, parameter_in as words_parameter_in};
ghost use Rattle.nf_command.specs.Commands.{Reads};
ghost use Rattle.nf_command.specs.Run as words;

use crate::command::RunWords;
use crate::fault::UsageFault;
use crate::numbers::number_within;
use crate::values::{copied, is_dashed, is_value, parameter_in, value_of};
use nf_pairs::{has_key, with_pair};
use nf_value::{Mem, Pairs, Txt, Value};
use std::alloc::Global;
use std::mem::replace;

/// An option that takes the next word.
#[derive(Debug, Clone, Copy, PartialEq, Eq, Drop)]
pub(crate) enum Setting {
    Work,
    ParamsFile,
    Trace,
    Queue,
}

/// What the word before waits for.
#[derive(Drop)]
pub(crate) enum Awaited {
    /// Nothing.
    Nothing,
    /// The option's value, which must come.
    Value(Setting),
    /// The parameter's value, which may come.
    Parameter(Txt),
}

/// What the words of `run` say so far.
#[derive(Drop)]
pub(crate) struct Said {
    pub(crate) file: Option<Txt>,
    pub(crate) resume: bool,
    pub(crate) work: Option<Txt>,
    pub(crate) params_file: Option<Txt>,
    pub(crate) trace: Option<Txt>,
    pub(crate) queue: Option<u32>,
    pub(crate) params: Pairs,
    pub(crate) awaited: Awaited,
}

impl Said {
    /// Nothing is said yet.
    pub(crate) fn nothing(alloc: Global) -> Said
        ensures { result ≡ words.nothing }
    {
        Said {
            file: None,
            resume: false,
            work: None,
            params_file: None,
            trace: None,
            queue: None,
            params: Pairs::of(Vec::new(alloc)),
            awaited: Awaited::Nothing,
        }
    }

    /// What is said with one word more, which has the number `at`.
    pub(crate) fn with_word(
        mut self,
        alloc: Global,
        at: usize,
        word: &str,
    ) -> Result<Said, UsageFault>
        ensures { Reads (words.with_word at word.now self) result }
    {
        match replace(&mut self.awaited, Awaited::Nothing) {
            Awaited::Nothing => self.with_new(alloc, at, word),
            Awaited::Value(setting) => self.with_setting(alloc, setting, at, word),
            Awaited::Parameter(name) => self.after_parameter(alloc, name, at, word),
        }
    }

    /// The word is the value of an option.
    fn with_setting(
        mut self,
        alloc: Global,
        setting: Setting,
        at: usize,
        word: &str,
    ) -> Result<Said, UsageFault>
        ensures { Reads (words.with_setting setting at word.now self) result }
    {
        match setting {
            Setting::Work => self.work = Some(copied(alloc, word)?),
            Setting::ParamsFile => self.params_file = Some(copied(alloc, word)?),
            Setting::Trace => self.trace = Some(copied(alloc, word)?),
            Setting::Queue => match number_within(1, 16, word) {
                Some(number) => self.queue = Some(number as u32),
                None => return Err(UsageFault::BadNumber { at }),
            },
        }
        Ok(self)
    }

    /// The word is the value of a parameter, or begins something after it.
    fn after_parameter(
        self,
        alloc: Global,
        name: Txt,
        at: usize,
        word: &str,
    ) -> Result<Said, UsageFault>
        ensures { Reads (words.after_parameter name at word.now self) result }
    {
        if is_value(word) {
            let value = value_of(alloc, word)?;
            Ok(self.with_parameter(name, value)?)
        } else {
            let said = self.with_parameter(name, Value::Truth(true))?;
            said.with_new(alloc, at, word)
        }
    }

    fn with_parameter(self, name: Txt, value: Value) -> Result<Said, Mem>
        ensures { IfOk result (λ s. s ≡ words.with_parameter name (plain_of value) self) }
    {
        let params = with_pair(self.params, name, value)?;
        Ok(Said { params, ..self })
    }

    /// The word begins something.
    fn with_new(mut self, alloc: Global, at: usize, word: &str) -> Result<Said, UsageFault>
        ensures { Reads (words.as_new at word.now self) result }
    {
        if word == "-resume" {
            if self.resume {
                return Err(UsageFault::Twice { at });
            }
            self.resume = true;
            return Ok(self);
        }
        match setting_of(word) {
            Some(setting) => self.awaiting_setting(setting, at),
            None => self.with_parameter_word(alloc, at, word),
        }
    }

    /// The word is an option that takes the next word.
    fn awaiting_setting(mut self, setting: Setting, at: usize) -> Result<Said, UsageFault>
        ensures { Reads (words.as_given_setting at setting self) result }
    {
        if self.is_given(setting) {
            return Err(UsageFault::Twice { at });
        }
        self.awaited = Awaited::Value(setting);
        Ok(self)
    }

    fn is_given(&self, setting: Setting) -> bool
        ensures { result ≡ words.is_given setting self.now }
    {
        match setting {
            Setting::Work => self.work.is_some(),
            Setting::ParamsFile => self.params_file.is_some(),
            Setting::Trace => self.trace.is_some(),
            Setting::Queue => self.queue.is_some(),
        }
    }

    /// The word names a parameter, or is FILE.
    fn with_parameter_word(self, alloc: Global, at: usize, word: &str) -> Result<Said, UsageFault>
        ensures { Reads (words.as_parameter at (words_parameter_in word.now) word.now self) result }
    {
        match parameter_in(word) {
            Some((name, value)) => self.with_named(alloc, at, name, value),
            None => self.with_file(alloc, at, word),
        }
    }

    fn with_named(
        mut self,
        alloc: Global,
        at: usize,
        name: &str,
        value: Option<&str>,
    ) -> Result<Said, UsageFault>
        ensures { Reads (words.as_named at (name.now, option_map (λ v. v.now) value.entry) self) result }
    {
        if has_key(&self.params, name) {
            return Err(UsageFault::Twice { at });
        }
        let name = copied(alloc, name)?;
        match value {
            Some(value) => {
                let value = value_of(alloc, value)?;
                Ok(self.with_parameter(name, value)?)
            }
            None => {
                self.awaited = Awaited::Parameter(name);
                Ok(self)
            }
        }
    }

    fn with_file(mut self, alloc: Global, at: usize, word: &str) -> Result<Said, UsageFault>
        ensures { Reads (words.as_file at word.now self) result }
    {
        if is_dashed(word) || self.file.is_some() {
            return Err(UsageFault::UnknownWord { at });
        }
        self.file = Some(copied(alloc, word)?);
        Ok(self)
    }

    /// What the words of `run` say at their end; there are `count` words with the command.
    pub(crate) fn ended(mut self, alloc: Global, count: usize) -> Result<RunWords, UsageFault>
        ensures { Reads (words.ended count self) result }
    {
        match replace(&mut self.awaited, Awaited::Nothing) {
            Awaited::Nothing => self.run_words(alloc, count),
            Awaited::Value(_) => Err(UsageFault::NoValue { at: count }),
            Awaited::Parameter(name) => {
                let said = self.with_parameter(name, Value::Truth(true))?;
                said.run_words(alloc, count)
            }
        }
    }

    fn run_words(self, alloc: Global, count: usize) -> Result<RunWords, UsageFault>
        ensures { Reads (words.run_words count self.file self) result }
    {
        let Said {
            file,
            resume,
            work,
            params_file,
            trace,
            queue,
            params,
            awaited: _awaited,
        } = self;
        let Some(file) = file else {
            return Err(UsageFault::NoValue { at: count });
        };
        let work = work_or_default(alloc, work)?;
        Ok(RunWords {
            file,
            resume,
            work,
            params_file,
            trace,
            queue: queue.unwrap_or(4),
            params,
        })
    }
}

fn work_or_default(alloc: Global, work: Option<Txt>) -> Result<Txt, Mem>
    ensures { IfOk result (λ t. t ≡ unwrap_or work (codes "work")) }
{
    match work {
        Some(work) => Ok(work),
        None => copied(alloc, "work"),
    }
}

/// The option that a word is, if it takes the next word.
fn setting_of(word: &str) -> Option<Setting>
    ensures { result ≡ setting_in word.now }
{
    match word {
        "-work-dir" | "-w" => Some(Setting::Work),
        "-params-file" => Some(Setting::ParamsFile),
        "-with-trace" => Some(Setting::Trace),
        "-queue-size" | "-qs" => Some(Setting::Queue),
        _ => None,
    }
}
