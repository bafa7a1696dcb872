//! The directives of a process.

ghost use Rattle.std.specs.Prelude.{◌≡◌, map};
ghost use Rattle.nf_ast.specs.Tops.{view_directive};
ghost use Rattle.nf_ast.specs.View.{trees, view, view_arg};
ghost use Rattle.nf_builtins.specs.Natives.{is_among};
ghost use Rattle.nf_lowered.specs.Given.{Gives};
ghost use Rattle.nf_meaning.specs.Directives as meaning;
ghost use Rattle.nf_meaning.specs.Directives.{directives_in, expression_wanted, no_directives, only_arg, strategy_in, strategy_of, with_directive, without_effect};
ghost use Rattle.nf_tasks.specs.Memory.{Program};
ghost use Rattle.nf_called.specs.Directives.{AreSettings, SettingsGo, directive_step, kind_of, only_expression, retries_arg, strategy_arg, word_of};
ghost use Rattle.nf_called.specs.Formulas.{IsFormula};
ghost use Rattle.nf_called.specs.Leaves.{leaf_count, leaf_word, times_in, view_leaf};

use crate::formulas::Formulas;
use crate::leaves::{Leaf, check_expression, leaf_of};
use crate::publishing::publish;
use nf_ast::{Arg, Directive, Expr};
use nf_eval::Closure;
use nf_meaning::LowerFault;
use nf_tasks::{ErrorStrategy, Publish};
use nf_value::Place;
use std::alloc::Global;

/// What the directives of a process say (Nextflow reference documentation, "Process", "Directives"). Of two of one name the later counts (own), but
/// each `publishDir` publishes.
#[derive(Drop)]
pub(crate) struct Settings {
    pub(crate) cpus: Option<Closure>,
    pub(crate) tag: Option<Closure>,
    pub(crate) strategy: Strategy,
    pub(crate) retries: u32,
    pub(crate) publishes: Vec<Publish>,
}

/// The word of `errorStrategy`.
#[derive(Clone, Copy, Drop)]
pub(crate) enum Strategy {
    Terminate,
    Ignore,
    Retry,
}

/// What directive has a name.
#[derive(Clone, Copy, Drop)]
pub(crate) enum DirectiveKind {
    Cpus,
    Tag,
    Strategy,
    Retries,
    Publish,
    /// It is read, and has no effect.
    WithoutEffect,
    /// There is none of that name.
    Unknown,
}

/// What the directives of a process say.
///
/// # Errors
///
/// The first fault in the order of the text. `Mem` for want of memory.
pub(crate) fn settings_in<F: Formulas>(
    alloc: Global,
    formulas: &F,
    directives: &[Directive],
) -> Result<Settings, LowerFault>
    requires { F.keeps formulas.now }
    ensures { Gives (AreSettings (F.program formulas.now)) (directives_in (F.inside formulas.now)
        (trees (map view_directive directives.now)) no_directives) result }
{
    let mut settings = Settings {
        cpus: None,
        tag: None,
        strategy: Strategy::Terminate,
        retries: 1,
        publishes: Vec::new(alloc),
    };
    for directive in directives {
        settings.add(alloc, formulas, directive)?;
    }
    Ok(settings)
}

impl Settings {
    /// What becomes of a task that fails. `maxRetries` counts only with `'retry'`.
    pub(crate) fn strategy(&self) -> ErrorStrategy
        ensures { (n : Program) → (m : meaning.Directives) → AreSettings n self.now m → result ≡ strategy_of m }
    {
        match self.strategy {
            Strategy::Terminate => ErrorStrategy::Terminate,
            Strategy::Ignore => ErrorStrategy::Ignore,
            Strategy::Retry => ErrorStrategy::Retry(self.retries),
        }
    }

    /// One directive more.
    fn add<F: Formulas>(
        &mut self,
        alloc: Global,
        formulas: &F,
        directive: &Directive,
    ) -> Result<(), LowerFault>
        requires { F.keeps formulas.now }
        ensures { SettingsGo (F.program formulas.now) self.old
            (directive_step (F.inside formulas.now) (view_directive directive.now)) self.new result }
    {
        let name = directive.name.as_str();
        let args = directive.args.as_slice();
        self.add_named(alloc, formulas, directive.place, name, args)
    }

    /// The directive of a name, with these arguments.
    fn add_named<F: Formulas>(
        &mut self,
        alloc: Global,
        formulas: &F,
        place: Place,
        name: &str,
        args: &[Arg],
    ) -> Result<(), LowerFault>
        requires { F.keeps formulas.now }
        ensures { SettingsGo (F.program formulas.now) self.old
            (with_directive (F.inside formulas.now) place name.now (trees (map view_arg args.now))) self.new result }
    {
        match kind_of(name) {
            DirectiveKind::Cpus => {
                self.cpus = Some(only_expression(alloc, formulas, place, args)?);
                Ok(())
            }
            DirectiveKind::Tag => {
                self.tag = Some(only_expression(alloc, formulas, place, args)?);
                Ok(())
            }
            DirectiveKind::Strategy => {
                let word = strategy_in(place, args)?;
                self.strategy = word;
                Ok(())
            }
            DirectiveKind::Retries => {
                let times = retries_in(place, args)?;
                self.retries = times;
                Ok(())
            }
            DirectiveKind::Publish => {
                let publish = publish(alloc, formulas, place, args)?;
                self.publishes.push(publish)?;
                Ok(())
            }
            DirectiveKind::WithoutEffect => Ok(()),
            DirectiveKind::Unknown => Err(LowerFault::BadOption { place }),
        }
    }
}

/// The directive of a name.
fn kind_of(name: &str) -> DirectiveKind
    ensures { result ≡ kind_of name.now }
{
    if name == "cpus" {
        return DirectiveKind::Cpus;
    }
    if name == "tag" {
        return DirectiveKind::Tag;
    }
    if name == "errorStrategy" {
        return DirectiveKind::Strategy;
    }
    if name == "maxRetries" {
        return DirectiveKind::Retries;
    }
    if name == "publishDir" {
        return DirectiveKind::Publish;
    }
    if is_without_effect(name) {
        return DirectiveKind::WithoutEffect;
    }
    DirectiveKind::Unknown
}

fn is_without_effect(name: &str) -> bool
    ensures { result ≡ is_among name.now without_effect }
{
    "memory" == name
        || "time" == name
        || "disk" == name
        || "container" == name
        || "label" == name
        || "conda" == name
        || "module" == name
        || "queue" == name
        || "maxForks" == name
}

/// The only argument of a directive, which is no closure.
fn only_arg(place: Place, args: &[Arg]) -> Result<&Expr, LowerFault>
    ensures { Gives (λ e t. view e.now ≡ t) (only_arg place (trees (map view_arg args.now))) result }
{
    match args {
        [] => Err(LowerFault::BadOption { place }),
        [arg] => sole(place, arg),
        [_first, _second, ..] => Err(LowerFault::BadOption { place }),
    }
}

fn sole(place: Place, arg: &Arg) -> Result<&Expr, LowerFault>
    ensures { Gives (λ e t. view e.now ≡ t) (expression_wanted place (view_arg arg.now)) result }
{
    if arg.name.is_some() {
        return Err(LowerFault::BadOption { place });
    }
    check_expression(place, &arg.value)?;
    Ok(&arg.value)
}

fn only_expression<F: Formulas>(
    alloc: Global,
    formulas: &F,
    place: Place,
    args: &[Arg],
) -> Result<Closure, LowerFault>
    requires { F.keeps formulas.now }
    ensures { Gives (IsFormula (F.program formulas.now)) (only_expression (F.inside formulas.now) place
        (trees (map view_arg args.now))) result }
{
    let expr = only_arg(place, args)?;
    formulas.expression(alloc, expr)
}

/// The word of `errorStrategy`.
fn strategy_in(place: Place, args: &[Arg]) -> Result<Strategy, LowerFault>
    ensures { Gives (λ s w. word_of s ≡ w) (strategy_arg place (trees (map view_arg args.now))) result }
{
    let expr = only_arg(place, args)?;
    strategy_of(place, leaf_of(expr))
}

fn strategy_of(place: Place, leaf: Leaf<'_>) -> Result<Strategy, LowerFault>
    ensures { Gives (λ s w. word_of s ≡ w) (strategy_in place (leaf_word (view_leaf leaf.entry))) result }
{
    let Leaf::Word(word) = leaf else {
        return Err(LowerFault::BadOption { place });
    };
    let word = word.as_str();
    if word == "terminate" {
        return Ok(Strategy::Terminate);
    }
    if word == "ignore" {
        return Ok(Strategy::Ignore);
    }
    if word == "retry" {
        return Ok(Strategy::Retry);
    }
    Err(LowerFault::BadOption { place })
}

/// The number of `maxRetries`.
fn retries_in(place: Place, args: &[Arg]) -> Result<u32, LowerFault>
    ensures { Gives (λ k n. k ≡ n) (retries_arg place (trees (map view_arg args.now))) result }
{
    let expr = only_arg(place, args)?;
    count_of(place, leaf_of(expr))
}

fn count_of(place: Place, leaf: Leaf<'_>) -> Result<u32, LowerFault>
    ensures { Gives (λ k n. k ≡ n) (leaf_count place (view_leaf leaf.entry)) result }
{
    let Leaf::Number(number) = leaf else {
        return Err(LowerFault::BadOption { place });
    };
    match times_in(number) {
        Some(times) => Ok(times),
        None => Err(LowerFault::BadOption { place }),
    }
}

/// A number of times, which is at most 100 (own).
fn times_in(number: i64) -> Option<u32>
    ensures { result ≡ times_in number }
{
    if number < 0 || number > 100 {
        return None;
    }
    Some(number as u32)
}
