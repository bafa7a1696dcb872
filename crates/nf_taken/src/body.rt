//! `Body`: what is taken of arguments in a workflow's body, whatever else they stand for.

ghost use Rattle.std.specs.Prelude.{◌≡◌, IfErr, IfOk};
ghost use Rattle.nf_ast.specs.View.{view, view_closure};
ghost use Rattle.nf_arguments.specs.Args.{written_arg};
ghost use Rattle.nf_around.specs.Gives.{IsClosing, IsUnit, IsValue, Reads};
ghost use Rattle.nf_around.specs.Labels.{AreLabels};
ghost use Rattle.nf_around.specs.Words.{IsWord};
ghost use Rattle.nf_bag.specs.declared.rows.Row.{Row};
ghost use Rattle.nf_known.specs.Reading.{reading_of};
ghost use Rattle.nf_meaning.specs.declared.fault.LowerFault.TheVariants as fault;
ghost use Rattle.nf_meaning.specs.Arguments.{Arg};
ghost use Rattle.nf_meaning.specs.Closures as closures;
ghost use Rattle.nf_meaning.specs.Options as options;
ghost use Rattle.nf_meaning.specs.Sources as sources;
ghost use Rattle.nf_meaning.specs.Taken as meaning;
ghost use Rattle.nf_meaning.specs.Walk.{Around, State};
ghost use Rattle.nf_taken.specs.Bodies.{IsPathArgs, IsSame, Takes, option_walk, path_args_of, range_walk};
ghost use Rattle.nf_taken.specs.Taken.{Keeps};
ghost use Rattle.nf_taken.specs.Wanted.{FitsAlone, alone_walk, filled_walk, pattern_walk};

use crate::paths::PathArgs;
use crate::taken::{Closing, Taken};
use crate::wanted::Alone;
use nf_arguments::Written;
use nf_around::{Surroundings, closure_in, word_of};
use nf_ast::{ClosureExpr, Expr};
use nf_bag::{OpOpts, Total};
use nf_builtins::Natives;
use nf_eval::Closure;
use nf_known::Reading;
use nf_lowered::begins_at;
use nf_meaning::LowerFault;
use nf_opargs::{has_option, list_wanted, with_option};
use nf_optable::Options;
use nf_pattern::WholeRe;
use nf_scopes::BodyNames;
use nf_totals::total_of;
use nf_value::{Place, Txt, Vals, Value};
use std::alloc::Global;

/// The body of a workflow in which arguments are taken (own): what all bodies have around them, and its names.
/// Contracts see by `IsIn` which body of the meaning it is.
#[derive(Drop, Clone, Copy)]
pub struct Body<'b, 'a, N> {
    /// The memory.
    pub alloc: Global,
    /// What is around all bodies.
    pub around: &'b Surroundings<'a, N>,
    /// The names of the body.
    pub names: &'b BodyNames,
}

impl<N: Natives> Body<'_, '_, N> {
    ghost use Rattle.nf_taken.specs.Bodies.{IsIn};

    /// What is taken of an argument without a name, whatever it stands for (Nextflow reference documentation,
    /// "Operators").
    ///
    /// # Errors
    ///
    /// `BadOption` where the argument is of another kind than is wanted; the first fault of its names; `ParamFault`
    /// where a value before the run can't be had; `PatternRefused` and `PatternTooLarge`. `Mem` for want of memory.
    pub fn take(
        &self,
        alone: Alone<'_>,
        arg: Written<'_>,
        taken: Taken,
    ) -> Result<Taken, LowerFault>
        requires { N.keeps self.now.around.now.natives.now }
        ensures takes { Takes (IsIn N.titles N.answer self.now) taken
            (alone_walk alone.entry (written_arg arg.entry)) result }
        ensures keeps { (r : Row) → FitsAlone r alone.entry → IfOk result (Keeps r taken) }
    {
        match alone {
            Alone::Closure => self.take_closure(arg, taken),
            Alone::Filling => self.take_filling(arg, taken),
            Alone::Labels => self.take_labels(arg, taken),
            Alone::Word => self.take_word(arg, taken),
            Alone::Total => self.take_total(arg, taken),
            Alone::Pattern(place, text) => self.take_pattern(place, text, taken),
            Alone::Nothing => Err(LowerFault::BadOption { place: arg.place() }),
        }
    }

    fn take_closure(&self, arg: Written<'_>, taken: Taken) -> Result<Taken, LowerFault>
        ensures takes { Takes (IsIn N.titles N.answer self.now) taken
            (alone_walk Alone.Closure (written_arg arg.entry)) result }
        ensures keeps { (r : Row) → FitsAlone r Alone.Closure → IfOk result (Keeps r taken) }
    {
        let closure = self.closure_arg(arg, Reading::InRun)?;
        let mut taken = taken;
        taken.closing = Closing::Whole(closure);
        Ok(taken)
    }

    fn take_filling(&self, arg: Written<'_>, taken: Taken) -> Result<Taken, LowerFault>
        requires { N.keeps self.now.around.now.natives.now }
        ensures takes { Takes (IsIn N.titles N.answer self.now) taken
            (alone_walk Alone.Filling (written_arg arg.entry)) result }
        ensures keeps { (r : Row) → IfOk result (Keeps r taken) }
    {
        let value = self.filled(arg)?;
        Ok(taken.and_start(value))
    }

    fn take_labels(&self, arg: Written<'_>, taken: Taken) -> Result<Taken, LowerFault>
        ensures takes { Takes (IsIn N.titles N.answer self.now) taken
            (alone_walk Alone.Labels (written_arg arg.entry)) result }
        ensures keeps { (r : Row) → FitsAlone r Alone.Labels → IfOk result (Keeps r taken) }
    {
        let labelled = self.labels_arg(arg)?;
        let mut taken = taken;
        taken.labels = labelled.0;
        taken.closing = Closing::ByLabels(labelled.1);
        Ok(taken)
    }

    fn take_word(&self, arg: Written<'_>, taken: Taken) -> Result<Taken, LowerFault>
        ensures takes { Takes (IsIn N.titles N.answer self.now) taken
            (alone_walk Alone.Word (written_arg arg.entry)) result }
        ensures keeps { (r : Row) → IfOk result (Keeps r taken) }
    {
        let word = self.word_arg(arg)?;
        let copy = word.copy()?;
        let mut taken = taken;
        taken.word = copy;
        Ok(taken)
    }

    fn take_total(&self, arg: Written<'_>, taken: Taken) -> Result<Taken, LowerFault>
        ensures takes { Takes (IsIn N.titles N.answer self.now) taken
            (alone_walk Alone.Total (written_arg arg.entry)) result }
        ensures keeps { (r : Row) → IfOk result (Keeps r taken) }
    {
        let total = self.total_arg(arg)?;
        let mut taken = taken;
        taken.opts.total = total;
        Ok(taken)
    }

    fn take_pattern(&self, place: Place, text: &Txt, taken: Taken) -> Result<Taken, LowerFault>
        ensures takes { (x : Arg) → Takes (IsIn N.titles N.answer self.now) taken
            (alone_walk (Alone.Pattern place text.entry) x) result }
        ensures keeps { (r : Row) → IfOk result (Keeps r taken) }
    {
        self.check_pattern(place, text)?;
        let pattern = built(self.alloc, text)?;
        let mut taken = taken;
        taken.pattern = Some(pattern);
        Ok(taken)
    }

    /// An option, whose name stands at `place` (Nextflow reference documentation, "Operators"); of two with one name
    /// the later counts.
    ///
    /// # Errors
    ///
    /// `BadOption` at its name if the operator has no such option, or its value is of another kind; else as for values
    /// before the run. `Mem` for want of memory.
    pub fn take_option(
        &self,
        row: Options,
        place: Place,
        name: &str,
        value: &Expr,
        taken: Taken,
    ) -> Result<Taken, LowerFault>
        requires { N.keeps self.now.around.now.natives.now }
        ensures takes { (x : Arg) → x.tree ≡ view value.now → Takes (IsIn N.titles N.answer self.now) taken
            (option_walk row (place, name.now) x) result }
        ensures keeps { (r : Row) → IfOk result (Keeps r taken) }
    {
        let Taken {
            ports,
            literal,
            pattern,
            start,
            closing,
            labels,
            word,
            opts,
        } = taken;
        let opts = self.option(row, place, name, value, opts)?;
        Ok(Taken {
            ports,
            literal,
            pattern,
            start,
            closing,
            labels,
            word,
            opts,
        })
    }

    fn option(
        &self,
        row: Options,
        place: Place,
        name: &str,
        value: &Expr,
        opts: OpOpts,
    ) -> Result<OpOpts, LowerFault>
        requires { N.keeps self.now.around.now.natives.now }
        ensures { (a : Around) (s : State) (x : Arg) → IsIn N.titles N.answer self.now a s → x.tree ≡ view value.now
            → Reads IsSame (options.with_option row (place, name.now) x opts) a s result }
    {
        if !has_option(row, name) {
            return Err(LowerFault::BadOption { place });
        }
        let value = self.around.option_value(place, value, self.names)?;
        with_option(row, place, name, &value, opts)
    }

    // ---- closures, by what is wanted of them

    fn closure_arg(&self, arg: Written<'_>, reading: Reading) -> Result<Closure, LowerFault>
        ensures { (a : Around) (s : State) → IsIn N.titles N.answer self.now a s
            → Reads (IsClosing a.given.program)
            (closures.closure_arg (reading_of reading) (written_arg arg.entry).tree) a s result }
    {
        match arg {
            Written::Arg(arg) => self.around.closure_arg(&arg.value, self.names, reading),
            Written::Closure(closure) => self.around.without_labels(closure, self.names, reading),
        }
    }

    fn labels_arg(&self, arg: Written<'_>) -> Result<(Vec<Txt>, Vec<Closure>), LowerFault>
        ensures { (a : Around) (s : State) → IsIn N.titles N.answer self.now a s
            → Reads (AreLabels a.given.program) (closures.labels_arg (written_arg arg.entry).tree) a s result }
    {
        match arg {
            Written::Arg(arg) => self.around.labels_arg(&arg.value, self.names),
            Written::Closure(closure) => self.around.with_labels(closure, self.names),
        }
    }

    fn word_arg<'e>(&self, arg: Written<'e>) -> Result<&'e Txt, LowerFault>
        ensures { (a : Around) (s : State) → IsIn N.titles N.answer self.now a s
            → Reads IsWord (closures.word_arg (written_arg arg.entry).tree) a s result }
    {
        match arg {
            Written::Arg(arg) => self.around.word_arg(&arg.value, self.names),
            Written::Closure(closure) => word_of(closure),
        }
    }

    fn total_arg(&self, arg: Written<'_>) -> Result<Total, LowerFault>
        ensures { (a : Around) (s : State) → IsIn N.titles N.answer self.now a s
            → Reads IsSame (meaning.total_wanted (written_arg arg.entry).tree) a s result }
    {
        match arg {
            Written::Arg(arg) => self.total_in(&arg.value),
            Written::Closure(closure) => total_wanted(closure),
        }
    }

    fn total_in(&self, expr: &Expr) -> Result<Total, LowerFault>
        ensures { (a : Around) (s : State) → IsIn N.titles N.answer self.now a s
            → Reads IsSame (meaning.total_wanted (view expr.now)) a s result }
    {
        match closure_in(expr) {
            Some(closure) => total_wanted(closure),
            None => Err(self.around.no_closure(expr, self.names)?),
        }
    }

    /// What the closure of `ifEmpty` gives for null before the run.
    fn filled(&self, arg: Written<'_>) -> Result<Value, LowerFault>
        requires { N.keeps self.now.around.now.natives.now }
        ensures { (a : Around) (s : State) → IsIn N.titles N.answer self.now a s
            → Reads IsValue (filled_walk (written_arg arg.entry)) a s result }
    {
        let closure = self.closure_arg(arg, Reading::BeforeRun)?;
        self.around.applied_to_null(&closure)
    }

    /// Nothing is wrong with a pattern.
    fn check_pattern(&self, place: Place, text: &Txt) -> Result<(), LowerFault>
        ensures { (a : Around) (s : State) → IsIn N.titles N.answer self.now a s
            → Reads IsUnit (pattern_walk place text.now) a s result }
    {
        match self.around.known.pattern_fault(place, text.as_str()) {
            Some(fault) => Err(fault),
            None => Ok(()),
        }
    }

    // ---- sources

    /// The items of a range (Nextflow reference documentation, "Channel factories", "of").
    ///
    /// # Errors
    ///
    /// `BadOption` where it begins if it is no list; else as for a value before the run. `Mem` for want of memory.
    pub fn range_items(&self, range: &Expr) -> Result<Vals, LowerFault>
        requires { N.keeps self.now.around.now.natives.now }
        ensures { (a : Around) (s : State) → IsIn N.titles N.answer self.now a s
            → Reads IsSame (range_walk (view range.now)) a s result }
    {
        let value = self.around.value_of(range, self.names)?;
        list_wanted(begins_at(range), value)
    }

    /// An option of a path, whose name stands at `place`: whether there has to be a file (Nextflow reference
    /// documentation, "Channel factories", "fromPath").
    ///
    /// # Errors
    ///
    /// `BadOption` at its name if that is none, or its value is neither true nor false; else as for a value before the
    /// run. `Mem` for want of memory.
    pub fn path_option(
        &self,
        place: Place,
        name: &str,
        value: &Expr,
        so_far: PathArgs,
    ) -> Result<PathArgs, LowerFault>
        requires { N.keeps self.now.around.now.natives.now }
        ensures { (a : Around) (s : State) (x : Arg) → IsIn N.titles N.answer self.now a s → x.tree ≡ view value.now
            → Reads IsPathArgs (sources.must_exist (place, name.now) x (path_args_of so_far)) a s result }
    {
        if name == "checkIfExists" {
            let must = self.around.flag_arg(place, value, self.names)?;
            let mut given = so_far;
            given.must = must;
            return Ok(given);
        }
        Err(LowerFault::BadOption { place })
    }
}

/// The total that a closure stands for.
fn total_wanted(closure: &ClosureExpr) -> Result<Total, LowerFault>
    ensures { (a : Around) (s : State) → Reads IsSame (meaning.total_wanted (view_closure closure.now)) a s result }
{
    match total_of(closure) {
        Some(total) => Ok(total),
        None => Err(LowerFault::BadOption {
            place: closure.place,
        }),
    }
}

/// A pattern with which nothing is wrong.
fn built(alloc: Global, text: &Txt) -> Result<WholeRe, LowerFault>
    ensures pattern { IfOk result (λ re. re ≡ text.now) }
    ensures fault { IfErr result (λ e. e ≡ fault.Mem) }
{
    match WholeRe::new(alloc, text.as_str()) {
        Ok(re) => Ok(re),
        Err(_) => Err(LowerFault::Mem),
    }
}
