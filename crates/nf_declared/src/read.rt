//! Reading the top of a script in the order of its text.

ghost use Rattle.std.specs.Prelude.{◌≡◌, map, IfOk, OnOk};
ghost use Rattle.nf_value.specs.View.{plain_of};
ghost use Rattle.nf_ast.specs.Tops.{view_top};
ghost use Rattle.nf_ast.specs.Tree as tree;
ghost use Rattle.nf_ast.specs.View.{trees, view};
ghost use Rattle.nf_lowered.specs.Given.{Gives};
ghost use Rattle.nf_meaning.specs.Given.{Given};
ghost use Rattle.nf_meaning.specs.Script as meaning;
ghost use Rattle.nf_meaning.specs.Script.{Read, around as around_of, begun, tops_read, with_param};
ghost use Rattle.nf_around.specs.Around.{IsAround};

use crate::names::{TopNames, put};
use crate::values::{log_alone, read_alone, value_alone};
use nf_around::Surroundings;
use nf_ast::{Parameter, Top};
use nf_builtins::Natives;
use nf_meaning::LowerFault;
use nf_pairs::{has_key, with_pair};
use nf_value::{Mem, Pairs, Txt, Value};
use std::alloc::Global;

/// What stands at the top of a script, in the order of its text (own): each name of a process, a workflow and a
/// function once, each parameter once, its value by those before it. `params` are the parameters that are set from
/// outside, which win over the script's. The result are the surroundings in which all parameters are set. Takes time by
/// the square of the number of parameters.
///
/// # Errors
///
/// The script's first fault there: `TwiceDefined` at a name that stood there before, or at a second workflow without a
/// name; what `Surroundings::value_of` and `only_read` answer of a parameter's value, of `println` and of `log.info`;
/// `BadOption` at the name of any other `log`. `Mem` for want of memory.
pub fn read_tops<'a, N: Natives>(
    alloc: Global,
    tops: &[Top],
    params: &Pairs,
    around: Surroundings<'a, N>,
) -> Result<Surroundings<'a, N>, LowerFault>
    requires { N.keeps around.natives.now }
    ensures natives { IfOk result (λ s. s.natives.now ≡ around.entry.natives.now) }
    ensures walk { (g : Given) → params.now ≡ g.params → IsAround N.titles N.answer around.entry (around_of g g.params)
        → Gives (λ s q. IsAround N.titles N.answer s (around_of g q.params))
        (tops_read g (trees (map view_top tops.now)) (begun g)) result }
{
    let mut reader = TopReader::new(alloc, params, around)?;
    for top in tops {
        reader.top(top)?;
    }
    Ok(reader.around)
}

/// What reads the top of a script.
#[derive(Drop)]
pub(crate) struct TopReader<'p, 'a, N> {
    alloc: Global,
    /// The names so far.
    pub(crate) names: TopNames,
    /// The parameters that are set so far.
    pub(crate) params: Pairs,
    /// Those that are set from outside.
    pub(crate) outside: &'p Pairs,
    /// What is around the rest of the script.
    pub(crate) around: Surroundings<'a, N>,
}

impl<'p, 'a, N: Natives> TopReader<'p, 'a, N> {
    ghost use Rattle.nf_declared.specs.Reads.{ReadingGoesOn, StandsRead, top_walk};

    /// Where reading begins.
    fn new(
        alloc: Global,
        outside: &'p Pairs,
        around: Surroundings<'a, N>,
    ) -> Result<TopReader<'p, 'a, N>, Mem>
        ensures natives { IfOk result (λ x. x.around.natives.now ≡ around.entry.natives.now) }
        ensures stands { IfOk result (λ x. (g : Given) → outside.now ≡ g.params
            → IsAround N.titles N.answer around.entry (around_of g g.params)
            → StandsRead N.titles N.answer x g (begun g)) }
    {
        let names = TopNames::new(alloc, around.natives())?;
        let params = outside.copy()?;
        Ok(TopReader {
            alloc,
            names,
            params,
            outside,
            around,
        })
    }

    /// One top more.
    fn top(&mut self, top: &Top) -> Result<(), LowerFault>
        requires { N.keeps self.old.around.natives.now }
        ensures natives { self.new.around.natives.now ≡ self.old.around.natives.now }
        ensures walk { ReadingGoesOn N.titles N.answer (top_walk top.now) self.old self.new result }
    {
        match top {
            Top::Process(process) => {
                self.names
                    .new_name(self.alloc, process.name_place, &process.name)
            }
            Top::Workflow(workflow) => self.names.workflow(self.alloc, workflow),
            Top::Function(function) => {
                self.names
                    .new_name(self.alloc, function.name_place, &function.name)
            }
            Top::Parameter(parameter) => self.parameter(parameter),
            Top::Println(_, expr) => read_alone(self.alloc, &self.around, expr),
            Top::Log(_, place, name, expr) => {
                log_alone(self.alloc, &self.around, *place, name, expr)
            }
            Top::Dsl(_) => Ok(()),
        }
    }

    /// A parameter. One that is set from outside keeps its value.
    fn parameter(&mut self, parameter: &Parameter) -> Result<(), LowerFault>
        requires { N.keeps self.old.around.natives.now }
        ensures natives { self.new.around.natives.now ≡ self.old.around.natives.now }
        ensures walk { ReadingGoesOn N.titles N.answer
            (λ g. meaning.parameter g (tree.name parameter.now.name_place parameter.now.name)
            (view parameter.now.value))
            self.old self.new result }
    {
        if self.names.set.contains(parameter.name.as_str()) {
            return Err(LowerFault::TwiceDefined {
                place: parameter.name_place,
            });
        }
        let value = value_alone(self.alloc, &self.around, &parameter.value)?;
        self.set(&parameter.name, value)?;
        Ok(())
    }

    /// A parameter of this value.
    fn set(&mut self, name: &Txt, value: Value) -> Result<(), Mem>
        ensures natives { self.new.around.natives.now ≡ self.old.around.natives.now }
        ensures stands { OnOk result ((g : Given) (q : Read) → StandsRead N.titles N.answer self.old g q
            → StandsRead N.titles N.answer self.new g (with_param g name.now q (plain_of value))) }
    {
        put(self.alloc, &mut self.names.set, name.as_str())?;
        if has_key(self.outside, name.as_str()) {
            return Ok(());
        }
        let params = with_pair(self.params.copy()?, name.copy()?, value)?;
        self.around.set_params(Value::Map(params.copy()?));
        self.params = params;
        Ok(())
    }
}
