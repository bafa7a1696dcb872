//! What is open at a place in a script: brackets, holes, strings, templates and comments.

ghost use Rattle.std.specs.Prelude.{◌≡◌, Some, None, [], ◌∷◌, reverse, OnOk, if◌then◌else◌};
ghost use Rattle.nf_lexer.specs.Open.{innermost as innermost_of, around, lets_lines_end, is_one_line as is_one_line_of, line_fault as line_fault_of, end_fault as end_fault_of, rather as rather_of, outermost, is_brace_or_hole as is_brace_or_hole_of, nearest as nearest_of, around_nearest, after_brace, changed};
ghost use Rattle.nf_lexer.specs.View.{opens, IsSummed};

use crate::fault::LexFault;
use nf_token::{PlainKind, TemplateKind, TextKind};
use nf_value::{Mem, Place};
use std::alloc::Global;
use std::marker::Model;

/// Something that is open. It keeps the place of its opening where a fault may name that.
#[derive(Clone, Copy)]
pub enum Open {
    Round,
    Square,
    Brace,
    Hole,
    NamedHole,
    Text(TextKind, Place),
    Comment(Place),
    LineComment,
}

/// What the bytes in front open or close.
#[derive(Clone, Copy)]
pub enum Change {
    Keep,
    Enter(Open),
    Leave,
    LeaveBrace,
}

/// Something that is open, with three facts about it and all that is open round it: the rule that a line end breaks there, the rule that
/// the script's end breaks there, and the nearest brace or hole. So no question walks down the stack.
#[derive(Clone, Copy)]
pub struct Frame {
    pub thing: Open,
    pub line: Option<LexFault>,
    pub end: Option<LexFault>,
    pub nearest: Option<Open>,
}

/// All that is open. Contracts see the list, innermost first.
#[derive(Drop)]
pub struct Opened {
    frames: Vec<Frame>,
}

impl Model for Opened {
    ghost use Rattle.std.specs.Prelude.{List, reverse};
    ghost use Rattle.nf_lexer.specs.declared.open.Open.{Open};
    ghost use Rattle.nf_lexer.specs.View.{opens, IsSummed};

    ghost Value = { List Open };

    ghost view = { λ o. opens (reverse o.frames.items) };

    ghost invariant = { λ o. IsSummed (reverse o.frames.items) };
}

impl Opened {
    pub fn new(alloc: Global) -> Opened
        ensures { result ≡ [] }
    {
        Opened {
            frames: Vec::new(alloc),
        }
    }

    pub fn innermost(&self) -> Option<Open>
        ensures { result ≡ innermost_of self.now }
    {
        match self.frames.last() {
            Some(frame) => Some(frame.thing),
            None => None,
        }
    }

    /// Whether a line end may separate here.
    pub fn let_lines_end(&self) -> bool
        ensures { result ≡ lets_lines_end self.now }
    {
        matches!(self.innermost(), None | Some(Open::Brace))
    }

    /// The rule that a line end breaks here.
    pub fn line_fault(&self) -> Option<LexFault>
        ensures { result ≡ outermost line_fault_of self.now }
    {
        match self.frames.last() {
            Some(frame) => frame.line,
            None => None,
        }
    }

    /// The rule that the script's end breaks here.
    pub fn end_fault(&self) -> Option<LexFault>
        ensures { result ≡ outermost end_fault_of self.now }
    {
        match self.frames.last() {
            Some(frame) => frame.end,
            None => None,
        }
    }

    /// The nearest brace or hole.
    pub fn nearest(&self) -> Option<Open>
        ensures { result ≡ nearest_of self.now }
    {
        match self.frames.last() {
            Some(frame) => frame.nearest,
            None => None,
        }
    }

    /// Opens or closes what the change says.
    pub fn change(&mut self, change: Change) -> Result<(), Mem>
        ensures { OnOk result (self.new ≡ changed change self.old) }
    {
        match change {
            Change::Keep => {}
            Change::Enter(thing) => self.enter(thing)?,
            Change::Leave => self.leave(),
            Change::LeaveBrace => self.leave_brace(),
        }
        Ok(())
    }

    fn enter(&mut self, thing: Open) -> Result<(), Mem>
        ensures { OnOk result (self.new ≡ thing ∷ self.old) }
    {
        let frame = Frame {
            thing,
            line: rather(self.line_fault(), line_fault(thing)),
            end: rather(self.end_fault(), end_fault(thing)),
            nearest: nearest(thing, self.nearest()),
        };
        self.frames.push(frame)?;
        Ok(())
    }

    fn leave(&mut self)
        ensures { self.new ≡ around self.old }
    {
        let _ = self.frames.pop();
    }

    fn leave_brace(&mut self)
        ensures { self.new ≡ after_brace (nearest_of self.old) self.old }
    {
        if self.nearest().is_some() {
            leave_nearest(&mut self.frames);
        }
    }
}

/// Closes the nearest brace or hole and all that is open in it.
fn leave_nearest(frames: &mut Vec<Frame>)
    requires { IsSummed (reverse frames.old.items) }
    ensures summed { IsSummed (reverse frames.new.items) }
    ensures left { opens (reverse frames.new.items) ≡ around_nearest (opens (reverse frames.old.items)) }
{
    while let Some(frame) = frames.pop() {
        if is_brace_or_hole(frame.thing) {
            return;
        }
    }
}

fn is_one_line(kind: TextKind) -> bool
    ensures { result ≡ is_one_line_of kind }
{
    !matches!(
        kind,
        TextKind::Plain(PlainKind::TripleSingle) | TextKind::Template(TemplateKind::TripleDouble)
    )
}

fn line_fault(thing: Open) -> Option<LexFault>
    ensures { result ≡ line_fault_of thing }
{
    match thing {
        Open::Text(kind, place) if is_one_line(kind) => Some(LexFault::OpenString { place }),
        _ => None,
    }
}

fn end_fault(thing: Open) -> Option<LexFault>
    ensures { result ≡ end_fault_of thing }
{
    match thing {
        Open::Text(_, place) => Some(LexFault::OpenString { place }),
        Open::Comment(place) => Some(LexFault::OpenComment { place }),
        _ => None,
    }
}

fn rather(first: Option<LexFault>, second: Option<LexFault>) -> Option<LexFault>
    ensures { result ≡ rather_of first second }
{
    match first {
        Some(fault) => Some(fault),
        None => second,
    }
}

fn is_brace_or_hole(thing: Open) -> bool
    ensures { result ≡ is_brace_or_hole_of thing }
{
    matches!(thing, Open::Brace | Open::Hole)
}

/// The nearest brace or hole: this one, or the nearest round it.
fn nearest(thing: Open, around: Option<Open>) -> Option<Open>
    ensures { result ≡ (if is_brace_or_hole_of thing then Some thing else around) }
{
    if is_brace_or_hole(thing) {
        Some(thing)
    } else {
        around
    }
}
