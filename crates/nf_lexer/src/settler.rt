//! Decides which line ends separate.

ghost use Rattle.std.specs.Prelude.{◌≡◌, [], ◌∷◌, ◌++◌, List, None, reverse, not, ◌&&◌, OnOk, IfOk};
ghost use Rattle.nf_lexer.specs.Separators.{Segment, lexed, line_end_at, settled, last_awaits_more as last_awaits_more_of, is_after_separator as is_after_separator_of, next_goes_on, awaits_more as awaits_more_of, mark_awaits_more as mark_awaits_more_of, goes_on as goes_on_of, mark_goes_on as mark_goes_on_of, is_separator as is_separator_of};
ghost use Rattle.nf_lexer.specs.View.{outcome};

use nf_token::{Keyword, Lexeme, Mark, Token};
use nf_value::{Mem, Place};
use std::alloc::Global;

/// The tokens so far, and a line end that waits for the next token, which decides whether it separates.
#[derive(Drop)]
pub struct Settler {
    pub out: Vec<Lexeme>,
    pub waiting: Option<Place>,
}

impl Settler {
    pub fn new(alloc: Global) -> Settler
        ensures outcome { (rest : List Segment) → outcome result rest ≡ settled [] rest }
    {
        Settler {
            out: Vec::new(alloc),
            waiting: None,
        }
    }

    /// Takes a line end.
    pub fn line_end(&mut self, place: Place)
        ensures outcome { (rest : List Segment) → outcome self.new rest ≡ outcome self.old (line_end_at place ∷ rest) }
    {
        if self.waiting.is_none() {
            self.waiting = Some(place);
        }
    }

    /// Takes a token.
    pub fn token(&mut self, lexeme: Lexeme) -> Result<(), Mem>
        ensures outcome { OnOk result ((rest : List Segment) → outcome self.new rest ≡ outcome self.old (lexed lexeme ∷ rest)) }
    {
        self.settle_line_end(goes_on(&lexeme.token))?;
        if is_separator(&lexeme.token) && is_after_separator(self.out.as_slice()) {
            return Ok(());
        }
        self.push(lexeme)
    }

    /// The tokens of all that was taken.
    pub fn finish(mut self) -> Result<Vec<Lexeme>, Mem>
        ensures { IfOk result (λ v. v.items ≡ outcome self []) }
    {
        self.settle_line_end(false)?;
        Ok(self.out)
    }

    /// Decides on the line end that waits: where the next token goes on with the line, it doesn't separate.
    fn settle_line_end(&mut self, goes_on: bool) -> Result<(), Mem>
        ensures settled { OnOk result (self.new.waiting ≡ None) }
        ensures outcome { OnOk result ((rest : List Segment) → next_goes_on rest ≡ goes_on → outcome self.new rest ≡ outcome self.old rest) }
    {
        if let Some(place) = self.waiting.take() {
            if !goes_on && self.lets_line_end() {
                self.push(Lexeme {
                    token: Token::Separator,
                    place,
                })?;
            }
        }
        Ok(())
    }

    /// Whether a line end after the tokens so far separates, unless the next token goes on with the line.
    fn lets_line_end(&self) -> bool
        ensures { let before = reverse self.now.out.items in result ≡ (not (last_awaits_more_of before) && not (is_after_separator_of before)) }
    {
        let out = self.out.as_slice();
        !last_awaits_more(out) && !is_after_separator(out)
    }

    fn push(&mut self, lexeme: Lexeme) -> Result<(), Mem>
        ensures waiting { OnOk result (self.new.waiting ≡ self.old.waiting) }
        ensures out { OnOk result (self.new.out.items ≡ self.old.out.items ++ lexeme ∷ []) }
    {
        self.out.push(lexeme)?;
        Ok(())
    }
}

fn last_awaits_more(out: &[Lexeme]) -> bool
    ensures { result ≡ last_awaits_more_of (reverse out.now) }
{
    match out.last() {
        None => false,
        Some(lexeme) => awaits_more(&lexeme.token),
    }
}

fn is_after_separator(out: &[Lexeme]) -> bool
    ensures { result ≡ is_after_separator_of (reverse out.now) }
{
    match out.last() {
        None => false,
        Some(lexeme) => is_separator(&lexeme.token),
    }
}

fn is_separator(token: &Token) -> bool
    ensures { result ≡ is_separator_of token.now }
{
    matches!(token, Token::Separator)
}

/// Whether a line doesn't end after this token.
fn awaits_more(token: &Token) -> bool
    ensures { result ≡ awaits_more_of token.now }
{
    match token {
        Token::Mark(mark) => mark_awaits_more(*mark),
        _ => false,
    }
}

fn mark_awaits_more(mark: Mark) -> bool
    ensures { result ≡ mark_awaits_more_of mark }
{
    matches!(
        mark,
        Mark::Comma
            | Mark::OpenRound
            | Mark::OpenSquare
            | Mark::OpenBrace
            | Mark::Arrow
            | Mark::Colon
            | Mark::Equals
            | Mark::Plus
            | Mark::Minus
            | Mark::Times
            | Mark::Percent
            | Mark::Less
            | Mark::AtMost
            | Mark::Greater
            | Mark::AtLeast
            | Mark::Same
            | Mark::Differs
            | Mark::Matches
            | Mark::And
            | Mark::Or
            | Mark::Pipe
            | Mark::Question
            | Mark::Elvis
            | Mark::Dot
            | Mark::QuestionDot
            | Mark::DotDot
    )
}

/// Whether a line goes on with this token.
fn goes_on(token: &Token) -> bool
    ensures { result ≡ goes_on_of token.now }
{
    match token {
        Token::Mark(mark) => mark_goes_on(*mark),
        Token::Keyword(Keyword::Else) => true,
        _ => false,
    }
}

fn mark_goes_on(mark: Mark) -> bool
    ensures { result ≡ mark_goes_on_of mark }
{
    matches!(
        mark,
        Mark::Dot
            | Mark::QuestionDot
            | Mark::Pipe
            | Mark::Or
            | Mark::And
            | Mark::Question
            | Mark::Elvis
            | Mark::DotDot
    )
}
