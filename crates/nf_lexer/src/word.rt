//! Names, keywords and numbers.

ghost use Rattle.std.specs.Prelude.{◌≡◌, ◌≤◌, IfOk, SomeIff, length, take_while};
ghost use Rattle.std.specs.List.{prefix_len, AllPass};
ghost use Rattle.std.specs.Str.Parse.{digits_value};
ghost use Rattle.std.specs.Char.{is_ascii_digit};
ghost use Rattle.nf_lexer.specs.Bytes.{is_in_name as is_in_name_of, begins_name as begins_name_of};
ghost use Rattle.nf_token.specs.Spellings.{keywords};
ghost use Rattle.nf_lexer.specs.View.{front_view, raw_view};
ghost use Rattle.nf_lexer.specs.Word.{word as word_of, number as number_of, word_token as word_token_of, keyword_in, limit, begins_property as begins_property_of};

use crate::fault::LexFault;
use crate::front::{Front, Part, Raw, next};
use crate::open::Change;
use nf_token::{Keyword, Token};
use nf_value::{Mem, Place, Txt};
use std::alloc::Global;

/// The greatest number that a script may write.
const LIMIT: u64 = 9223372036854775807;

/// The longest name or keyword in front.
pub fn word(bytes: &[u8]) -> Front
    ensures { front_view result ≡ word_of bytes.now }
{
    let word = name(bytes);
    Front::Passes(Part::Lexed(Raw::Word(word)), Change::Keep, word.len())
}

/// Whether a name stands in front, and no keyword.
pub fn begins_property(bytes: &[u8]) -> bool
    ensures { result ≡ begins_property_of bytes.now }
{
    match next(bytes) {
        Some((b, _)) => begins_name(b) && keyword(name(bytes).as_bytes()).is_none(),
        None => false,
    }
}

/// A letter or `_`.
pub fn begins_name(b: u8) -> bool
    ensures { result ≡ begins_name_of b }
{
    b.is_ascii_alphabetic() || b == b'_'
}

/// The name or keyword in front.
fn name(bytes: &[u8]) -> &str
    ensures { result.now ≡ take_while is_in_name_of bytes.now }
{
    let (name, _) = bytes.split_at(name_len(bytes));
    match str::from_utf8(name) {
        Ok(name) => name,
        Err(_) => unreachable!(),
    }
}

/// The longest number in front.
#[tactic(auto, unfolding(crate::specs::Word::number))]
pub fn number(place: Place, bytes: &[u8]) -> Front
    ensures { front_view result ≡ number_of place bytes.now }
{
    let (digits, _) = bytes.split_at(number_len(bytes));
    match value(digits) {
        Some(value) => Front::Passes(
            Part::Lexed(Raw::Number(value as i64)),
            Change::Keep,
            digits.len(),
        ),
        None => Front::Broken(LexFault::BigNumber { place }),
    }
}

/// The token, with memory of its own.
pub fn token_of(alloc: Global, raw: Raw) -> Result<Token, Mem>
    ensures { IfOk result (λ t. t ≡ raw_view raw.entry) }
{
    match raw {
        Raw::Word(word) => word_token(alloc, word),
        Raw::Number(number) => Ok(Token::Number(number)),
        Raw::Mark(mark) => Ok(Token::Mark(mark)),
        Raw::Separator => Ok(Token::Separator),
        Raw::OpenTemplate(kind) => Ok(Token::OpenTemplate(kind)),
        Raw::CloseTemplate(kind) => Ok(Token::CloseTemplate(kind)),
        Raw::OpenHole => Ok(Token::OpenHole),
        Raw::CloseHole => Ok(Token::CloseHole),
    }
}

#[tactic(auto, unfolding(crate::specs::Word::word_token))]
fn word_token(alloc: Global, word: &str) -> Result<Token, Mem>
    ensures { IfOk result (λ t. t ≡ word_token_of word.now) }
{
    match keyword(word.as_bytes()) {
        Some(keyword) => Ok(Token::Keyword(keyword)),
        None => Ok(Token::Name(Txt::of(String::from_str(alloc, word)?))),
    }
}

fn keyword(word: &[u8]) -> Option<Keyword>
    ensures { result ≡ keyword_in keywords word.now }
{
    if word == b"def".as_slice() {
        Some(Keyword::Def)
    } else if word == b"else".as_slice() {
        Some(Keyword::Else)
    } else if word == b"false".as_slice() {
        Some(Keyword::False)
    } else if word == b"if".as_slice() {
        Some(Keyword::If)
    } else if word == b"in".as_slice() {
        Some(Keyword::In)
    } else if word == b"null".as_slice() {
        Some(Keyword::Null)
    } else if word == b"return".as_slice() {
        Some(Keyword::Return)
    } else if word == b"true".as_slice() {
        Some(Keyword::True)
    } else {
        None
    }
}

/// The number of bytes of the name or keyword in front.
fn name_len(bytes: &[u8]) -> usize
    ensures is { result ≡ prefix_len is_in_name_of bytes.now }
    ensures within { result ≤ length bytes.now }
{
    bytes.iter().take_while(|b| is_in_name(**b)).count()
}

fn is_in_name(b: u8) -> bool
    ensures { result ≡ is_in_name_of b }
{
    b.is_ascii_alphanumeric() || b == b'_'
}

/// The number of digits in front.
fn number_len(bytes: &[u8]) -> usize
    ensures is { result ≡ prefix_len is_ascii_digit bytes.now }
    ensures within { result ≤ length bytes.now }
{
    bytes.iter().take_while(|b| b.is_ascii_digit()).count()
}

/// The number of these digits, where it is within the limit.
fn value(digits: &[u8]) -> Option<u64>
    requires { AllPass is_ascii_digit digits.now }
    ensures { SomeIff result (digits_value 10 digits.now ≤ limit) (digits_value 10 digits.now) }
{
    let mut value: u64 = 0;
    for b in digits {
        let digit = u64::from(*b - b'0');
        if value > (LIMIT - digit) / 10 {
            return None;
        }
        value = 10 * value + digit;
    }
    Some(value)
}
