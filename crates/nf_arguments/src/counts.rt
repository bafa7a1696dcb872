//! Arguments with and without a name.

ghost use Rattle.std.specs.Prelude.{◌≡◌, ◌≤◌, length, map, if◌then◌else◌};
ghost use Rattle.nf_meaning.specs.Arguments.{unnamed};
ghost use Rattle.nf_arguments.specs.Written.{SplitsAtFirst, arg_of};

use nf_ast::Arg;

pub(crate) fn count_if(is_there: bool) -> usize
    ensures { result ≡ (if is_there then 1 else 0) }
{
    if is_there { 1 } else { 0 }
}

/// How many have no name.
pub(crate) fn unnamed_in(args: &[Arg]) -> usize
    ensures count { result ≡ unnamed (map arg_of args.now) }
    ensures within { result ≤ length args.now }
{
    let mut count = 0;
    for arg in args {
        count += count_if(arg.name.is_none());
    }
    count
}

/// Those before the first without a name, that one, and those after it.
pub(crate) fn around_unnamed(args: &[Arg]) -> Option<(&[Arg], &Arg, &[Arg])>
    ensures { SplitsAtFirst args.now result }
{
    for (at, arg) in args.iter().enumerate() {
        if arg.name.is_none() {
            let (before, rest) = args.split_at(at);
            return Some((before, arg, &rest[1..]));
        }
    }
    None
}
