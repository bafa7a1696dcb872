//! What an operator is called on that is called by its name.

ghost use Rattle.std.specs.List.{position};
ghost use Rattle.std.specs.Prelude.{◌≡◌, option_map};
ghost use Rattle.nf_order.specs.Callees.{receiver};
ghost use Rattle.nf_order.specs.Standing.{is_unnamed};

use nf_kinds::Given;

/// Takes the first argument without a name, and leaves the others.
pub(crate) fn take_receiver(args: &mut Vec<Given>) -> Option<Given>
    ensures { receiver args.old.items ≡ option_map (λ g. record { of = g; others = args.new.items }) result }
{
    match first_unnamed(args) {
        Some(place) => Some(args.remove(place)),
        None => None,
    }
}

/// The place of the first argument without a name.
fn first_unnamed(args: &[Given]) -> Option<usize>
    ensures { result ≡ position is_unnamed args.now }
{
    args.iter().position(|given| given.option.is_none())
}
