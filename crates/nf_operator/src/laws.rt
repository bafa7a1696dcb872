//! Laws of the table, each a contract over the definitions alone.

ghost use Rattle.std.specs.Prelude.{◌<◌, ◌^◌, List, length};
ghost use Rattle.nf_bag.specs.Options.{Allows};
ghost use Rattle.nf_bag.specs.declared.options.OpOpts.{OpOpts};
ghost use Rattle.nf_bag.specs.declared.rows.Row.{Row};
ghost use Rattle.nf_opstream.specs.Operator.{AreFine, IsOperator};
ghost use Rattle.nf_opstream.specs.Push.{Push};
ghost use Rattle.nf_operator.specs.Row.{operator_of, ports_of, outs_of, output_kind};
ghost use Rattle.nf_operator.specs.Outputs.{HasOutputs, IsOfKind};
ghost use Rattle.nf_operator.specs.State.{HasRoom, IsAfter};
ghost use Rattle.nf_operator.specs.declared.state.OpState.{OpState};

use nf_opclose::laws as closing;
use nf_opjoin::laws::{combined, grouped, joined};
use nf_opstream::laws::{each_once, item_by_item};

/// Each row that its options allow is an operator: it emits the bag that it means, whatever the order of its items.
pub fn operators()
    ensures { (row : Row) → (opts : OpOpts) → Allows row opts → IsOperator (operator_of row opts) }
{
    item_by_item();
    each_once();
    closing::count();
    closing::if_empty();
    closing::to_list();
    closing::collect();
    closing::min();
    closing::max();
    closing::sum();
    closing::reduce();
    combined();
    joined();
    grouped();
}

/// Emits go to outputs that the row has.
pub fn outputs()
    ensures { (row : Row) → (opts : OpOpts) → HasOutputs (outs_of row opts) (operator_of row opts) }
{}

/// A row whose output is a value channel emits at most one value, a row whose outputs are as its inputs at most one where each input
/// has at most one.
pub fn kinds()
    ensures { (row : Row) → (opts : OpOpts) → IsOfKind (output_kind row) (ports_of row) (operator_of row opts) }
{}

/// After fewer than 2^32 pushes there is room for one more item.
pub fn room()
    ensures { (row : Row) (o : OpOpts) (p : List Push) (s : OpState) → IsAfter row o p s → length p < 2 ^ 32 → HasRoom s }
{
    closing::room();
}

/// No push had a fault before the state that it left.
pub fn fine()
    ensures { (row : Row) (o : OpOpts) (p : List Push) (s : OpState) → IsAfter row o p s → AreFine (operator_of row o) p }
{}
