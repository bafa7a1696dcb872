//! Whether a script is run: it keeps the order rules.

ghost use Rattle.std.specs.Prelude.{◌≡◌, IfErr, IfOk, OnOk};
ghost use Rattle.nf_ast.specs.Tops.{view_script};
ghost use Rattle.nf_request.specs.Steps.{IsOrdered, IsRefused, end_of_order};

use nf_ast::Script;
use nf_ends::End;
use nf_kinds::Broken;
use nf_order::{Accepted, OrderFault, check};
use std::alloc::Global;

/// The script, if it breaks no order rule (own).
///
/// # Errors
///
/// `Order` exactly if it breaks one, with the rule that is broken first in the text. `Mem` if there is no memory to check it.
pub fn accepted(alloc: Global, script: Script) -> Result<Accepted, End>
    ensures script { IfOk result (λ a. a ≡ script) }
    ensures ordered { OnOk result (IsOrdered (view_script script)) }
    ensures refused { IfErr result (IsRefused (view_script script)) }
{
    match check(alloc, script) {
        Ok(accepted) => Ok(accepted),
        Err(fault) => Err(order_end(fault)),
    }
}

fn order_end(fault: OrderFault) -> End
    ensures { result ≡ end_of_order fault }
{
    match fault {
        OrderFault::Rule { rule, place } => End::Order(Broken { rule, place }),
        OrderFault::Mem => End::Mem,
    }
}
