//! Laws that join the order rules to the meaning of scripts, each a contract over the definitions alone.

ghost use Rattle.std.specs.Prelude.{◌≡◌, [], List, ℕ, Some, true, false};
ghost use Rattle.nf_value.specs.declared.place.Place.{Place};
ghost use Rattle.nf_bag.specs.declared.rows.Row.TheVariants as row;
ghost use Rattle.nf_optable.specs.declared.operator.Operator.TheVariants.{Bag};
ghost use Rattle.nf_optable.specs.declared.rows.OpRow.{OpRow};
ghost use Rattle.nf_kinds.specs.declared.kinds.Kinds.{Kinds};
ghost use Rattle.nf_kinds.specs.declared.kinds.Key.{Key};
ghost use Rattle.nf_kinds.specs.declared.args.Given.{Given};
ghost use Rattle.nf_kinds.specs.Kinds.{Shaped, alone, output_of};
ghost use Rattle.nf_kinds.specs.Scope as order;
ghost use Rattle.nf_kinds.specs.Scope.{defined, assigned, call_made, left_by, after_both, read_name};
ghost use Rattle.nf_opkinds.specs.Operators.{rules_of, set_to};
ghost use Rattle.nf_opkinds.specs.Calls.{has_two_queues};
ghost use Rattle.nf_meaning.specs.Calls as meant;
ghost use Rattle.nf_meaning.specs.Things.{Thing, a_channel, outputs, Channel, Output, thing_named};
ghost use Rattle.nf_meaning.specs.Walk.{Scope, things_in, defining, assigning, calling, leaving};
ghost use Rattle.nf_agreed.specs.Fits.{MayFlow, output_by, Fits, SameNames, ScopeFits, ArgsFit};

/// After both arms of an `if`, what is known of a body fits its names, whichever arm was taken.
pub fn either_arm()
    ensures first { (a : order.Scope) → (b : order.Scope) → (x : Scope) → SameNames a.locals b.locals → ScopeFits a x
        → ScopeFits (after_both a b) x }
    ensures second { (a : order.Scope) → (b : order.Scope) → (x : Scope) → SameNames a.locals b.locals → ScopeFits b x
        → ScopeFits (after_both a b) x }
{}

/// What is known of a body fits its names after a name is defined or assigned, after a call, and after braces.
pub fn names_bound()
    ensures defined { (n : List ℕ) → (s : Shaped) → (t : Thing) → (o : order.Scope) → (x : Scope) → Fits s t
        → ScopeFits o x → ScopeFits (defined n s o) (defining n t x) }
    ensures assigned { (n : List ℕ) → (s : Shaped) → (t : Thing) → (o : order.Scope) → (x : Scope) → Fits s t
        → ScopeFits o x → ScopeFits (assigned n s o) (assigning n t x) }
    ensures called { (n : List ℕ) → (s : Shaped) → (os : List Output) → (o : order.Scope) → (x : Scope)
        → Fits s (outputs os) → ScopeFits o x → ScopeFits (call_made n s o) (calling n os x) }
    ensures left { (o : order.Scope) → (p : order.Scope) → (x : Scope) → (y : Scope) → ScopeFits o x → ScopeFits p y
        → ScopeFits (left_by o p) (leaving x y) }
{}

/// What a name of a body stands for may be that.
pub fn names_read()
    ensures { (n : List ℕ) → (t : Thing) → (o : order.Scope) → (x : Scope) → ScopeFits o x
        → thing_named n (things_in x) ≡ Some t → Fits (read_name n o) t }
{}

/// What is known of a body fits its names after `set`, also where that is called on a plain value, which binds no name.
pub fn names_set()
    ensures bound { (n : List ℕ) → (s : Shaped) → (t : Thing) → (o : order.Scope) → (x : Scope) → Fits s t
        → ScopeFits o x → ScopeFits (set_to s.kinds.plain n s o) (assigning n t x) }
    ensures kept { (n : List ℕ) → (s : Shaped) → (o : order.Scope) → (x : Scope) → s.kinds.plain ≡ true
        → ScopeFits o x → ScopeFits (set_to s.kinds.plain n s o) x }
{}

/// An output of a call, by its place or its name, may be what it is.
pub fn outputs_read()
    ensures { (k : Key) → (s : Shaped) → (os : List Output) → (c : Channel) → Fits s (outputs os)
        → output_by k os ≡ Some c → Fits (alone (output_of k s)) (a_channel c) }
{}

/// A process whose call doesn't break the first rule reads at most one queue, so that the meaning doesn't refuse it for that.
pub fn one_queue()
    ensures { (gs : List Given) → (cs : List Channel) → ArgsFit gs cs → has_two_queues gs ≡ false
        → meant.has_two_queues cs ≡ false }
{}

/// `first` and `last`, where their call breaks no rule, are of a value channel.
pub fn no_arrival()
    ensures first { (r : OpRow) → (p : Place) → (k : Kinds) → (gs : List Given) → (c : Channel)
        → r.operator ≡ Bag row.First → MayFlow k c → rules_of r p k gs ≡ [] → c.is_value ≡ true }
    ensures last { (r : OpRow) → (p : Place) → (k : Kinds) → (gs : List Given) → (c : Channel)
        → r.operator ≡ Bag row.Last → MayFlow k c → rules_of r p k gs ≡ [] → c.is_value ≡ true }
{}
