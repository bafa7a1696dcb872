//! Laws of runs, each a contract over the definitions alone.

ghost use Rattle.std.specs.Prelude.{◌≡◌, ℕ, List, [], Option, Result};
ghost use Rattle.nf_value.specs.Plain.{Plain};
ghost use Rattle.nf_bag.specs.Tests.{IsSameByTests};
ghost use Rattle.nf_host.specs.Files.{Files};
ghost use Rattle.nf_job.specs.declared.report.Report.{Report};
ghost use Rattle.nf_tasks.specs.Memory.{Program};
ghost use Rattle.nf_tasks.specs.declared.target_list.Target.{Target};
ghost use Rattle.nf_publish.specs.Copies.{AreCopied, IsTrueOf, KeepsRest};
ghost use Rattle.nf_publish.specs.declared.fault.CopyRefusal.{CopyRefusal};
ghost use Rattle.nf_bodies.specs.Bodies.{body_in, published_of};
ghost use Rattle.nf_meaning.specs.Given.{Outcomes};
ghost use Rattle.nf_plan.specs.declared.builder.PlanBuilder.{PlanBuilder};
ghost use Rattle.nf_machine.specs.declared.event.Event.{Event};
ghost use Rattle.nf_ends.specs.declared.end.End.{End};
ghost use Rattle.nf_owed.specs.Ended.{EndsByStop, IsFaultless, IsFromOutside, meant_by};
ghost use Rattle.nf_owed.specs.Run.{Run, run_of};
ghost use Rattle.nf_owed.specs.Finished.{ComesTo, GoesFaultless, PublishesNone};
ghost use Rattle.nf_owed.specs.declared.finished.Finished.{Finished};

/// A run of which no report publishes a file publishes nothing, whatever comes of its tasks.
pub fn nothing_is_published()
    ensures { (n : Program) → (b : PlanBuilder)
        → ((i : ℕ) → (inputs : List Plain) → (attempt : ℕ) → (r : Report)
        → PublishesNone (published_of n (body_in b.infos.items i) inputs attempt r))
        → (o : Outcomes) → ((run_of n b).meaning o).targets ≡ [] }
{}

/// A run whose meaning has no fault and costs no more than the limit stops only by a failure outside of the script, or for
/// want of memory. So whether a run can fail is told by its meaning, whatever the order of its events.
pub fn stops_from_outside()
    ensures { (run : Run) → (h : List Event) → (e : End) → EndsByStop run h e → IsFaultless (meant_by run h)
        → IsFromOutside e }
{}

/// What a run comes to whose meaning has no fault and costs no more than the limit: it ended well, and it has its report, or
/// a target with two contents; or it stopped by a failure outside of the script, or for want of memory.
pub fn faultless_ends()
    ensures { (run : Run) → (h : List Event) → (r : Result Finished End) → ComesTo run h r → IsFaultless (meant_by run h)
        → GoesFaultless run h r }
{}

/// What copying out files says of them it says of every list with the same files, each as often: so of those that a script's
/// meaning publishes, where a run published them.
pub fn copies_alike()
    ensures copied { (ts : List Target) → (us : List Target) → (g : Files) → IsSameByTests ts us → AreCopied ts g
        → AreCopied us g }
    ensures others { (ts : List Target) → (us : List Target) → (f : Files) → (g : Files) → IsSameByTests ts us
        → KeepsRest ts f g → KeepsRest us f g }
    ensures refused { (ts : List Target) → (us : List Target) → (work : List ℕ) → (now : Option Files)
        → (e : CopyRefusal) → IsSameByTests ts us → IsTrueOf work ts now e → IsTrueOf work us now e }
{}
