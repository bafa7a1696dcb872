//! Laws of the machine, each a contract over the definitions alone.

ghost use Rattle.std.specs.Prelude.{◌≡◌, ◌<◌, ◌++◌, ◌∷◌, ◌↔◌, List, [], ℕ, false};
ghost use Rattle.nf_job.specs.declared.fault.TaskFault.{TaskFault};
ghost use Rattle.nf_graph.specs.Rules.{Rules, IsRules};
ghost use Rattle.nf_graph.specs.Node.{PlainNode, IsGraph};
ghost use Rattle.nf_graph.specs.Meaning.{Outcomes};
ghost use Rattle.nf_machine.specs.Event.{PlainEvent};
ghost use Rattle.nf_machine.specs.State.{Ticket, State};
ghost use Rattle.nf_machine.specs.Step.{step, replay};
ghost use Rattle.nf_machine.specs.Legal.{IsLegal};
ghost use Rattle.nf_machine.specs.History.{IsLawful, after, IsHistory, is_over, outcomes_of, Agrees};
ghost use Rattle.nf_machine.specs.Beside.{IsBeside};
ghost use Rattle.nf_machine.specs.Going.{HasMove, work};
ghost use Rattle.nf_machine.specs.Refused.{LacksJob, FailsItsRun};

/// Whatever the order of its events, a lawful history is beside the meaning of its graph, under all outcomes that agree with it.
pub fn every_order()
    ensures { (g : List PlainNode) → (R : Rules) → (o : Outcomes) → (h : List PlainEvent) → IsGraph g → IsHistory g R h
        → Agrees o (after g h) → IsBeside g R o (after g h) }
{}

/// The outcomes that a history tells agree with it: the reports of each task that came back, is in flight or was given up.
pub fn own_outcomes()
    ensures { (g : List PlainNode) → (R : Rules) → (h : List PlainEvent) → IsGraph g → IsHistory g R h
        → Agrees (outcomes_of (after g h)) (after g h) }
{}

/// A task whose attempt has no job, be it the first or a later one, fails its run: its ticket can only be given up, its instance emits
/// nothing and has the fault of that attempt alone, and the run doesn't end well.
pub fn attempt_without_a_job()
    ensures { (g : List PlainNode) → (R : Rules) → (h : List PlainEvent) → (k : Ticket) → (f : TaskFault) → IsGraph g → IsHistory g R h
        → LacksJob g R (after g h) k f → FailsItsRun g R (after g h) k f }
{}

/// A run that isn't over and has nothing in flight has a legal Pass, Take or Close.
pub fn goes_on()
    ensures { (g : List PlainNode) → (R : Rules) → (h : List PlainEvent) → IsGraph g → IsHistory g R h
        → is_over g (after g h) ≡ false → (after g h).tickets ≡ [] → HasMove g R (after g h) }
{}

/// Each event of a run leaves less to do, so that no run goes on for ever.
pub fn comes_to_an_end()
    ensures { (g : List PlainNode) → (R : Rules) → (h : List PlainEvent) → (e : PlainEvent) → IsGraph g → IsRules R
        → IsHistory g R h → IsLegal g R (after g h) e → work g (step g (after g h) e) < work g (after g h) }
{}

/// A history grows at its end: its last event is a step from the state after the others, and the whole is lawful exactly if they are
/// and that step is legal.
#[tactic(auto, using(crate::proofs::Growing::replay_grows, crate::proofs::Growing::lawful_grows))]
pub fn one_event_more()
    ensures state { (g : List PlainNode) → (s : State) → (h : List PlainEvent) → (e : PlainEvent)
        → replay g s (h ++ e ∷ []) ≡ step g (replay g s h) e }
    ensures lawful { (g : List PlainNode) → (R : Rules) → (s : State) → (h : List PlainEvent) → (e : PlainEvent)
        → IsLawful g R s (h ++ e ∷ []) ↔ (IsLawful g R s h × IsLegal g R (replay g s h) e) }
{}
