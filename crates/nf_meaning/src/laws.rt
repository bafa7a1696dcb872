//! Laws of the meaning of scripts, each a contract over the definitions alone.

ghost use Rattle.std.specs.Prelude.{◌≡◌, ◌+◌, [], ◌∷◌, ◌++◌, List, ℕ, length, true, false, Option, Ok};
ghost use Rattle.std.specs.List.{IsDistinct};
ghost use Rattle.std.specs.Str.{bytes_eq};
ghost use Rattle.nf_value.specs.Plain.{Plain};
ghost use Rattle.nf_ast.specs.Tree.{Tree};
ghost use Rattle.nf_graph.specs.Rules.{Rules};
ghost use Rattle.nf_graph.specs.Node.{PlainNode, IsGraph, node_at, source};
ghost use Rattle.nf_graph.specs.Meaning.{Outcomes, bags};
ghost use Rattle.nf_tasks.specs.Evaluation.{Definition};
ghost use Rattle.nf_meaning.specs.Functions.{names_of, in_order, CallsOnlyEarlier, NoneLeftOut};
ghost use Rattle.nf_meaning.specs.Things.{Thing, Channel};
ghost use Rattle.nf_meaning.specs.Stands.{PortThing, ScopeBelow, ScopeStands, StandsFor};
ghost use Rattle.nf_meaning.specs.Meaning.{ScriptMeaning, Instance};
ghost use Rattle.nf_meaning.specs.Given as given;
ghost use Rattle.nf_meaning.specs.Given.{Given, Found};
ghost use Rattle.nf_meaning.specs.Walk.{State};
ghost use Rattle.nf_meaning.specs.Script.{around, around_at, definitions_of, meaning_of, paths_of, wants_of, workflow_walk};
ghost use Rattle.nf_meaning.specs.Few.{ScopeFew, WalkFew};
ghost use Rattle.nf_meaning.specs.CallPaths.{NamesArePlain, MadeBy, EachOnce, BodyCalls, GoesOn, HasNoPath, PathsAreCalled, Within, inside, is_plain_name};
ghost use Rattle.nf_names_used.specs.Natives.{is_among};
ghost use Rattle.nf_meaning.specs.Outside.{fault_of, in_run};
ghost use Rattle.nf_meaning.specs.Operators as operators;
ghost use Rattle.nf_meaning.specs.Operators.{Call};
ghost use Rattle.nf_meaning.specs.Tasks as tasks;
ghost use Rattle.nf_meaning.specs.Tasks.{TaskCall, targets_in};
ghost use Rattle.nf_meaning.specs.Deciding.{DecidedAt, DecidesAlone, IsUndecided};
ghost use Rattle.nf_meaning.specs.Nodes.{Site, IsCallSite, MeansCall, IsTaskSite, MeansTasks, IsCallNode, IsTaskNode, port_to};
ghost use Rattle.nf_meaning.specs.Report.{report_of, charge_of, AreSameBags, ShowsSame};

use nf_bag::laws::{distinct_values, sorting, sums};
use nf_graph::laws::{added_later, node_by_node};

/// A scope of ports stands for the same names and bags after nodes are added behind those that it reads.
pub fn scope_stands_on()
    ensures { (g : List PlainNode) → (h : List PlainNode) → (R : Rules) → (o : Outcomes)
        → (xs : List (List ℕ × PortThing)) → (ys : List (List ℕ × Thing)) → ScopeBelow (length g) xs
        → ScopeStands (bags R o g) xs ys → ScopeStands (bags R o (g ++ h)) xs ys }
{
    added_later();
}

/// A node of an operator whose ports stand for the channels of a call, under rules that answer items as the call does,
/// means what the call means.
pub fn operator_node()
    ensures { (x : Site) → (c : Call) → IsCallSite x c → MeansCall x c }
{}

/// A node of a process whose ports stand for the channels of a call, under rules and outcomes that are those of the
/// call, means what the call means.
pub fn process_node()
    ensures { (x : Site) → (queue : Option ℕ) → (c : TaskCall) → IsTaskSite x queue c → MeansTasks x queue c }
{}

/// In a graph, a port that reads an output of a call's node stands for that output of the call, and a port that reads
/// a source for the channel of its items.
pub fn outputs_stand()
    ensures source { (g : List PlainNode) → (R : Rules) → (o : Outcomes) → (i : ℕ) → (c : Channel) → IsGraph g
        → (node_at g i).kind ≡ source c.bag → StandsFor (bags R o g) (port_to i 0 c) c }
    ensures call { (g : List PlainNode) → (R : Rules) → (o : Outcomes) → (i : ℕ) → (k : ℕ) → (c : Call) → IsGraph g
        → IsCallNode g R o i c
        → StandsFor (bags R o g) (port_to i k (operators.given_at c k)) (operators.given_at c k) }
    ensures tasks { (g : List PlainNode) → (R : Rules) → (o : Outcomes) → (i : ℕ) → (k : ℕ) → (c : TaskCall) → IsGraph g
        → IsTaskNode g R o i c → StandsFor (bags R o g) (port_to i k (tasks.given_at c k)) (tasks.given_at c k) }
{
    node_by_node();
}

/// The report depends on the bags of the views and of what is published alone, and the charge on the bags of the
/// deliveries.
pub fn by_bags()
    ensures report { (m : ScriptMeaning) → (n : ScriptMeaning) → ShowsSame m n → report_of m ≡ report_of n }
    ensures charge { (m : ScriptMeaning) → (n : ScriptMeaning) → AreSameBags m.deliveries n.deliveries
        → charge_of m ≡ charge_of n }
{
    sorting();
    distinct_values();
    sums();
}

/// The functions of a script that don't lead back stand in an order in which each calls only those before it, and each
/// that calls only functions of the order stands in it.
pub fn functions_in_order()
    ensures order { (ds : List Definition) → CallsOnlyEarlier (names_of ds) (in_order ds) }
    ensures whole { (ds : List Definition) → NoneLeftOut (names_of ds) (in_order ds) ds }
{}

/// The first report of a task that isn't tried again alone says what the task comes to, and what is published. As long
/// as there is none nothing is published.
pub fn first_to_decide()
    ensures decided { (c : TaskCall) → (z : Instance) → (d : DecidedAt c z)
        → DecidesAlone c z (1 + length d.earlier) d.report }
    ensures waiting { (c : TaskCall) → (z : Instance) → IsUndecided c z → targets_in c z ≡ [] }
{}

/// The calls of processes in a script have different paths, whatever workflows they stand in, each task is of one of
/// them, and no task stands twice in the meaning.
pub fn calls_are_apart()
    ensures apart { (g : Given) → (paths : List (List ℕ)) → NamesArePlain (definitions_of g.tops)
        → paths_of g ≡ Ok paths → IsDistinct bytes_eq paths }
    ensures tasks { (g : Given) → (m : ScriptMeaning) → (paths : List (List ℕ)) → NamesArePlain (definitions_of g.tops)
        → meaning_of g ≡ Ok m → paths_of g ≡ Ok paths → MadeBy paths m.instances }
    ensures once { (g : Given) → (m : ScriptMeaning) → NamesArePlain (definitions_of g.tops) → meaning_of g ≡ Ok m
        → EachOnce m.instances }
{}

/// While a body is gone through, each path that comes belongs to a call of a name that wasn't called in it before; so do those of one
/// part after another, and those of whole calls. So the path of a name that isn't called yet is new, also after its arguments.
pub fn paths_stay_apart()
    ensures more { (s : BodyCalls) → (t : BodyCalls) → t.path ≡ s.path → t.paths ≡ s.paths → Within s.called t.called
        → GoesOn s t }
    ensures again { (s : BodyCalls) → (t : BodyCalls) → (u : BodyCalls) → GoesOn s t → GoesOn t u → GoesOn s u }
    ensures called { (s : BodyCalls) → (t : BodyCalls) → GoesOn s t → PathsAreCalled s → PathsAreCalled t }
    ensures none { (s : BodyCalls) → (n : List ℕ) → PathsAreCalled s → is_plain_name n ≡ true
        → is_among n s.called ≡ false → HasNoPath s n }
    ensures still { (s : BodyCalls) → (t : BodyCalls) → (n : List ℕ) → GoesOn s t → is_plain_name n ≡ true
        → is_among n s.called ≡ true → HasNoPath s n → HasNoPath t n }
    ensures new { (s : BodyCalls) → (n : List ℕ) → HasNoPath s n → is_among (s.path ++ n) s.paths ≡ false }
    ensures process { (s : BodyCalls) → (t : BodyCalls) → (u : BodyCalls) → (n : List ℕ) → GoesOn s t
        → is_plain_name n ≡ true → is_among n s.called ≡ false → is_among n t.called ≡ true → u.path ≡ t.path
        → u.called ≡ t.called → u.paths ≡ t.paths ++ (s.path ++ n) ∷ [] → GoesOn s u }
    ensures added { (s : BodyCalls) → (t : BodyCalls) → (n : List ℕ) → PathsAreCalled s → is_plain_name n ≡ true
        → is_among n s.called ≡ true → t.path ≡ s.path → t.called ≡ s.called → t.paths ≡ s.paths ++ (s.path ++ n) ∷ []
        → PathsAreCalled t }
    ensures in_body { (s : BodyCalls) → (n : List ℕ) → HasNoPath s n → PathsAreCalled (inside n s) }
    ensures workflow { (s : BodyCalls) → (t : BodyCalls) → (i : BodyCalls) → (u : BodyCalls) → (n : List ℕ)
        → GoesOn s t → is_plain_name n ≡ true → is_among n s.called ≡ false → is_among n t.called ≡ true
        → GoesOn (inside n t) i → u.path ≡ t.path → u.called ≡ t.called → u.paths ≡ i.paths → GoesOn s u }
{}

/// The fault of a script, the paths whose files it reads and the paths of its calls are the same in all its runs: they
/// depend neither on the files that are found nor on the outcomes of tasks.
pub fn text_alone()
    ensures fault { (g : Given) → (found : List Found) → (o : given.Outcomes)
        → fault_of (meaning_of (in_run g found o)) ≡ fault_of (meaning_of g) }
    ensures wants { (g : Given) → (found : List Found) → (o : given.Outcomes)
        → wants_of (in_run g found o) ≡ wants_of g }
    ensures paths { (g : Given) → (found : List Found) → (o : given.Outcomes)
        → paths_of (in_run g found o) ≡ paths_of g }
{}

/// Each value channel that a workflow's body knows or emits holds at most one item, where those that it begins with do.
pub fn value_channels()
    ensures { (g : Given) → (params : List (List ℕ × Plain)) → (deep : ℕ) → (body : Tree) → (s : State)
        → ScopeFew s.scope → WalkFew (workflow_walk body (around_at (around g params) deep) s) }
{}
