//! Laws of the scripts of a checked program. Each is the contract of a function that does nothing.
ghost use Rattle.std.specs.Prelude.{ℕ, ◌≤◌, List, [], length};
ghost use Rattle.mk_never.specs.NeverHeap.{Call};
ghost use Rattle.mk_core.specs.declared.events.Answer.{Answer};
ghost use Rattle.mk_script.specs.{declared.items.Item.Item, Scopes.script_names};
ghost use Rattle.mk_check.specs.Laws.{IsChecked, IsScript, AreNotedBy, AnswersAreNoted, OthersAreIgnored};
ghost use Rattle.mk_check.specs.Laws.{AreAdmittedFor, NextIsAdmitted, AreOfScripts, ScriptsAskForFew};
ghost use Rattle.mk_check.specs.Feed.{EndedCallsAreAnswered};
ghost use Rattle.mk_check.specs.ObservedLaws.{EachCallIsAskedFor};
ghost use Rattle.mk_check.specs.ObservedLaws.{AnswersAreImages, NoneIsLeftOver, ObservedRunsAreAdmitted};
ghost use Rattle.mk_check.specs.ObservedLaws.{WordsAreNotTold};
ghost use Rattle.mk_check.specs.Blocks.{ScriptsAreTheirLines};

/// What a script asks for next is admitted: after any admitted calls, whatever their other callers did, if
/// its own are those that it noted so far.
#[tactic(auto, using(crate::proofs::AdmittedScripts::next_is_admitted))]
pub fn the_next_operation_is_admitted()
    ensures { (program : List Item) (callers : ℕ) (calls : List Call) (k : ℕ) (answers : List Answer)
        → IsChecked program → length (script_names program) ≤ callers → IsScript program k
        → AreAdmittedFor program callers calls → AreNotedBy program k answers calls
        → NextIsAdmitted program callers calls k answers }
{}

/// A caller's operations are those that its script notes: before any call, and still with one call more, whether
/// it is what the script asks for next or another caller's.
#[tactic(auto, using(crate::proofs::AdmittedScripts::what_scripts_ask_is_noted_facts))]
pub fn what_scripts_ask_is_noted()
    ensures at_first { (program : List Item) (k : ℕ) → AreNotedBy program k [] [] }
    ensures answered { (program : List Item) (k : ℕ) (answers : List Answer) (calls : List Call)
        → AreNotedBy program k answers calls → AnswersAreNoted program k answers calls }
    ensures ignored { (program : List Item) (k : ℕ) (answers : List Answer) (calls : List Call)
        → AreNotedBy program k answers calls → OthersAreIgnored program k answers calls }
{}

/// Scripts call no more than is admitted, in whatever order they take their turns and whatever they are answered.
pub fn what_scripts_ask_is_admitted()
    ensures { (program : List Item) (callers : ℕ) (calls : List Call)
        → IsChecked program → length (script_names program) ≤ callers → AreOfScripts program calls
        → AreAdmittedFor program callers calls }
{}

/// A script of a well-typed program asks for at most a million operations, whatever they are answered.
#[tactic(auto, using(crate::proofs::FewOperations::scripts_ask_for_few))]
pub fn scripts_ask_for_few()
    ensures { ScriptsAskForFew }
{}

/// A script's blocks, written out as lines again with their `else` and `end`, are its lines.
#[tactic(auto, using(crate::proofs::WrittenLines::scripts_are_their_lines))]
pub fn blocks_are_lines()
    ensures { (program : List Item) → ScriptsAreTheirLines program }
{}

/// After each enabled list of events, each call that ended has an answer, which its script is given.
#[tactic(auto, using(crate::proofs::GivenAnswers::ended_calls_are_answered))]
pub fn ended_calls_are_answered()
    ensures { EndedCallsAreAnswered }
{}

/// A script does the same whichever word it loaded: it isn't told which.
pub fn words_are_not_told()
    ensures { WordsAreNotTold }
{}

/// Where the answers are the images of the replies, a caller's answers are those of the replies to it.
pub fn answers_are_images()
    ensures { AnswersAreImages }
{}

/// The calls of a run that can be observed are admitted, and no script is told more than it asked for.
pub fn observed_runs_are_admitted()
    ensures admitted { ObservedRunsAreAdmitted }
    ensures none_left { NoneIsLeftOver }
{}

/// Each call of a run that can be observed is what its script asks for, told the replies before it.
pub fn each_call_is_asked_for()
    ensures { EachCallIsAskedFor }
{}
