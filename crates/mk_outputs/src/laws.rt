//! Laws of what is written, and of the generator's programs. Each is the contract of a function that does nothing.
ghost use Rattle.std.specs.Prelude.{ℕ, ◌≡◌, ◌≤◌, List, Option, Ok};
ghost use Rattle.mk_script.specs.Grammar.{program_of};
ghost use Rattle.mk_check.specs.Laws.{IsChecked, IsScript};
ghost use Rattle.mk_outputs.specs.Generated.{count_of_numbers, turns_of, generated_program};
ghost use Rattle.mk_outputs.specs.{Generated.generated_text, Laws.{DeclaresNodes, MakesTurns, IsSeen}};
ghost use Rattle.mk_outputs.specs.{Outputs.IsOutputOfCommand, declared.outputs.Output.Output};
ghost use Rattle.mk_outputs.specs.declared.commands.Command.{Command};

/// What is written of a run, of a text's program or of a generated one, is of a run that can be observed.
pub fn outputs_are_seen()
    ensures { (command : Command) (old new : Option (List ℕ)) (output : Output)
        → IsOutputOfCommand command old new output → IsSeen command old output.bytes.items }
{}

/// The generated text is a text of the generated program, which is well typed.
pub fn generated_programs_are_checked()
    ensures text { (start count : ℕ) → count ≤ 3000000
        → program_of (generated_text start count) ≡ Ok (generated_program start count) }
    ensures checked { (start count : ℕ) → count ≤ 3000000 → IsChecked (generated_program start count) }
{}

/// What a generated program declares.
pub fn generated_programs_declare_nodes()
    ensures { (start count : ℕ) → DeclaresNodes (generated_program start count) (count_of_numbers start) }
{}

/// A script that has ended has made all calls of its turns.
pub fn generated_scripts_make_their_turns()
    ensures { (start count k : ℕ) → IsScript (generated_program start count) k
        → MakesTurns (generated_program start count) k (turns_of count) }
{}
