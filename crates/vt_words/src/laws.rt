//! Laws over the definitions, each the contract of a function that does nothing. They go over the list of commands, and name none.

ghost use Rattle.std.specs.Prelude.{◌≡◌, ℕ, ◌↔◌, true, List, ◌∷◌, ◌++◌, length, map, Some, IfSome};
ghost use Rattle.std.specs.List.{list_all};
ghost use Rattle.std.specs.List.Sorted.{IsPermutation};
ghost use Rattle.word_schema.specs.Fits.{are_distinct, is_sound};
ghost use Rattle.word_schema.specs.Given.{Given, given_by};
ghost use Rattle.vt_words.specs.declared.command.Command.{Command};
ghost use Rattle.vt_words.specs.Command.{CommandRow, IsLawful, command_named, command_of, commands};
ghost use Rattle.zone_alloc.specs.declared.policy.Policy.{Policy};
ghost use Rattle.vt_words.specs.Policies.{policy_named, word_of, HasSeed};
ghost use Rattle.vt_words.specs.Written.{words_of};

/// States that the commands' names differ, and that each command's rows are sound: the names of its options differ, and each default is
/// a value of its option.
pub fn commands_are_sound()
    ensures names { are_distinct (map (λ command. command.schema.name) commands) ≡ true }
    ensures rows { list_all (λ command. is_sound command.schema) commands ≡ true }
{}

/// States that words are the same command in whatever order its options stand behind its operands.
pub fn options_stand_in_any_order()
    ensures { (name : List ℕ) (command : CommandRow) (front words others : List (List ℕ)) (given moved : List Given)
        → command_named name ≡ Some command → length front ≡ length command.schema.operands
        → given_by command.schema.options words ≡ Some given → given_by command.schema.options others ≡ Some moved → IsPermutation given moved
        → command_of (name ∷ front ++ words) ≡ command_of (name ∷ front ++ others) }
{}

/// States that a command that words are is lawful.
pub fn commands_are_lawful()
    ensures { (words : List (List ℕ)) → IfSome (command_of words) IsLawful }
{}

/// States that each lawful command is what some words are.
pub fn each_lawful_command_has_words()
    ensures { (command : Command) → IsLawful command → command_of (words_of command) ≡ Some command }
{}

/// States that a word is a policy exactly where it's that policy's name, and the policy has no seed but that of the words.
pub fn policies_are_named()
    ensures { (seed : ℕ) (word : List ℕ) (policy : Policy) → (policy_named seed word ≡ Some policy)
        ↔ ((word ≡ word_of policy) × HasSeed seed policy) }
{}
