//! The law over the machine that is generated.

ghost use Rattle.std.specs.Prelude.{◌≤◌, ℕ};
ghost use Rattle.machine_desc.specs.Rules.{IsAccepted};
ghost use Rattle.generated_machine.specs.Generated.{generated};

/// States that the machine of 1 to 4,096 processors is accepted.
pub fn generated_machines_are_accepted()
    ensures { (processors : ℕ) → 1 ≤ processors → processors ≤ 4096 → IsAccepted (generated processors) }
{}
