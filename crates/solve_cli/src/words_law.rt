//! The commands as they are written. The function here does nothing; its contract carries the law.
ghost use Rattle.std.specs.Prelude.{◌≡◌, ◌↔◌, ℕ, List, Some};
ghost use Rattle.solve_cli.specs.Words.{Job, Spells, command_of};

/// Words are read as a command exactly where they are that command written down: `solve` or `check` and the command's options in any
/// order, each at most once, or `market` and its three numbers; then two different names of files. Numbers have their shortest
/// decimal digits.
pub fn command_is_spelled()
    ensures read { (words : List (List ℕ)) (command : Job) → (command_of words ≡ Some command) ↔ Spells words command }
    ensures one { (words : List (List ℕ)) (one other : Job) → Spells words one → Spells words other → one ≡ other }
{}
