//! A worked example of the definitions, as a contract: the check computes it.

ghost use Rattle.std.specs.Prelude.{◌≡◌};
ghost use Rattle.dispatch_program.specs.Prelude.{start_rows};
ghost use Rattle.dispatch_rules.specs.Dispatch.{program};
ghost use Rattle.dispatch_rules.specs.Examples.{small_rows, small_task};

/// The table of two thermal units and a renewable one over two periods, at its start.
pub fn tables_are_computed()
    ensures { start_rows (program small_task) ≡ small_rows }
{}
