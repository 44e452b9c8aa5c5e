ghost use Rattle.std.specs.Prelude.{◌≡◌, ℕ, List, [], ◌∷◌, ◌++◌, IfOk, OnOk, map, string_bytes};
ghost use Rattle.std.specs.Prelude.{None, Some, true};
ghost use Rattle.std.specs.Process.{command_program, command_args, command_var, command_dir};
ghost use Rattle.std.specs.Process.{clears_env, SameProgramAndArgs, SameEnv};
ghost use Rattle.std.specs.Process.{SameDir, SameOtherVars};
ghost use Rattle.processes.specs.Process.{IsProcessOf, said};

use crate::disk::ChildErrors;
use actions::{Command, EnvironmentVariable};
use std::alloc::{AllocError, Allocator};
use std::process;
use std::process::Stdio;

/// Adds an argument.
fn add_argument<A: Allocator + Copy>(
    process: &mut process::Command<A>,
    argument: &str,
) -> Result<(), AllocError>
    ensures added { OnOk result (command_args process.new
        ≡ command_args process.old ++ argument.now ∷ []) }
    ensures program { OnOk result (command_program process.new ≡ command_program process.old) }
    ensures env { OnOk result (SameEnv process.old process.new) }
    ensures dir { OnOk result (SameDir process.old process.new) }
{
    process.arg(argument)?;
    Ok(())
}

/// Adds arguments.
fn add_arguments<A: Allocator + Copy>(
    process: &mut process::Command<A>,
    arguments: &[String<A>],
) -> Result<(), AllocError>
    ensures added { OnOk result (command_args process.new
        ≡ command_args process.old ++ map string_bytes arguments.now) }
    ensures program { OnOk result (command_program process.new ≡ command_program process.old) }
    ensures env { OnOk result (SameEnv process.old process.new) }
    ensures dir { OnOk result (SameDir process.old process.new) }
{
    for argument in arguments {
        add_argument(process, argument.as_str())?;
    }
    Ok(())
}

/// Sets a variable.
fn set_variable<A: Allocator + Copy>(
    process: &mut process::Command<A>,
    name: &str,
    value: &str,
) -> Result<(), AllocError>
    ensures said { OnOk result (command_var process.new name.now ≡ Some (Some value.now)) }
    ensures others { OnOk result (SameOtherVars process.old process.new name.now) }
    ensures call { OnOk result (SameProgramAndArgs process.old process.new) }
    ensures clears { OnOk result (clears_env process.new ≡ clears_env process.old) }
    ensures dir { OnOk result (SameDir process.old process.new) }
{
    process.env(name, value)?;
    Ok(())
}

/// Sets variables.
fn set_variables<A: Allocator + Copy>(
    process: &mut process::Command<A>,
    environment: &[EnvironmentVariable<A>],
) -> Result<(), AllocError>
    ensures said { OnOk result ((name : List ℕ) → command_var process.new name
        ≡ said (command_var process.old name) environment.now name) }
    ensures call { OnOk result (SameProgramAndArgs process.old process.new) }
    ensures clears { OnOk result (clears_env process.new ≡ clears_env process.old) }
    ensures dir { OnOk result (SameDir process.old process.new) }
{
    for variable in environment {
        set_variable(process, variable.name(), variable.value())?;
    }
    Ok(())
}

/// A process of a program without arguments, which inherits no variable, starts in a folder, and
/// has an empty standard input. What it writes to its standard output is thrown away.
fn new_process<A: Allocator + Copy>(
    alloc: A,
    program: &str,
    folder: &str,
    errors: ChildErrors,
) -> Result<process::Command<A>, AllocError>
    ensures program { IfOk result (λ p. command_program p ≡ program.now) }
    ensures arguments { IfOk result (λ p. command_args p ≡ []) }
    ensures clears { IfOk result (λ p. clears_env p ≡ true) }
    ensures said { IfOk result (λ p. (name : List ℕ) → command_var p name ≡ None) }
    ensures dir { IfOk result (λ p. command_dir p ≡ Some folder.now) }
{
    let mut process = process::Command::new(alloc, program)?;
    process.env_clear();
    process.current_dir(folder)?;
    process.stdin(Stdio::null());
    process.stdout(Stdio::null());
    process.stderr(errors.stream());
    Ok(process)
}

/// The process of a command.
pub(crate) fn process_of<A: Allocator + Copy>(
    alloc: A,
    command: &Command<A>,
    folder: &str,
    errors: ChildErrors,
) -> Result<process::Command<A>, AllocError>
    ensures { IfOk result (IsProcessOf folder.now command.now) }
{
    let [program, arguments @ ..] = command.arguments() else {
        return Err(AllocError);
    };
    let mut process = new_process(alloc, program.as_str(), folder, errors)?;
    add_arguments(&mut process, arguments)?;
    set_variables(&mut process, command.environment())?;
    Ok(process)
}
