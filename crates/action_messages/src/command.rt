ghost use Rattle.std.specs.Prelude.{◌≡◌, ◌↔◌, Bool, None, Contains, IfOk, IfSome, IsOk, IsTrue};
ghost use Rattle.std.specs.Prelude.{List, [], OnOk, Ok, map};
ghost use Rattle.std.specs.Bool.{OnTrue};
ghost use Rattle.std.specs.List.{AllByRecursion, list_all};
ghost use Rattle.std.specs.Option.{option_copied};
ghost use Rattle.std.specs.String.{string_bytes};
ghost use Rattle.wire.specs.Steps.{Gives};
ghost use Rattle.messages.specs.Gives.{GivesUnlessMemory};
ghost use Rattle.messages.specs.Path.{IsPath};
ghost use Rattle.action_messages.specs.Setting.{IsSetting};
ghost use Rattle.action_messages.specs.Command.{CommandValue, IsCommand, are_arguments};
ghost use Rattle.action_messages.specs.Command.{is_argument, is_variable_name, is_variable};
ghost use Rattle.action_messages.specs.Command.{directory_text};
ghost use Rattle.action_messages.specs.Command.{working_directory_of, texts_checked, lists_checked};
ghost use Rattle.action_messages.specs.Command.{command_of, command_bytes, decoded_command};

use crate::copying::{copy_directory, copy_paths, copy_settings, copy_texts};
use crate::fields::{read_paths, read_strings, write_paths, write_strings};
use crate::listed::{check_paths, has_text, some_under};
use crate::setting::{EnvironmentVariable, Setting};
use crate::shapes::command_shape;
use canonical::{read_bytes, write_bytes};
use messages::{
    Encode, Message, MessageError, Path, check_order, decode, read_each, read_fields, write_each,
};
use std::alloc::{AllocError, Allocator};
use std::marker::Model;

/// What is run: arguments, of which the first names the program; an environment, strictly
/// ascending by name; a working directory in the input root; and the paths of what it makes,
/// strictly ascending as texts, none under another.
#[derive(Drop)]
#[derive_where(Debug)]
pub struct Command<A: Allocator> {
    arguments: Vec<String<A>, A>,
    environment: Vec<EnvironmentVariable<A>, A>,
    working_directory: Option<Path<A>>,
    output_paths: Vec<Path<A>, A>,
}

impl<A: Allocator> Model for Command<A> {
    ghost use Rattle.std.specs.Prelude.{map};
    ghost use Rattle.std.specs.String.{string_bytes};
    ghost use Rattle.action_messages.specs.Command.{CommandValue, IsCommand};

    ghost Value = { CommandValue };

    ghost view = { λ a. record {
      arguments = map string_bytes a.arguments.items;
      environment = a.environment.items;
      working_directory = a.working_directory;
      output_paths = a.output_paths.items;
    } };

    ghost invariant = { λ a. IsCommand (record {
      arguments = map string_bytes a.arguments.items;
      environment = a.environment.items;
      working_directory = a.working_directory;
      output_paths = a.output_paths.items;
    }) };
}

/// Whether no argument has a NUL.
fn are_without_nul<A: Allocator>(arguments: &[String<A>]) -> bool
    ensures { result ≡ list_all is_argument (map string_bytes arguments.now) }
{
    arguments
        .iter()
        .all(|argument| !argument.as_bytes().contains(&0))
}

/// Whether the bytes may name a variable.
fn is_variable_name(name: &[u8]) -> bool
    ensures { result ≡ is_variable_name name.now }
{
    !name.is_empty() && !name.contains(&b'=') && !name.contains(&0)
}

/// Whether the name of a variable and its value may be handed to a process.
fn is_variable<A: Allocator>(variable: &Setting<A>) -> bool
    ensures value { result ≡ is_variable variable.now }
    ensures kept { IsSetting variable.now }
{
    is_variable_name(variable.name().as_bytes()) && !variable.value().as_bytes().contains(&0)
}

/// Whether all are variables.
fn are_variables<A: Allocator>(environment: &[Setting<A>]) -> bool
    ensures value { result ≡ list_all is_variable environment.now }
    ensures kept { OnTrue result (AllByRecursion IsSetting environment.now) }
{
    for variable in environment {
        if !is_variable(variable) {
            return false;
        }
    }
    true
}

/// Whether there is an argument, and the texts of the arguments and of the environment are valid.
#[tactic(auto, unfolding(crate::specs::Command::texts_checked))]
fn check_texts<A: Allocator>(
    arguments: &[String<A>],
    environment: &[Setting<A>],
) -> Result<(), MessageError>
    ensures exact { Gives (λ x. x) result
        (texts_checked (map string_bytes arguments.now) environment.now) }
    ensures kept { OnOk result (AllByRecursion IsSetting environment.now) }
{
    let [program, ..] = arguments else {
        return Err(MessageError::MissingField(1));
    };
    if program.as_bytes().is_empty() || !are_without_nul(arguments) {
        return Err(MessageError::BadText(1));
    }
    if !are_variables(environment) {
        return Err(MessageError::BadText(2));
    }
    Ok(())
}

/// Whether the names of the environment and the output paths ascend, and no output path lies
/// under another.
#[tactic(auto, unfolding(crate::specs::Command::lists_checked))]
fn check_lists<A: Allocator>(
    environment: &[Setting<A>],
    output_paths: &[Path<A>],
) -> Result<(), MessageError>
    ensures exact { Gives (λ x. x) result (lists_checked environment.now output_paths.now) }
    ensures kept { OnOk result (AllByRecursion IsPath output_paths.now) }
{
    check_order(environment)?;
    check_paths(output_paths)?;
    if some_under(output_paths, output_paths) {
        return Err(MessageError::SameName);
    }
    Ok(())
}

/// The text of the working directory, empty for the input root itself.
fn directory_text<A: Allocator>(directory: &Option<Path<A>>) -> &[u8]
    ensures value { result.now ≡ directory_text directory.now }
    ensures kept { IfSome directory.now IsPath }
{
    match directory {
        Some(path) => path.as_bytes(),
        None => &[],
    }
}

/// The working directory of this text, none where it is empty.
#[tactic(auto, unfolding(crate::specs::Command::working_directory_of))]
fn read_directory<A: Allocator>(alloc: A, text: &[u8]) -> Result<Option<Path<A>>, MessageError>
    ensures exact { GivesUnlessMemory (λ d. d) result (working_directory_of text.now) }
    ensures root { text.now ≡ [] → result ≡ Ok None }
{
    match text {
        [] => Ok(None),
        text => Ok(Some(Path::new(alloc, text)?)),
    }
}

impl<A: Allocator> Command<A> {
    /// The command of fields that were checked.
    fn of_checked(
        arguments: Vec<String<A>, A>,
        environment: Vec<EnvironmentVariable<A>, A>,
        working_directory: Option<Path<A>>,
        output_paths: Vec<Path<A>, A>,
    ) -> Command<A>
        requires texts { texts_checked (map string_bytes arguments.items) environment.items
            ≡ Ok tt }
        requires lists { lists_checked environment.items output_paths.items ≡ Ok tt }
        requires settings { AllByRecursion IsSetting environment.items }
        requires paths { AllByRecursion IsPath output_paths.items }
        ensures { result
            ≡ record {
              arguments = map string_bytes arguments.items;
              environment = environment.items;
              working_directory = working_directory;
              output_paths = output_paths.items;
            } }
    {
        let _ = directory_text(&working_directory);
        Command {
            arguments,
            environment,
            working_directory,
            output_paths,
        }
    }

    /// The command of these fields, as `new` answers.
    #[tactic(auto, unfolding(crate::specs::Command::command_of))]
    fn checked(
        arguments: Vec<String<A>, A>,
        environment: Vec<EnvironmentVariable<A>, A>,
        working_directory: Option<Path<A>>,
        output_paths: Vec<Path<A>, A>,
    ) -> Result<Command<A>, MessageError>
        ensures exact { Gives (λ c. c) result
            (command_of (record {
              arguments = map string_bytes arguments.items;
              environment = environment.items;
              working_directory = working_directory;
              output_paths = output_paths.items;
            })) }
        ensures valid { IfOk result IsCommand }
    {
        check_texts(&arguments, &environment)?;
        check_lists(&environment, &output_paths)?;
        let command = Command::of_checked(arguments, environment, working_directory, output_paths);
        let _ = &command.arguments;
        Ok(command)
    }

    /// The command of these fields; without a working directory it runs in the input root. The
    /// first refusal is that of the first of: a missing argument (`MissingField`), the texts of the
    /// arguments and of the environment (`BadText`), the order of the environment (`Unsorted`,
    /// `SameName`) and of the output paths (`Unsorted`), and an output path under another
    /// (`SameName`).
    pub fn new(
        arguments: Vec<String<A>, A>,
        environment: Vec<EnvironmentVariable<A>, A>,
        working_directory: Option<Path<A>>,
        output_paths: Vec<Path<A>, A>,
    ) -> Result<Command<A>, MessageError>
        ensures some { IsOk result
            ↔ IsCommand (record {
              arguments = map string_bytes arguments.items;
              environment = environment.items;
              working_directory = working_directory;
              output_paths = output_paths.items;
            }) }
        ensures exact { Gives (λ c. c) result
            (command_of (record {
              arguments = map string_bytes arguments.items;
              environment = environment.items;
              working_directory = working_directory;
              output_paths = output_paths.items;
            })) }
    {
        Command::checked(arguments, environment, working_directory, output_paths)
    }

    /// The arguments, the program's name first.
    pub fn arguments(&self) -> &[String<A>]
        ensures value { map string_bytes result.now ≡ self.now.arguments }
        ensures valid { IsCommand self.now }
    {
        &self.arguments
    }

    /// The environment, by name.
    pub fn environment(&self) -> &[EnvironmentVariable<A>]
        ensures value { result.now ≡ self.now.environment }
        ensures valid { IsCommand self.now }
    {
        &self.environment
    }

    /// The directory that the program starts in, below the input root; none for the root itself.
    pub fn working_directory(&self) -> Option<&Path<A>>
        ensures value { option_copied result ≡ self.now.working_directory }
        ensures valid { IsCommand self.now }
    {
        self.working_directory.as_ref()
    }

    /// The paths of what the program makes, below the working directory, by their texts.
    pub fn output_paths(&self) -> &[Path<A>]
        ensures value { result.now ≡ self.now.output_paths }
        ensures valid { IsCommand self.now }
    {
        &self.output_paths
    }

    /// Whether the path is one of the output paths, by binary search over their texts. It takes no
    /// memory.
    pub fn lists<B: Allocator>(&self, path: &Path<B>) -> bool
        ensures listed { IsTrue result ↔ Contains self.now.output_paths path.now }
        ensures valid { IsCommand self.now }
    {
        has_text(self.output_paths(), path.as_bytes())
    }
}

#[tactic(auto, using(messages::proofs::Spellings::spelled_parts), unfolding(crate::specs::Command::command_bytes))]
impl<A: Allocator + Copy> Encode<A> for Command<A> {
    ghost use Rattle.action_messages.specs.Command.{command_bytes};

    ghost spells = { command_bytes };

    fn write(&self, alloc: A) -> Result<Vec<u8, A>, AllocError> {
        let mut out = Vec::new(alloc);
        write_strings(&mut out, 1, &self.arguments)?;
        write_each(alloc, &mut out, 2, &self.environment)?;
        write_bytes(&mut out, 6, directory_text(&self.working_directory))?;
        write_paths(&mut out, 7, &self.output_paths)?;
        Ok(out)
    }
}

#[tactic(auto, using(messages::proofs::Spellings::spelled_parts), unfolding(crate::specs::Command::decoded_command))]
impl<A: Allocator + Copy> Message<A> for Command<A> {
    ghost use Rattle.action_messages.specs.Command.{IsCommand, decoded_command};

    ghost reads = { decoded_command };

    ghost keeps = { IsCommand };

    fn is_exact() {}

    fn read(alloc: A, bytes: &[u8]) -> Result<Command<A>, MessageError> {
        let fields = read_fields(alloc, &command_shape(), bytes)?;
        let arguments = read_strings(alloc, &fields, 1)?;
        let environment = read_each(alloc, &fields, 2)?;
        check_texts(&arguments, &environment)?;
        let working_directory = read_directory(alloc, read_bytes(&fields, 6))?;
        let output_paths = read_paths(alloc, &fields, 7)?;
        check_lists(&environment, &output_paths)?;
        Ok(Command::of_checked(arguments, environment, working_directory, output_paths))
    }
}

impl<A: Allocator + Copy> Command<A> {
    /// A copy of the command, over another allocator.
    pub fn copy_of<B: Allocator>(alloc: A, command: &Command<B>) -> Result<Command<A>, AllocError>
        ensures { IfOk result (λ c. c ≡ command.now) }
    {
        Ok(Command {
            arguments: copy_texts(alloc, &command.arguments)?,
            environment: copy_settings(alloc, &command.environment)?,
            working_directory: copy_directory(alloc, &command.working_directory)?,
            output_paths: copy_paths(alloc, &command.output_paths)?,
        })
    }

    /// The command whose canonical encoding the bytes are. The first refusal is that of the first
    /// of: the fields (`Wire`, `Unsupported`), the variables in the order of the bytes (`Wire`,
    /// `Unsupported`), a missing argument (`MissingField`), texts and paths by field and place
    /// (`BadText`, `BadPath`), the order of each list (`Unsorted`, `SameName`), and an output path
    /// under another (`SameName`).
    pub fn decode(alloc: A, bytes: &[u8]) -> Result<Command<A>, MessageError>
        ensures found { IfOk result (λ c. IsCommand c × (bytes.now ≡ command_bytes c)) }
        ensures only { (c : CommandValue)
            → IsCommand c
            → bytes.now ≡ command_bytes c
            → GivesUnlessMemory (λ x. x) result (Ok c) }
        // Which refusal comes first.
        ensures exact { GivesUnlessMemory (λ c. c) result (decoded_command bytes.now) }
    {
        decode(alloc, bytes)
    }

    /// The canonical encoding.
    pub fn encode(&self, alloc: A) -> Result<Vec<u8, A>, AllocError>
        ensures bytes { IfOk result (λ bytes. bytes.items ≡ command_bytes self.now) }
        ensures valid { IsCommand self.now }
    {
        let _ = &self.arguments;
        self.write(alloc)
    }
}
