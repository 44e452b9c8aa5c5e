ghost use Rattle.std.specs.Prelude.{◌≡◌, ◌↔◌, ◌⊎◌, ◌++◌, Bool, IfOk, IfErr, IsOk, OnOk, Ok, map};
ghost use Rattle.std.specs.Prelude.{option_map};
ghost use Rattle.std.specs.List.{AllByRecursion};
ghost use Rattle.wire.specs.Spelling.{spelling};
ghost use Rattle.wire.specs.Steps.{Gives};
ghost use Rattle.canonical.specs.Fields.{int_field, bytes_field, message_field};
ghost use Rattle.messages.specs.DigestMessage.{digest_bytes};
ghost use Rattle.messages.specs.Gives.{GivesUnlessMemory};
ghost use Rattle.messages.specs.Order.{IsAscending};
ghost use Rattle.messages.specs.declared.error.MessageError.TheVariants.{SameName, Memory};
ghost use Rattle.messages.specs.Path.{AreApart};
ghost use Rattle.action_messages.specs.Reads.{Reads};
ghost use Rattle.action_messages.specs.Unordered.{IsOrderingOf, AreOutputsValid, output_paths};
ghost use Rattle.action_messages.specs.Refused.{IsRefusedResult};
ghost use Rattle.action_messages.specs.Overlaps.{texts_of};
ghost use Rattle.action_messages.specs.OutputFile.{IsOutputFile};
ghost use Rattle.action_messages.specs.OutputDirectory.{IsOutputDirectory};
ghost use Rattle.action_messages.specs.OutputSymlink.{IsOutputSymlink};
ghost use Rattle.action_messages.specs.ActionResult.{ActionResultValue, IsActionResult, file_paths};
ghost use Rattle.action_messages.specs.ActionResult.{directory_paths, symlink_paths, some_overlap};
ghost use Rattle.action_messages.specs.ActionResult.{paths_checked, action_result_of};
ghost use Rattle.action_messages.specs.ActionResult.{action_result_bytes};

use crate::listed::{Listed, check_paths, some_cross, some_under, sort_by_path};
use crate::output::{OutputDirectory, OutputFile, OutputSymlink};
use crate::stream::{Stream, write_stream};
use crate::tolerant::{Unordered, read_unordered};
use canonical::write_int32;
use messages::{Encode, MessageError, write_each};
use std::alloc::{AllocError, Allocator};
use std::marker::Model;

/// What an action made and how it ended. Each list of outputs strictly ascends by the texts of the
/// paths, and no output of any kind equals another or lies under it.
#[derive(Drop)]
#[derive_where(Debug)]
pub struct ActionResult<A: Allocator> {
    files: Vec<OutputFile<A>, A>,
    directories: Vec<OutputDirectory<A>, A>,
    symlinks: Vec<OutputSymlink<A>, A>,
    exit_code: i32,
    stdout: Stream<A>,
    stderr: Stream<A>,
}

impl<A: Allocator> Model for ActionResult<A> {
    ghost use Rattle.action_messages.specs.ActionResult.{ActionResultValue, IsActionResult};

    ghost Value = { ActionResultValue };

    ghost view = { λ a. record {
      files = a.files.items;
      directories = a.directories.items;
      symlinks = a.symlinks.items;
      exit_code = a.exit_code;
      stdout = a.stdout;
      stderr = a.stderr;
    } };

    ghost invariant = { λ a. IsActionResult (record {
      files = a.files.items;
      directories = a.directories.items;
      symlinks = a.symlinks.items;
      exit_code = a.exit_code;
      stdout = a.stdout;
      stderr = a.stderr;
    }) };
}

/// Whether two of the paths of three ascending lists overlap.
fn some_overlap<F: Listed, D: Listed, S: Listed>(
    files: &[F],
    directories: &[D],
    symlinks: &[S],
) -> bool
    requires files { IsAscending (texts_of (map F.path_in files.now)) }
    requires directories { IsAscending (texts_of (map D.path_in directories.now)) }
    requires symlinks { IsAscending (texts_of (map S.path_in symlinks.now)) }
    ensures { result
        ≡ some_overlap
        (texts_of (map F.path_in files.now))
        (texts_of (map D.path_in directories.now))
        (texts_of (map S.path_in symlinks.now)) }
{
    some_under(files, files)
        || some_under(directories, directories)
        || some_under(symlinks, symlinks)
        || some_cross(files, directories)
        || some_cross(files, symlinks)
        || some_cross(directories, symlinks)
}

/// Whether the paths of the three lists ascend, and none overlaps another.
#[tactic(auto, unfolding(crate::specs::ActionResult::paths_checked))]
fn check_outputs<A: Allocator>(
    files: &[OutputFile<A>],
    directories: &[OutputDirectory<A>],
    symlinks: &[OutputSymlink<A>],
) -> Result<(), MessageError>
    ensures exact { Gives (λ x. x) result
        (paths_checked
        (file_paths files.now)
        (directory_paths directories.now)
        (symlink_paths symlinks.now)) }
    ensures files { OnOk result (AllByRecursion IsOutputFile files.now) }
    ensures directories { OnOk result (AllByRecursion IsOutputDirectory directories.now) }
    ensures symlinks { OnOk result (AllByRecursion IsOutputSymlink symlinks.now) }
{
    check_paths(files)?;
    check_paths(directories)?;
    check_paths(symlinks)?;
    if some_overlap(files, directories, symlinks) {
        return Err(MessageError::SameName);
    }
    Ok(())
}

impl<A: Allocator> ActionResult<A> {
    /// The result of these fields, as `new` answers.
    #[tactic(auto, unfolding(crate::specs::ActionResult::action_result_of))]
    fn checked(
        files: Vec<OutputFile<A>, A>,
        directories: Vec<OutputDirectory<A>, A>,
        symlinks: Vec<OutputSymlink<A>, A>,
        exit_code: i32,
        stdout: Stream<A>,
        stderr: Stream<A>,
    ) -> Result<ActionResult<A>, MessageError>
        ensures exact { Gives (λ r. r) result
            (action_result_of (record {
              files = files.items;
              directories = directories.items;
              symlinks = symlinks.items;
              exit_code = exit_code;
              stdout = stdout;
              stderr = stderr;
            })) }
        ensures valid { IfOk result IsActionResult }
    {
        check_outputs(&files, &directories, &symlinks)?;
        let _ = stdout.digest();
        let _ = stderr.digest();
        let made = ActionResult {
            files,
            directories,
            symlinks,
            exit_code,
            stdout,
            stderr,
        };
        let _ = made.files();
        Ok(made)
    }

    /// The result of these fields. Refusals: `Unsorted` by the order of each list in turn, then
    /// `SameName` where two outputs overlap.
    pub fn new(
        files: Vec<OutputFile<A>, A>,
        directories: Vec<OutputDirectory<A>, A>,
        symlinks: Vec<OutputSymlink<A>, A>,
        exit_code: i32,
        stdout: Stream<A>,
        stderr: Stream<A>,
    ) -> Result<ActionResult<A>, MessageError>
        ensures some { IsOk result
            ↔ IsActionResult (record {
              files = files.items;
              directories = directories.items;
              symlinks = symlinks.items;
              exit_code = exit_code;
              stdout = stdout;
              stderr = stderr;
            }) }
        ensures exact { Gives (λ r. r) result
            (action_result_of (record {
              files = files.items;
              directories = directories.items;
              symlinks = symlinks.items;
              exit_code = exit_code;
              stdout = stdout;
              stderr = stderr;
            })) }
    {
        ActionResult::checked(files, directories, symlinks, exit_code, stdout, stderr)
    }

    /// The files that the action made, by the texts of their paths.
    pub fn files(&self) -> &[OutputFile<A>]
        ensures value { result.now ≡ self.now.files }
        ensures valid { IsActionResult self.now }
    {
        &self.files
    }

    /// The directories that it made, by the texts of their paths.
    pub fn directories(&self) -> &[OutputDirectory<A>]
        ensures value { result.now ≡ self.now.directories }
        ensures valid { IsActionResult self.now }
    {
        &self.directories
    }

    /// The symbolic links that it made, by the texts of their paths.
    pub fn symlinks(&self) -> &[OutputSymlink<A>]
        ensures value { result.now ≡ self.now.symlinks }
        ensures valid { IsActionResult self.now }
    {
        &self.symlinks
    }

    /// The exit code of the process.
    pub fn exit_code(&self) -> i32
        ensures value { result ≡ self.now.exit_code }
        ensures valid { IsActionResult self.now }
    {
        self.exit_code
    }

    /// What was written to standard output.
    pub fn stdout(&self) -> &Stream<A>
        ensures value { result.now ≡ self.now.stdout }
        ensures valid { IsActionResult self.now }
    {
        &self.stdout
    }

    /// What was written to standard error.
    pub fn stderr(&self) -> &Stream<A>
        ensures value { result.now ≡ self.now.stderr }
        ensures valid { IsActionResult self.now }
    {
        &self.stderr
    }
}

impl<A: Allocator + Copy> ActionResult<A> {
    /// Writes how the action ended: fields 4 to 8.
    fn write_ending(&self, alloc: A, out: &mut Vec<u8, A>) -> Result<(), AllocError>
        ensures { OnOk result
            (out.new.items
            ≡ out.old.items ++ spelling (int_field 4 self.now.exit_code)
            ++ spelling (bytes_field 5 self.now.stdout.raw)
            ++ spelling (message_field 6 (option_map digest_bytes self.now.stdout.digest))
            ++ spelling (bytes_field 7 self.now.stderr.raw)
            ++ spelling (message_field 8 (option_map digest_bytes self.now.stderr.digest))) }
    {
        write_int32(out, 4, self.exit_code)?;
        write_stream(alloc, out, 5, &self.stdout)?;
        write_stream(alloc, out, 7, &self.stderr)
    }
}

#[tactic(auto, using(messages::proofs::Spellings::spelled_parts), unfolding(crate::specs::ActionResult::action_result_bytes))]
impl<A: Allocator + Copy> Encode<A> for ActionResult<A> {
    ghost use Rattle.action_messages.specs.ActionResult.{action_result_bytes};

    ghost spells = { action_result_bytes };

    fn write(&self, alloc: A) -> Result<Vec<u8, A>, AllocError> {
        let mut out = Vec::new(alloc);
        write_each(alloc, &mut out, 2, &self.files)?;
        write_each(alloc, &mut out, 3, &self.directories)?;
        self.write_ending(alloc, &mut out)?;
        write_each(alloc, &mut out, 12, &self.symlinks)?;
        Ok(out)
    }
}

/// The result of what bytes say, its outputs put in the order of their paths. `SameName` where two
/// overlap.
fn ordered<A: Allocator>(read: Unordered<A>) -> Result<ActionResult<A>, MessageError>
    ensures found { IfOk result (λ r. IsActionResult r × IsOrderingOf read r) }
    ensures refused { IfErr result (λ e. (e ≡ SameName)
        × (AreOutputsValid read → AreApart (output_paths read) → ⊥)) }
{
    let Unordered {
        mut files,
        mut directories,
        mut symlinks,
        exit_code,
        stdout,
        stderr,
    } = read;
    sort_by_path(&mut files);
    sort_by_path(&mut directories);
    sort_by_path(&mut symlinks);
    match ActionResult::checked(files, directories, symlinks, exit_code, stdout, stderr) {
        Ok(result) => Ok(result),
        // Sorted paths are out of order only where two are equal, and equal ones overlap.
        Err(_) => Err(MessageError::SameName),
    }
}

impl<A: Allocator + Copy> ActionResult<A> {
    /// The result that the bytes are read as by protobuf's tolerant rules. Else the refusal is that
    /// of the first field that is refused (`Wire`, `Unsupported`), or of the first field at which
    /// an output or a digest begins that is refused (`Wire`, `Unsupported`, `BadDigest`,
    /// `MissingField`, `BadPath`), or `SameName` where two outputs overlap.
    pub fn decode(alloc: A, bytes: &[u8]) -> Result<ActionResult<A>, MessageError>
        ensures found { IfOk result (λ r. Reads r bytes.now) }
        ensures only { (r : ActionResultValue) → Reads r bytes.now
            → GivesUnlessMemory (λ x. x) result (Ok r) }
        ensures refused { IfErr result (λ e. (e ≡ Memory) ⊎ IsRefusedResult e bytes.now) }
    {
        let read = read_unordered(alloc, bytes)?;
        ordered(read)
    }

    /// The canonical encoding.
    pub fn encode(&self, alloc: A) -> Result<Vec<u8, A>, AllocError>
        ensures bytes { IfOk result (λ bytes. bytes.items ≡ action_result_bytes self.now) }
        ensures valid { IsActionResult self.now }
    {
        let _ = &self.files;
        self.write(alloc)
    }
}
