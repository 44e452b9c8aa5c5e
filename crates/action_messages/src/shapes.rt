ghost use Rattle.std.specs.Prelude.{◌≡◌};
ghost use Rattle.action_messages.specs.Setting.{setting_shape};
ghost use Rattle.action_messages.specs.Platform.{platform_shape};
ghost use Rattle.action_messages.specs.Command.{command_shape};
ghost use Rattle.action_messages.specs.Frame.{frame_shape};
ghost use Rattle.action_messages.specs.Action.{action_shape};
ghost use Rattle.action_messages.specs.OutputFile.{output_file_shape};
ghost use Rattle.action_messages.specs.OutputDirectory.{output_directory_shape};
ghost use Rattle.action_messages.specs.OutputSymlink.{output_symlink_shape};
ghost use Rattle.action_messages.specs.ActionResult.{action_result_shape};

use canonical::{Entry, Kind, Shape};
use messages::{repeated, single};

/// `EnvironmentVariable` and `Property`: name, value.
pub(crate) fn setting_shape() -> Shape<'static>
    ensures { result ≡ setting_shape }
{
    Shape::new(&[single!(1, String), single!(2, String)])
}

/// `Platform`: properties.
pub(crate) fn platform_shape() -> Shape<'static>
    ensures { result ≡ platform_shape }
{
    Shape::new(&[repeated!(1, Message)])
}

/// `Command`: arguments, environment_variables, working_directory, output_paths.
pub(crate) fn command_shape() -> Shape<'static>
    ensures { result ≡ command_shape }
{
    Shape::new(&[
        repeated!(1, String),
        repeated!(2, Message),
        single!(6, String),
        repeated!(7, String),
    ])
}

/// `Action` without input_root_digest: command_digest, do_not_cache, salt, platform.
pub(crate) fn frame_shape() -> Shape<'static>
    ensures { result ≡ frame_shape }
{
    Shape::new(&[
        single!(1, Message),
        single!(7, Bool),
        single!(9, Bytes),
        single!(10, Message),
    ])
}

/// `Action`: command_digest, input_root_digest, do_not_cache, salt, platform.
pub(crate) fn action_shape() -> Shape<'static>
    ensures { result ≡ action_shape }
{
    Shape::new(&[
        single!(1, Message),
        single!(2, Message),
        single!(7, Bool),
        single!(9, Bytes),
        single!(10, Message),
    ])
}

/// `OutputFile`: path, digest, is_executable.
pub(crate) fn output_file_shape() -> Shape<'static>
    ensures { result ≡ output_file_shape }
{
    Shape::new(&[single!(1, String), single!(2, Message), single!(4, Bool)])
}

/// `OutputDirectory`: path, tree_digest.
pub(crate) fn output_directory_shape() -> Shape<'static>
    ensures { result ≡ output_directory_shape }
{
    Shape::new(&[single!(1, String), single!(3, Message)])
}

/// `OutputSymlink`: path, target.
pub(crate) fn output_symlink_shape() -> Shape<'static>
    ensures { result ≡ output_symlink_shape }
{
    Shape::new(&[single!(1, String), single!(2, String)])
}

/// `ActionResult`: output_files, output_directories, exit_code, stdout_raw, stdout_digest,
/// stderr_raw, stderr_digest, output_symlinks.
pub(crate) fn action_result_shape() -> Shape<'static>
    ensures { result ≡ action_result_shape }
{
    Shape::new(&[
        repeated!(2, Message),
        repeated!(3, Message),
        single!(4, Int32),
        single!(5, Bytes),
        single!(6, Message),
        single!(7, Bytes),
        single!(8, Message),
        repeated!(12, Message),
    ])
}
