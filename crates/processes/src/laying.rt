ghost use Rattle.std.specs.Prelude.{◌≡◌, IfErr, IfOk, OnOk, string_bytes};
ghost use Rattle.worker.specs.Values.{contents_of};
ghost use Rattle.processes.specs.Workshop.{Becomes, with_files, with_folders};
ghost use Rattle.processes.specs.Laying.{above_in, files_placed, folders_above, folders_below};
ghost use Rattle.processes.specs.Laying.{IsUnstarted, place_in, room_of_layout, start_of};
ghost use Rattle.processes.specs.Laying.{working_folders};
ghost use Rattle.std.specs.Path.{path_parent};
ghost use Rattle.messages.specs.Path.{path_text};

use crate::workshop::Workshop;
use actions::Command;
use messages::Path;
use std::alloc::{AllocError, Allocator};
use std::io;
use worker::Layout;

/// The place of a path below a folder.
pub(crate) fn place_in<A: Allocator>(
    alloc: A,
    folder: &str,
    path: &str,
) -> Result<String<A>, AllocError>
    ensures { IfOk result (λ place. string_bytes place ≡ place_in folder.now path.now) }
{
    format!(in alloc; "{folder}/{path}")
}

/// Makes folders below a folder.
fn make_folders<A: Allocator + Copy, W: Workshop>(
    alloc: A,
    workshop: &W,
    room: &mut W::Room,
    folder: &str,
    paths: &[Path<A>],
) -> io::Result<()>
    ensures made { OnOk result
        (Becomes W.works room.old room.new (with_folders (folders_below folder.now paths.now))) }
    ensures failed { IfErr result (IsUnstarted (W.unstarted workshop.now)) }
{
    for path in paths {
        let place = place_in(alloc, folder, path.as_str())?;
        workshop.make_all(room, place.as_str())?;
    }
    Ok(())
}

/// Writes files below a folder.
fn write_files<A: Allocator + Copy, W: Workshop>(
    alloc: A,
    workshop: &W,
    room: &mut W::Room,
    folder: &str,
    files: &[(Path<A>, Vec<u8, A>)],
) -> io::Result<()>
    ensures written { OnOk result (Becomes W.works room.old room.new
        (with_files (files_placed folder.now (contents_of files.now)))) }
    ensures failed { IfErr result (IsUnstarted (W.unstarted workshop.now)) }
{
    for file in files {
        let place = place_in(alloc, folder, file.0.as_str())?;
        workshop.write(room, place.as_str(), &file.1)?;
    }
    Ok(())
}

/// Makes a new folder, and the folders and files of a layout in it.
pub(crate) fn lay_out<A: Allocator + Copy, W: Workshop>(
    alloc: A,
    workshop: &W,
    folder: &str,
    layout: &Layout<A>,
) -> io::Result<W::Room>
    ensures laid { IfOk result (λ room. W.works.has room (room_of_layout folder.now layout.now)) }
    ensures failed { IfErr result (IsUnstarted (W.unstarted workshop.now)) }
{
    let mut room = workshop.make_new(folder)?;
    make_folders(alloc, workshop, &mut room, folder, &layout.folders)?;
    write_files(alloc, workshop, &mut room, folder, &layout.files)?;
    Ok(room)
}

/// Makes the folder that a command starts in: its working directory below the job's folder, or else
/// that folder itself, which is there.
pub(crate) fn make_start<A: Allocator, W: Workshop>(
    alloc: A,
    workshop: &W,
    room: &mut W::Room,
    folder: &str,
    command: &Command<A>,
) -> io::Result<String<A>>
    ensures start { IfOk result
        (λ start. string_bytes start ≡ start_of folder.now command.now.working_directory) }
    ensures made { OnOk result (Becomes W.works room.old room.new
        (with_folders (working_folders folder.now command.now.working_directory))) }
    ensures failed { IfErr result (IsUnstarted (W.unstarted workshop.now)) }
{
    match command.working_directory() {
        Some(path) => {
            let start = place_in(alloc, folder, path.as_str())?;
            workshop.make_all(room, start.as_str())?;
            Ok(start)
        }
        None => Ok(String::from_str(alloc, folder)?),
    }
}

/// Makes the folder above a path, which is the start itself where the path has one name.
fn make_parent<A: Allocator, W: Workshop>(
    alloc: A,
    workshop: &W,
    room: &mut W::Room,
    start: &str,
    path: &Path<A>,
) -> io::Result<()>
    ensures made { OnOk result (Becomes W.works room.old room.new
        (with_folders (above_in start.now (path_parent (path_text path.now))))) }
    ensures failed { IfErr result (IsUnstarted (W.unstarted workshop.now)) }
{
    match std::path::Path::new(path.as_str()).parent() {
        Some(above) => {
            let place = place_in(alloc, start, above.as_str())?;
            workshop.make_all(room, place.as_str())?;
            Ok(())
        }
        None => Ok(()),
    }
}

/// Makes the folders above the output paths of a command below the folder that it starts in.
pub(crate) fn make_parents<A: Allocator + Copy, W: Workshop>(
    alloc: A,
    workshop: &W,
    room: &mut W::Room,
    start: &str,
    outputs: &[Path<A>],
) -> io::Result<()>
    ensures made { OnOk result
        (Becomes W.works room.old room.new (with_folders (folders_above start.now outputs.now))) }
    ensures failed { IfErr result (IsUnstarted (W.unstarted workshop.now)) }
{
    for path in outputs {
        make_parent(alloc, workshop, room, start, path)?;
    }
    Ok(())
}
