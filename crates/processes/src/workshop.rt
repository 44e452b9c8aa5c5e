ghost use Rattle.std.specs.Prelude.{[], ◌∷◌, IfErr, IfOk, OnOk, map, option_map, string_bytes};

use actions::Command;
use std::alloc::Allocator;
use std::io;

/// What stands at a path. Links are followed.
#[derive(Clone, Copy, Debug, PartialEq, Eq)]
pub enum Standing {
    /// Nothing, or a link that leads nowhere.
    Nothing,
    File,
    Folder,
    /// A fifo, a socket or a device, or a link that leads to itself.
    Other,
}

/// How a process ended: with a code, or by a signal.
#[derive(Clone, Copy, Debug, PartialEq, Eq)]
pub enum Exit {
    Code(i32),
    Signal(i32),
}

/// Where processes are run: its folders and files, and its children.
pub trait Workshop {
    /// A folder that was made new. A process is started in it once.
    type Room: Drop;

    /// A process that was started.
    type Child: Drop;

    /// That a process has ended. What it left is looked at only with this.
    type Ended: Drop;

    ghost use Rattle.std.specs.declared.io.Error.{Error};
    ghost use Rattle.processes.specs.Workshop.{Works, Becomes, StartsIn};
    ghost use Rattle.processes.specs.Workshop.{empty_room, with_folders, with_files};

    /// What may be said of its rooms and its children.
    ghost works: { Works Self.Room Self.Child Self.Ended };

    /// That a call which makes a room or something in it, or starts a child there, was refused by
    /// this error.
    ghost unstarted: { Self → Error → Type 0 };

    /// Makes a folder where nothing stands.
    fn make_new(&self, path: &str) -> io::Result<Self::Room>
        ensures made { IfOk result (λ room. works.has room (empty_room path.now)) }
        ensures failed { IfErr result (unstarted self.now) };

    /// Makes a folder of a room, and those above it, so far as they aren't there.
    fn make_all(&self, room: &mut Self::Room, path: &str) -> io::Result<()>
        ensures made { OnOk result
            (Becomes works room.old room.new (with_folders (path.now ∷ []))) }
        ensures failed { IfErr result (unstarted self.now) };

    /// Writes a file of a room.
    fn write(&self, room: &mut Self::Room, path: &str, bytes: &[u8]) -> io::Result<()>
        ensures written { OnOk result
            (Becomes works room.old room.new (with_files ((path.now, bytes.now) ∷ []))) }
        ensures failed { IfErr result (unstarted self.now) };

    /// Starts a process in a folder of a room, with exactly the command's arguments and
    /// environment. It has no input, and what it writes to its standard output is thrown away.
    fn spawn<A: Allocator + Copy>(
        &self,
        alloc: A,
        room: Self::Room,
        command: &Command<A>,
        folder: &str,
    ) -> io::Result<Self::Child>
        ensures runs { IfOk result (StartsIn works room command.now folder.now) }
        ensures failed { IfErr result (unstarted self.now) };

    /// Waits for a process, and answers how it ended.
    fn wait(&self, child: Self::Child) -> io::Result<(Self::Ended, Exit)>
        ensures waited { works.waited child }
        ensures ended { IfOk result (λ e. works.ended child e.0 e.1) }
        ensures failed { IfErr result (works.unwaited child) };

    /// What stands at a path.
    fn look(&self, ended: &Self::Ended, path: &str) -> io::Result<Standing>
        ensures told { IfOk result (works.stands ended.now path.now) }
        ensures failed { IfErr result (works.unread ended.now path.now) };

    /// The names in a folder. `None` where one is no UTF-8.
    fn list<A: Allocator + Copy>(
        &self,
        alloc: A,
        ended: &Self::Ended,
        path: &str,
    ) -> io::Result<Option<Vec<String<A>, A>>>
        ensures told { IfOk result (λ names. works.lists ended.now path.now
            (option_map (λ v. map string_bytes v.items) names)) }
        ensures failed { IfErr result (works.unread ended.now path.now) };

    /// The bytes of a file. `None` where they are more than a blob has.
    fn read<A: Allocator>(
        &self,
        alloc: A,
        ended: &Self::Ended,
        path: &str,
    ) -> io::Result<Option<Vec<u8, A>>>
        ensures told { IfOk result
            (λ found. works.holds ended.now path.now (option_map (λ b. b.items) found)) }
        ensures failed { IfErr result (works.unread ended.now path.now) };
}

/// What a process that has ended left, to be looked at in its workshop.
#[derive(Drop)]
pub(crate) struct Left<'a, W: Workshop> {
    pub(crate) workshop: &'a W,
    pub(crate) ended: &'a W::Ended,
}
