ghost use Rattle.std.specs.Prelude.{◌≡◌, IfSome, IsTrue, option_map, string_bytes};
ghost use Rattle.commands.specs.Faults.{OrMemory, error_of_file};
ghost use Rattle.commands.specs.Places.{FailsInFolder, IsInFolder, LacksInFolder, SeesFiles};
ghost use Rattle.remote.specs.Folder.{IsFreshFolder, error_of, files_of, place_of};

use crate::error::CommandError;
use crate::world::{FilesOf, Inputs};
use blob_digest::Digest;
use blob_source::{BlobSource, FetchError};
use remote::FolderSource;
use std::alloc::Global;
use std::marker::{Brand, PhantomData};
use text_verifier::Lack;

/// Marks a store by its folder, and by what may be said of its world.
pub trait FolderMark {
    ghost use Rattle.std.specs.Prelude.{ℕ, List};
    ghost use Rattle.commands.specs.World.{Sight};

    ghost folder: { List ℕ };

    ghost sees: { Sight };
}

impl FolderMark for Brand {
    ghost use Rattle.std.specs.Prelude.{[]};
    ghost use Rattle.commands.specs.World.{sees_nothing};

    ghost folder = { [] };

    ghost sees = { sees_nothing };
}

/// The store in the marked folder of a world.
#[derive(Drop)]
pub(crate) struct FolderStore<'w, W: Inputs, K: FolderMark> {
    store: FolderSource<'w, FilesOf<'w, W>, Global>,
    of: PhantomData<K>,
    ghost place: { place_of store ≡ K.folder },
    ghost world: { ∥ SeesFiles (W.sees (files_of store).0.now) K.sees ∥₁ },
    ghost told: { ∥ IsInFolder K.sees K.folder store ∥₁ },
}

impl<'w, W: Inputs, K: FolderMark> FolderStore<'w, W, K> {
    pub(crate) fn new(
        alloc: Global,
        files: &'w FilesOf<'w, W>,
        folder: String,
    ) -> FolderStore<'w, W, K>
        requires folder { K.folder ≡ string_bytes folder }
        requires sees { SeesFiles (W.sees files.now.0.now) K.sees }
        ensures { IsFreshFolder (string_bytes folder) result.store }
    {
        FolderStore {
            store: FolderSource::new(alloc, files, folder),
            of: PhantomData,
        }
    }

    /// Whether the file of what is told as missing was looked for and isn't there.
    pub(crate) fn lacks(&self, lack: &Lack) -> bool
        ensures { IsTrue result → ∥ LacksInFolder K.sees K.folder lack.now ∥₁ }
    {
        match lack {
            Lack::Blob(digest) => self.store.lacks_blob(digest),
            Lack::ActionResult(digest) => self.store.lacks_result(digest),
        }
    }

    /// Whether nothing is told as missing, or it is lacked.
    pub(crate) fn confirms(&self, lack: &Option<Lack>) -> bool
        ensures { IsTrue result
            → IfSome lack.now (λ lack. ∥ LacksInFolder K.sees K.folder lack ∥₁) }
    {
        match lack {
            Some(lack) => self.lacks(lack),
            None => true,
        }
    }

    /// The fault of a look-up that failed, if one did.
    pub(crate) fn into_fault(self) -> Option<CommandError>
        ensures fault { IfSome result (λ e. ∥ FailsInFolder K.sees K.folder e ∥₁) }
        ensures kept { result ≡ option_map error_of_file (error_of self.entry.store) }
    {
        match self.store.into_error() {
            Some(error) => Some(CommandError::from(error)),
            None => None,
        }
    }

    /// The error of a look-up that failed.
    pub(crate) fn into_error(self) -> CommandError
        ensures fault { OrMemory (λ e. ∥ FailsInFolder K.sees K.folder e ∥₁) result }
        // Lack of memory isn't told in the place of a fault.
        ensures kept { IfSome (error_of self.entry.store) (λ error. result ≡ error_of_file error) }
    {
        match self.into_fault() {
            Some(error) => error,
            None => CommandError::Memory,
        }
    }
}

impl<W: Inputs, K: FolderMark> BlobSource<Global> for FolderStore<'_, W, K> {
    ghost use Rattle.remote.specs.Folder.{telling_of};

    ghost tells = { λ s. telling_of s.store };

    fn fetch(&mut self, alloc: Global, digest: &Digest) -> Result<Option<Vec<u8>>, FetchError> {
        self.store.fetch(alloc, digest)
    }

    fn result(&mut self, alloc: Global, digest: &Digest) -> Result<Option<Vec<u8>>, FetchError> {
        self.store.result(alloc, digest)
    }
}
