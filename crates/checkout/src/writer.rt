ghost use Rattle.std.specs.Prelude.{ℕ, List, [], ◌∷◌, IfErr, IfOk, OnOk};

use std::io;

/// What writes folders, files and links below a folder.
pub trait FolderWriter {
    /// A folder that was empty, and all that was written into it since.
    type Folder: Drop;

    ghost use Rattle.checkout.specs.Folder.{FolderValue, Gains, Tries, empty_folder};
    ghost use Rattle.checkout.specs.Folder.Written.{a_file, a_folder, a_link};
    ghost use Rattle.std.specs.declared.io.Error.{Error};

    /// What a folder has, and nothing else. Only the calls that did it say so.
    ghost has: { Self.Folder → FolderValue → Type 0 };

    /// That it made nothing at a path, for this.
    ghost refuses: { Self → List ℕ → Error → Type 0 };

    /// That it was called for these paths, in this order, and for nothing else.
    ghost tried: { Self → List (List ℕ) → Type 0 };

    /// Takes a folder in which nothing stands. Where nothing stands at the path, it is made.
    fn take(&mut self, path: &str) -> io::Result<Self::Folder>
        ensures taken { IfOk result (λ folder. has folder (empty_folder path.now)) }
        ensures refused { IfErr result (refuses self.new path.now) }
        ensures tries { Tries tried self.old self.new (path.now ∷ []) };

    /// Makes a folder where nothing stands.
    fn make_folder(&mut self, folder: &mut Self::Folder, path: &str) -> io::Result<()>
        ensures made { OnOk result
            (Gains has folder.old folder.new ((path.now, a_folder) ∷ [])) }
        ensures refused { IfErr result (refuses self.new path.now) }
        ensures tries { Tries tried self.old self.new (path.now ∷ []) };

    /// Writes a file where nothing stands.
    fn write_file(
        &mut self,
        folder: &mut Self::Folder,
        path: &str,
        bytes: &[u8],
        executable: bool,
    ) -> io::Result<()>
        ensures made { OnOk result
            (Gains has folder.old folder.new ((path.now, a_file bytes.now executable) ∷ [])) }
        ensures refused { IfErr result (refuses self.new path.now) }
        ensures tries { Tries tried self.old self.new (path.now ∷ []) };

    /// Makes a symbolic link where nothing stands.
    fn make_link(&mut self, folder: &mut Self::Folder, path: &str, target: &str) -> io::Result<()>
        ensures made { OnOk result
            (Gains has folder.old folder.new ((path.now, a_link target.now) ∷ [])) }
        ensures refused { IfErr result (refuses self.new path.now) }
        ensures tries { Tries tried self.old self.new (path.now ∷ []) };
}
