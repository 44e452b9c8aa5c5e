ghost use Rattle.std.specs.Prelude.{◌≡◌, ◌≢◌, ◌⊎◌, ◌↔◌, ℕ, bytes_eq, List, [], ◌∷◌, map, Some};
ghost use Rattle.std.specs.Prelude.{Contains, option_map};
ghost use Rattle.std.specs.List.{AllByRecursion, IsDistinct};
ghost use Rattle.blob_digest.specs.Digest.{DigestValue, NoClash};
ghost use Rattle.messages.specs.DirectoryRules.{DirectoryValue, IsDirectory};
ghost use Rattle.tree.specs.Tree.{Name, Tree, Entry, whole, Leaf, tree_at, stands_at, IsOrdered};
ghost use Rattle.tree.specs.Folded.{first_visits};
ghost use Rattle.tree.specs.declared.folding.Folded.{Folded};
ghost use Rattle.tree.specs.FlatTree.{FlatValue, standing_in, IsListOf, IsFoldOfList};
ghost use Rattle.tree.specs.Unfolded.{IsUnfolded};
ghost use Rattle.tree.specs.Form.{NodeValue, form, top, root, entry_node, IsBlobOf, IsBlobAt};
ghost use Rattle.blob_source.specs.Source.{Blobs};
ghost use Rattle.blob_source.specs.Told.{Fault, TellsDirectory, FailsDirectory};
ghost use Rattle.tree.specs.Lookup.{AgreesWith, IsValue, Looked, Looks};
ghost use Rattle.tree.specs.Mismatch.{FirstMismatch, IsTrueMismatch, MismatchValue};
ghost use Rattle.tree.specs.TrueDifference.{IsTrueDifference};
ghost use Rattle.messages.specs.Directory.{directory_bytes};
ghost use Rattle.messages.specs.Path.{IsApart};
ghost use Rattle.tree.specs.Difference.{Differing, FindsFirst};
ghost use Rattle.tree.specs.Graft.{graft, expand, HaveApartTargets, IsGraftOf};

use std::alloc::Allocator;

/// What a tree and a graft are, as finite maps from paths. A law: it does nothing.
pub fn trees_are_maps()
    // Ordered trees in which the same stands at each path are one.
    ensures same { (t u : Tree Leaf) → IsOrdered t → IsOrdered u
        → ((p : List Name) → stands_at t p ≡ stands_at u p) → t ≡ u }
    // A graft has at each target what stands in its line's origin, and nothing apart from the
    // targets.
    ensures grafts { (lines : List (List Name × Entry Leaf)) → HaveApartTargets lines
        → IsGraftOf lines (expand (graft lines)) }
    // The blobs of a tree are the contents and Directories of what stands at its paths.
    ensures blobs { (t : Tree Leaf) (b : List ℕ) → IsOrdered t
        → (IsBlobOf t b
        ↔ ((p : List Name) × (e : Entry Leaf) × (tree_at t p ≡ Some e) × IsBlobAt e b)) }
    // Two lines in a row may change places.
    ensures swaps { (l k : List Name × Entry Leaf) (lines : List (List Name × Entry Leaf))
        → IsApart l.0 k.0 → graft (l ∷ k ∷ lines) ≡ graft (k ∷ l ∷ lines) }
{}

/// A digest names one tree. A law: it does nothing.
pub fn roots_name_trees()
    // Ordered trees with one digest are one, if no two of their blobs share a digest.
    ensures one { (t u : Tree Leaf) → IsOrdered t → IsOrdered u
        → NoClash (λ b. IsBlobOf t b ⊎ IsBlobOf u b) → root (form t) ≡ root (form u) → t ≡ u }
    // A graft of trees has the digest of the graft of their nodes.
    ensures grafts { (lines : List (List Name × Entry Leaf))
        → root (form (expand (graft lines)))
        ≡ root (graft (map (λ l. (l.0, entry_node l.1)) lines)) }
{}

/// What a flat tree is. A law: it does nothing.
pub fn flat_trees_are_trees<A: Allocator>()
    // It is the list of one tree.
    ensures one { (entries : FlatValue) (t u : Tree NodeValue) → IsListOf entries t
        → IsListOf entries u → t ≡ u }
    // The list has at each path what the tree has there.
    ensures maps { (entries : FlatValue) (t : Tree NodeValue) → IsListOf entries t
        → (n : Name) (p : List Name) → standing_in entries (n ∷ p) ≡ stands_at t (n ∷ p) }
    // What was unfolded from a digest is folded to that digest.
    ensures folds { (blobs : Blobs) (d : DigestValue) (entries : FlatValue) (folded : Folded A)
        → IsUnfolded blobs d entries → IsFoldOfList entries folded → folded.root ≡ d }
{}

/// What a source tells determines what look-ups come to. A law: it does nothing.
pub fn look_ups_are_single_valued()
    // One Directory, or one fault, stands under a digest, and not both.
    ensures told { (blobs : Blobs) (d : DigestValue) (m n : DirectoryValue)
        → TellsDirectory blobs d m → TellsDirectory blobs d n → m ≡ n }
    ensures faults { (blobs : Blobs) (d : DigestValue) (f g : Fault) → FailsDirectory blobs d f
        → FailsDirectory blobs d g → f ≡ g }
    ensures excluded { (blobs : Blobs) (d : DigestValue) (m : DirectoryValue) (f : Fault)
        → TellsDirectory blobs d m → FailsDirectory blobs d f → ⊥ }
    ensures looked { (blobs : Blobs) (d : DigestValue) (p : List Name) (r s : Looked)
        → Looks blobs d p r → Looks blobs d p s → r ≡ s }
{}

/// What a look-up tells of trees. A law: it does nothing.
pub fn look_ups_tell_of_trees()
    // Where a tree has the root's digest, and no two blobs of the source and the tree share one,
    // it tells what stands at the path: a node by its form, or nothing.
    ensures { (blobs : Blobs) (p : List Name) (r : Looked) (t : Tree Leaf) → IsOrdered t
        → NoClash (λ b. IsValue blobs b ⊎ IsBlobOf t b) → Looks blobs (root (form t)) p r
        → AgreesWith (option_map entry_node (tree_at t p)) r }
{}

/// Whatever a source tells, a look-up comes to something, and two directories with different
/// digests have a first difference; where it is that a Directory can't be read, that is what is
/// found. It can't be that there is none. A law: it does nothing.
pub fn answers_are_always_there()
    ensures looked { (blobs : Blobs) (d : DigestValue) (p : List Name)
        → ((r : Looked) → Looks blobs d p r → ⊥) → ⊥ }
    ensures differs { (own : List (List ℕ)) (blobs : Blobs) (g r : DigestValue)
        → AllByRecursion (λ b. (m : DirectoryValue) × IsDirectory m × (b ≡ directory_bytes m)) own
        → g ≢ r
        → ((x : Differing) → FindsFirst own blobs g r x → ⊥) → ⊥ }
{}

/// What is found as the first difference is one: by look-ups, the graft and the recorded directory
/// don't have the same at its path, or have directories there of which one can't be read; at each
/// path before it they have the same, or directories. A law: it does nothing.
pub fn differences_are_true()
    ensures { (own : List (List ℕ)) (blobs : Blobs) (g r : DigestValue) (x : Differing)
        → FindsFirst own blobs g r x → IsTrueDifference own blobs g r x }
{}

/// What is found as the first mismatch is one, by look-ups. A law: it does nothing.
pub fn mismatches_are_true()
    ensures { (known : List (List ℕ)) (g r : DigestValue) (x : MismatchValue)
        → FirstMismatch known 64 [] g r (Some x) → IsTrueMismatch known g r x }
{}

/// What a graft's Directories and a source tell determines the first difference. A law: it does
/// nothing.
pub fn differences_are_single_valued()
    ensures { (own : List (List ℕ)) (blobs : Blobs) (g r : DigestValue) (x y : Differing)
        → FindsFirst own blobs g r x → FindsFirst own blobs g r y → x ≡ y }
{}

/// What a fold holds. A law: it does nothing.
pub fn folds_hold_each_directory_once()
    // The root's Directory comes first, and none comes twice.
    ensures once { (t : Tree NodeValue) → (rest : List (List ℕ)) × (first_visits t ≡ top t ∷ rest)
        × IsDistinct bytes_eq (first_visits t) }
    // A Directory is held exactly where it is that of a directory in the tree.
    ensures all { (t : Tree NodeValue) (b : List ℕ) → IsOrdered t
        → (Contains (first_visits t) b
        ↔ ((p : List Name) × (u : Tree NodeValue) × (tree_at t p ≡ Some (whole u))
        × (b ≡ top u))) }
{}
