ghost use Rattle.std.specs.Prelude.{[], ◌∷◌, ◌≡◌, ◌≤◌, List, codes, length};
ghost use Rattle.std.specs.List.{AllByRecursion};
ghost use Rattle.blob_source.specs.Source.{Blobs};
ghost use Rattle.tree.specs.Form.{NodeValue};
ghost use Rattle.tree.specs.Graft.{graft, expand, HaveApartTargets};
ghost use Rattle.tree.specs.Merge.{IsMergeOf, TreeLines, TellsMerge};
ghost use Rattle.tree.specs.Merging.{NodeWithin, MergeFault, MergeLines, AreHeld, nodes_in};
ghost use Rattle.tree.specs.Merging.{conflict, merged};
ghost use Rattle.tree.specs.MergeAgrees.{TellsOfMerges};
ghost use Rattle.tree.specs.MergeExample.{MeetsPremises, always_empty, lines_of_entries, met_tree};
ghost use Rattle.tree.specs.MergeExample.{meeting_entries, unlike_entries};
ghost use Rattle.tree.specs.MergeLooks.{MergeLooksAt};
ghost use Rattle.tree.specs.Memo.{Asked};
ghost use Rattle.tree.specs.Tree.{Name, Tree, Entry, Leaf, IsOrderedEntry};

/// What lines merge into, as finite maps from paths. A law: it does nothing.
pub fn merges_are_unions()
    // One tree at most.
    ensures one { (lines : List (List Name × Entry Leaf)) (t u : Tree Leaf)
        → IsMergeOf lines t → IsMergeOf lines u → t ≡ u }
    // Where no target overlaps another, it is the graft.
    ensures grafts { (lines : List (List Name × Entry Leaf)) → HaveApartTargets lines
        → AllByRecursion (λ (l : List Name × Entry Leaf). length l.0 ≤ 64) lines
        → AllByRecursion (λ (l : List Name × Entry Leaf). IsOrderedEntry l.1) lines
        → IsMergeOf lines (expand (graft lines)) }
    // Whether there is one is decided.
    ensures decided { (lines : TreeLines) → TellsMerge lines }
{}

/// What a source tells determines what lines come to by digests, and they always come to
/// something: it can't be that there is nothing. A law: it does nothing.
pub fn merges_are_single_valued()
    ensures tree { (blobs : Blobs) (lines : MergeLines) (t u : Tree NodeValue)
        → (merged blobs lines).passes t → (merged blobs lines).passes u → t ≡ u }
    ensures faults { (blobs : Blobs) (lines : MergeLines) (f g : MergeFault)
        → (merged blobs lines).fails f → (merged blobs lines).fails g → f ≡ g }
    ensures excluded { (blobs : Blobs) (lines : MergeLines) (t : Tree NodeValue) (f : MergeFault)
        → (merged blobs lines).passes t → (merged blobs lines).fails f → ⊥ }
    ensures always { (blobs : Blobs) (lines : MergeLines) → AreHeld lines
        → ((t : Tree NodeValue) → (merged blobs lines).passes t → ⊥)
        → ((f : MergeFault) → (merged blobs lines).fails f → ⊥) → ⊥ }
    // Where no target overlaps another, it is the graft of the nodes.
    ensures grafts { (blobs : Blobs) (lines : MergeLines) → HaveApartTargets lines
        → AllByRecursion (λ (l : List Name × NodeWithin). length l.0 ≤ 64) lines
        → (merged blobs lines).passes (graft (nodes_in lines)) }
    // Then nothing is looked at.
    ensures nothing { (blobs : Blobs) (lines : MergeLines) → HaveApartTargets lines
        → (a : Asked) → MergeLooksAt blobs lines a → ⊥ }
{}

/// What lines come to by digests is the form of what the entries that they stand for merge into,
/// and a conflict says that those merge into nothing. A law: it does nothing.
pub fn merges_tell_of_trees()
    ensures tells { (blobs : Blobs) (lines : MergeLines) → TellsOfMerges blobs lines }
{}

/// Lines that meet, and lines that conflict, meet the premises of `merges_tell_of_trees`. A law: it
/// does nothing.
pub fn merges_meet_the_premises()
    ensures meet { MeetsPremises always_empty (lines_of_entries meeting_entries) meeting_entries }
    ensures met { (merged always_empty (lines_of_entries meeting_entries)).passes met_tree }
    ensures unlike { MeetsPremises always_empty (lines_of_entries unlike_entries) unlike_entries }
    ensures refused { (merged always_empty (lines_of_entries unlike_entries)).fails
        (conflict (codes "a" ∷ [])) }
{}
