ghost use Rattle.std.specs.Prelude.{◌≡◌, ◌↔◌, List, ℕ, [], IsTrue, IfOk, OnErr};
ghost use Rattle.std.specs.List.{Contains};
ghost use Rattle.plan.specs.Targets.{IsAtOrBelow, TakesTarget};

use messages::{Name, Path};
use std::alloc::{AllocError, Allocator};
use std::cmp::Ordering;
use std::collections::BTreeSet;
use std::marker::Model;
use std::ops::Bound;

/// The names of a path, in the order of the names. What lies under a path stands right after it.
#[derive(Drop)]
struct Names<A: Allocator> {
    names: Vec<Name<A>, A>,
}

impl<A: Allocator> Model for Names<A> {
    ghost use Rattle.std.specs.Prelude.{List, ℕ};

    ghost Value = { List (List ℕ) };

    ghost view = { λ a. a.names.items };
}

impl<A: Allocator> PartialEq for Names<A> {
    ghost use Rattle.std.specs.Prelude.{nat_eq};
    ghost use Rattle.std.specs.Cmp.Lexicographic.{pointwise};
    ghost use Rattle.std.proofs.Common.{rules};
    ghost use Rattle.std.specs.Cmp.Rules.{comparing};

    ghost eq = { pointwise (pointwise nat_eq) };

    ghost laws = { Prim.search (comparing, rules) };

    fn eq(&self, other: &Names<A>) -> bool {
        self.names == other.names
    }
}

impl<A: Allocator> Eq for Names<A> {
    ghost use Rattle.std.proofs.Common.{rules};
    ghost use Rattle.std.specs.Cmp.Rules.{comparing};

    ghost laws = { Prim.search (comparing, rules) };
}

impl<A: Allocator> Ord for Names<A> {
    ghost use Rattle.std.specs.Ordering.{nat_cmp};
    ghost use Rattle.std.specs.Cmp.Lexicographic.{slice_cmp, lists_total, lists_ties};
    ghost use Rattle.std.specs.Cmp.Lexicographic.{nat_list_cmp_total, texts_ties};
    ghost use Rattle.std.proofs.Common.{rules};
    ghost use Rattle.std.specs.Cmp.Rules.{comparing};
    ghost use Rattle.plan.specs.Targets.{names_cmp};

    ghost cmp = { names_cmp };

    ghost total = { lists_total nat_list_cmp_total };

    ghost matches_partial_cmp = { Prim.search (comparing, rules) };

    ghost matches_eq = { lists_ties (slice_cmp nat_cmp) texts_ties };

    fn cmp(&self, other: &Names<A>) -> Ordering {
        self.names.cmp(&other.names)
    }
}

impl<A: Allocator> PartialOrd for Names<A> {
    ghost use Rattle.std.specs.Ordering.{nat_cmp, as_partial_cmp};
    ghost use Rattle.std.specs.Cmp.{po};
    ghost use Rattle.std.specs.Cmp.Lexicographic.{slice_cmp, lists_total, lists_ties};
    ghost use Rattle.std.specs.Cmp.Lexicographic.{nat_list_cmp_total, texts_ties};
    ghost use Rattle.plan.specs.Targets.{names_cmp};

    ghost partial_cmp = { as_partial_cmp names_cmp };

    ghost laws = { po (lists_total nat_list_cmp_total)
        (lists_ties (slice_cmp nat_cmp) texts_ties) };

    fn partial_cmp(&self, other: &Names<A>) -> Option<Ordering> {
        Some(self.cmp(other))
    }
}

/// Targets of which none overlaps another.
#[derive(Drop)]
pub(crate) struct Targets<A: Allocator> {
    names: BTreeSet<Names<A>, A>,
}

impl<A: Allocator> Model for Targets<A> {
    ghost use Rattle.std.specs.Prelude.{List, ℕ};
    ghost use Rattle.plan.specs.Targets.{AreTargetsApart};

    ghost Value = { List (List (List ℕ)) };

    ghost view = { λ a. a.names.keys };

    ghost invariant = { λ a. AreTargetsApart a.names.keys };
}

fn begins_with<A: Allocator>(names: &Names<A>, above: &Names<A>) -> bool
    ensures { IsTrue result ↔ IsAtOrBelow names.now above.now }
{
    names.names.starts_with(&above.names)
}

impl<A: Allocator + Copy> Targets<A> {
    /// No targets.
    pub(crate) fn new(alloc: A) -> Targets<A>
        ensures { result ≡ [] }
    {
        Targets {
            names: BTreeSet::new(alloc),
        }
    }

    /// Whether one of the targets is this path or lies above it: it is the one before the path.
    fn has_beginning(&self, names: &Names<A>) -> bool
        ensures { IsTrue result ↔
            ((above : List (List ℕ)) × Contains self.now above × IsAtOrBelow names.now above) }
    {
        match self.names.range(..=names).next_back() {
            Some(before) => begins_with(names, before),
            None => false,
        }
    }

    /// Whether one of the targets is this path or lies under it: it is the one after the path.
    fn has_longer(&self, names: &Names<A>) -> bool
        ensures { IsTrue result ↔
            ((below : List (List ℕ)) × Contains self.now below × IsAtOrBelow below names.now) }
    {
        match self.names.range(names..).next() {
            Some(after) => begins_with(after, names),
            None => false,
        }
    }

    /// Takes the target, unless it overlaps another.
    pub(crate) fn insert<B: Allocator>(
        &mut self,
        alloc: A,
        target: &Path<B>,
    ) -> Result<bool, AllocError>
        ensures takes { IfOk result (λ taken. TakesTarget taken target.now self.old self.new) }
        ensures unchanged { OnErr result (self.new ≡ self.old) }
    {
        let names = Names {
            names: target.to_names(alloc)?,
        };
        if self.has_beginning(&names) || self.has_longer(&names) {
            return Ok(false);
        }
        self.names.insert(names)?;
        Ok(true)
    }
}
