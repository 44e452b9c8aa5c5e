ghost use Rattle.std.specs.Prelude.{◌≡◌, ◌<◌, ◌∷◌, ◌++◌, [], IfOk, MatchOption, length};
ghost use Rattle.plan.specs.Faults.{HasStep};
ghost use Rattle.plan.specs.Lines.{step_name};

use crate::step::Step;
use indexmap::IndexSet;
use std::alloc::{AllocError, Allocator};
use std::hash::{BuildHasherDefault, FoldHasher};
use std::marker::Model;

/// Names in the order in which they were inserted.
type NameSet<A> = IndexSet<Vec<u8, A>, BuildHasherDefault<FoldHasher>, A>;

/// Steps, numbered by their names.
#[derive(Drop)]
pub(crate) struct Steps<A: Allocator> {
    steps: Vec<Step<A>, A>,
    names: NameSet<A>,
}

impl<A: Allocator> Model for Steps<A> {
    ghost use Rattle.std.specs.Prelude.{◌≡◌, List, map};
    ghost use Rattle.plan.specs.Parts.{items_of};
    ghost use Rattle.plan.specs.Values.{StepValue};

    ghost Value = { List StepValue };

    ghost view = { λ a. a.steps.items };

    ghost invariant = { λ a. items_of a.names.keys ≡ map (λ s. s.name) a.steps.items };
}

impl<A: Allocator + Copy> Steps<A> {
    /// No steps.
    pub(crate) fn new(alloc: A) -> Steps<A>
        ensures { result ≡ [] }
    {
        Steps {
            steps: Vec::new(alloc),
            names: IndexSet::new(alloc),
        }
    }

    /// How many steps there are.
    pub(crate) fn len(&self) -> usize
        ensures { result ≡ length self.now }
    {
        self.steps.len()
    }

    /// The number of the step of this name, counted from 0.
    pub(crate) fn number_of(&self, name: &[u8]) -> Option<usize>
        ensures { MatchOption result (¬ HasStep self.now name.now)
            (λ number. (number < length self.now) × (step_name self.now number ≡ name.now)) }
    {
        self.names.get_index_of(name)
    }

    /// One more step, of a new name.
    pub(crate) fn with(mut self, alloc: A, step: Step<A>) -> Result<Steps<A>, AllocError>
        requires { ¬ HasStep self step.name }
        ensures { IfOk result (λ steps. steps ≡ self ++ step ∷ []) }
    {
        let name = Vec::from_slice(alloc, step.name.as_bytes())?;
        self.names.insert_full(name)?;
        self.steps.push(step)?;
        Ok(self)
    }

    /// The steps alone.
    pub(crate) fn into_vec(self) -> Vec<Step<A>, A>
        ensures { result.items ≡ self }
    {
        self.steps
    }
}
