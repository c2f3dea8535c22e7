//! What the steps of the workers at a root amount to.

ghost use Rattle.std.specs.Prelude.{◌≡◌, ◌+◌, ◌<◌, [], ◌∷◌, ◌++◌, length, IfOk, None};
ghost use Rattle.std.specs.Prelude.{slice_index_or};
ghost use Rattle.root_share.specs.Run.{Run, bound_of, MayFollow, IsBestChild, IsBestBefore};
ghost use Rattle.root_share.specs.Run.{better_of, exact_value, raised};
ghost use Rattle.root_share.specs.declared.steps.RootStep.TheVariants.{Take, Close};

use crate::steps::{RootStep, RootVerdict};
use std::alloc::{AllocError, Global};
use std::marker::Model;

/// The work at a root. Contracts see its number of children and the list of the steps so far. A
/// child is a move of the root, named by its index on the root's list.
#[derive(Drop)]
pub struct RootCore {
    children: u32,
    bound: i32,
    noted: Vec<Option<i32>>,
    verdicts: Vec<Option<RootVerdict>>,
    steps: Vec<RootStep>,
}

impl Model for RootCore {
    ghost use Rattle.root_share.specs.Run.{Run, IsKept};
    ghost use Rattle.std.specs.Prelude.{vec_capacity};

    ghost Value = { Run };

    ghost view = { λ c. record { children = c.children; steps = c.steps.items } };

    ghost invariant = { λ c.
        IsKept c.children c.bound c.noted.items c.verdicts.items c.steps.items
        (vec_capacity c.steps) };
}

impl RootCore {
    /// A root with this many children, none of which was begun. All memory is taken here.
    pub fn new(alloc: Global, children: u32) -> Result<RootCore, AllocError>
        ensures { IfOk result (λ c. c ≡ record { children = children; steps = [] }) }
    {
        let noted = Vec::from_elem(alloc, None, children as usize)?;
        let verdicts = Vec::from_elem(alloc, None, children as usize)?;
        let steps = Vec::with_capacity(alloc, 2 * children as usize)?;
        Ok(RootCore {
            children,
            bound: -1_000_090,
            noted,
            verdicts,
            steps,
        })
    }

    /// Records a step. A child is begun at most once, and closed at most once, after it was begun.
    /// The verdict `Below` names the bound of the time when the child was begun. Whether a verdict
    /// is true is not checked.
    pub fn step(&mut self, step: RootStep)
        requires { MayFollow self.old.children self.old.steps step }
        ensures { self.new
            ≡ record { children = self.old.children; steps = self.old.steps ++ step ∷ [] } }
    {
        match step {
            RootStep::Take { child } => self.take(child),
            RootStep::Close { child, verdict } => self.close(child, verdict),
        }
    }

    fn take(&mut self, child: u32)
        requires { MayFollow self.old.children self.old.steps (Take child) }
        ensures { self.new ≡ record {
          children = self.old.children;
          steps = self.old.steps ++ Take child ∷
              [];
        } }
    {
        self.noted[child as usize] = Some(self.bound);
        let _ = self.steps.push(RootStep::Take { child });
    }

    fn close(&mut self, child: u32, verdict: RootVerdict)
        requires { MayFollow self.old.children self.old.steps (Close child verdict) }
        ensures { self.new ≡ record {
          children = self.old.children;
          steps = self.old.steps ++ Close child
              verdict ∷ [];
        } }
    {
        self.verdicts[child as usize] = Some(verdict);
        self.bound = raise(self.bound, verdict);
        let _ = self.steps.push(RootStep::Close { child, verdict });
    }

    /// The greatest of the exact values found so far. It is -1,000,090, below the value of any
    /// child, if there are none.
    pub fn bound(&self) -> i32
        ensures { result ≡ bound_of self.now.steps }
    {
        self.bound
    }

    /// The first child with the greatest value among those whose exact value was found, and that
    /// value. None exactly if no exact value was found.
    pub fn best_child(&self) -> Option<(u32, i32)>
        ensures { IsBestChild self.now.steps result }
    {
        best_of(self.verdicts.as_slice(), self.children)
    }
}

fn best_of(verdicts: &[Option<RootVerdict>], children: u32) -> Option<(u32, i32)>
    requires { length verdicts.now ≡ children }
    ensures { IsBestBefore (λ i. exact_value (slice_index_or verdicts.now i None)) children result }
{
    let mut best: Option<(u32, i32)> = None;
    for child in 0..children {
        best = better(best, child, verdicts[child as usize]);
    }
    best
}

fn better(best: Option<(u32, i32)>, child: u32, verdict: Option<RootVerdict>) -> Option<(u32, i32)>
    ensures { result ≡ better_of best child (exact_value verdict) }
{
    match verdict {
        Some(RootVerdict::Exact { value }) => match best {
            None => Some((child, value)),
            Some((_, most)) => {
                if most < value {
                    Some((child, value))
                } else {
                    best
                }
            }
        },
        _ => best,
    }
}

fn raise(bound: i32, verdict: RootVerdict) -> i32
    ensures { result ≡ raised bound verdict }
{
    match verdict {
        RootVerdict::Exact { value } => bound.max(value),
        RootVerdict::Below { bound: _ } => bound,
    }
}
