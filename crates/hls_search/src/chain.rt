// A few conversions, one after the other.
ghost use Rattle.std.specs.Prelude.{◌≡◌, ◌<◌, ◌++◌, [], ◌∷◌, length};

use hls_derive::Step;
use hls_guarantee::{Guarantee, RuleName};
use std::marker::Model;

/// At most two conversions, one after the other. Contracts see their list.
#[derive(Drop)]
pub struct Chain {
    steps: [Step; 2],
    len: usize,
}

impl Model for Chain {
    ghost use Rattle.std.specs.Prelude.{List, take, ◌≤◌};
    ghost use Rattle.hls_derive.specs.declared.derivation.Step.{Step};

    ghost Value = { List Step };

    ghost view = { λ chain. take chain.len chain.steps };

    ghost invariant = { λ chain. chain.len ≤ 2 };
}

impl Chain {
    /// No conversion.
    pub fn none() -> Chain
        ensures { result ≡ [] }
    {
        let unused = Step {
            rule: RuleName::R9,
            to: Guarantee::Null,
        };
        Chain {
            steps: [unused; 2],
            len: 0,
        }
    }

    /// One conversion.
    pub fn one(step: Step) -> Chain
        ensures { result ≡ step ∷ [] }
    {
        let mut chain = Chain::none();
        chain.push(step);
        chain
    }

    /// One conversion more.
    pub fn push(&mut self, step: Step)
        requires { length self.old < 2 }
        ensures { self.new ≡ self.old ++ step ∷ [] }
    {
        self.steps[self.len] = step;
        self.len += 1;
    }

    /// The conversions.
    pub fn steps(&self) -> &[Step]
        ensures { result.now ≡ self.now }
    {
        &self.steps[..self.len]
    }

    /// How many conversions there are.
    pub fn len(&self) -> usize
        ensures { result ≡ length self.now }
    {
        self.steps().len()
    }
}
