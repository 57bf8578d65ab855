// A book of rules.
ghost use Rattle.std.specs.Prelude.{◌≡◌, ◌<◌, Some, slice_get, vec_len, map};
ghost use Rattle.hls_rules.specs.Book.{EachOnce};

use crate::Rule;

/// Rules, each of `R1` to `R11` once.
#[derive(Drop)]
pub struct RuleBook {
    pub rules: Vec<Rule>,
    pub ghost whole: { EachOnce (map (λ (rule : _). rule.name) rules.items) },
}

impl RuleBook {
    /// The book of these rules.
    pub fn new(rules: Vec<Rule>) -> Self
        requires { EachOnce (map (λ (rule : _). rule.name) rules.items) }
        ensures { result.rules ≡ rules }
    {
        RuleBook { rules }
    }

    /// How many rules there are.
    pub fn len(&self) -> usize
        ensures { result ≡ vec_len self.now.rules }
    {
        self.rules.len()
    }

    /// The rule at a place.
    pub fn rule(&self, at: usize) -> &Rule
        requires { at < vec_len self.now.rules }
        ensures { slice_get self.now.rules.items at ≡ Some result.now }
    {
        &self.rules[at]
    }
}
