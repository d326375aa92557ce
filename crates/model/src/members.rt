// The members of the run's own lists (§2.2), each as a slice: of an array as much as its count says is meant.
ghost use Rattle.std.specs.Prelude.{◌≡◌, true, take};
ghost use Rattle.model.specs.Entry.{lists_fit};

use crate::Lists;

impl Lists {
    // The alphabet: the child count of each symbol.
    #[tactic(auto, using(crate::proofs::Laws::Lent::lists_fit_facts))]
    pub fn alphabet(&self) -> &[u8]
        requires { lists_fit self.now ≡ true }
        ensures { result.now ≡ take self.now.letters self.now.counts }
    {
        &self.counts[..self.letters as usize]
    }

    // The rows of S, the representatives.
    #[tactic(auto, using(crate::proofs::Laws::Lent::lists_fit_facts))]
    pub fn state_rows(&self) -> &[u16]
        requires { lists_fit self.now ≡ true }
        ensures { result.now ≡ take self.now.states self.now.s }
    {
        &self.s[..self.states as usize]
    }

    // The rows of T, the transitions.
    #[tactic(auto, using(crate::proofs::Laws::Lent::lists_fit_facts))]
    pub fn rule_rows(&self) -> &[u16]
        requires { lists_fit self.now ≡ true }
        ensures { result.now ≡ take self.now.rules self.now.t }
    {
        &self.t[..self.rules as usize]
    }

    // The rows of C, the contexts.
    #[tactic(auto, using(crate::proofs::Laws::Lent::lists_fit_facts))]
    pub fn context_rows(&self) -> &[u16]
        requires { lists_fit self.now ≡ true }
        ensures { result.now ≡ take self.now.contexts self.now.c }
    {
        &self.c[..self.contexts as usize]
    }
}
