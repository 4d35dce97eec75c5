ghost use Rattle.std.specs.Prelude.{◌≡◌, ◌<◌, ◌+◌, ◌*◌, ◌-◌, ◌^◌, ◌≤◌, nat_eq, length, map};
ghost use Rattle.math_algebra.specs.Tree.{parity_sum, trees};
ghost use Rattle.math_algebra.specs.Degrees.{of_both, of_bracket, same_parity, weight_of, weights_of, parity_of, parities_of, weight_of_both};
ghost use Rattle.fpl_model.specs.Meaning.{plain, tree_in, trees_in, parity_in, presentation_in};
ghost use Rattle.fpl_model.specs.Sound.{IsTerm, AreTerms, HaveWeights, count_tree, count_trees};
ghost use Rattle.fpl_model.specs.Degrees.{weight_degree, parity_degree, IsUpTo, is_exactly};

use crate::{Equation, Expr, Exprs, Parity, Presentation};

/// The weight that an expression has as written: none, one, or two that differ.
#[derive(Clone, Copy, Debug, PartialEq, Eq)]
pub enum Degree {
    Any,
    Exact(u64),
    Mixed,
}

/// The parity that an expression has as written: none, one, or two that differ.
#[derive(Clone, Copy, Debug, PartialEq, Eq)]
pub enum ParityOf {
    Any,
    Exact(Parity),
    Mixed,
}

impl Degree {
    /// The weight of a sum, from those of two parts.
    fn both(self, other: Degree) -> Degree
        ensures { weight_degree result ≡ of_both nat_eq (weight_degree self) (weight_degree other) }
    {
        match (self, other) {
            (Degree::Mixed, _) | (_, Degree::Mixed) => Degree::Mixed,
            (Degree::Any, _) => other,
            (_, Degree::Any) => self,
            (Degree::Exact(a), Degree::Exact(b)) => { if a == b { self } else { Degree::Mixed } }
        }
    }

    /// The weight of a bracket, from those of its members.
    fn bracket(self, other: Degree) -> Degree
        requires left { IsUpTo (2 ^ 63 - 1) self }
        requires right { IsUpTo (2 ^ 63 - 1) other }
        ensures { weight_degree result ≡ of_bracket (λ a b. a + b) (weight_degree self) (weight_degree other) }
    {
        match (self, other) {
            (Degree::Mixed, _) | (_, Degree::Mixed) => Degree::Mixed,
            (Degree::Any, _) | (_, Degree::Any) => Degree::Any,
            (Degree::Exact(a), Degree::Exact(b)) => Degree::Exact(a + b),
        }
    }
}

impl Parity {
    /// The sum of two parities.
    pub fn plus(self, other: Parity) -> Parity
        ensures { parity_in result ≡ parity_sum (parity_in self) (parity_in other) }
    {
        match (self, other) {
            (Parity::Even, Parity::Even) | (Parity::Odd, Parity::Odd) => Parity::Even,
            (Parity::Even, Parity::Odd) | (Parity::Odd, Parity::Even) => Parity::Odd,
        }
    }
}

impl ParityOf {
    /// The parity of a sum, from those of two parts.
    fn both(self, other: ParityOf) -> ParityOf
        ensures { parity_degree result ≡ of_both same_parity (parity_degree self) (parity_degree other) }
    {
        match (self, other) {
            (ParityOf::Mixed, _) | (_, ParityOf::Mixed) => ParityOf::Mixed,
            (ParityOf::Any, _) => other,
            (_, ParityOf::Any) => self,
            (ParityOf::Exact(Parity::Even), ParityOf::Exact(Parity::Even)) => self,
            (ParityOf::Exact(Parity::Odd), ParityOf::Exact(Parity::Odd)) => self,
            (ParityOf::Exact(_), ParityOf::Exact(_)) => ParityOf::Mixed,
        }
    }

    /// The parity of a bracket, from those of its members.
    fn bracket(self, other: ParityOf) -> ParityOf
        ensures { parity_degree result ≡ of_bracket parity_sum (parity_degree self) (parity_degree other) }
    {
        match (self, other) {
            (ParityOf::Mixed, _) | (_, ParityOf::Mixed) => ParityOf::Mixed,
            (ParityOf::Any, _) | (_, ParityOf::Any) => ParityOf::Any,
            (ParityOf::Exact(s), ParityOf::Exact(t)) => ParityOf::Exact(s.plus(t)),
        }
    }
}

impl Presentation {
    /// The weight of an expression over the generators, as written: also where a number in it is 0.
    #[cycle(weighing)]
    #[tactic(auto, using(crate::proofs::Plain::plain_forms), unfolding(math_algebra::specs::Degrees::weight_of))]
    pub fn weight_of(&self, e: &Expr) -> Degree
        requires weights { HaveWeights self.now.generators }
        requires term { IsTerm self.now.field (length self.now.generators) (plain e.now) }
        requires few { count_tree (plain e.now) < 2 ^ 40 }
        ensures { weight_degree result ≡ weight_of (presentation_in self.now) (tree_in self.now.field e.now) }
    {
        match e {
            Expr::Gen(g) => {
                let at = *g as usize - 1;
                Degree::Exact(u64::from(self.generators.as_slice()[at].weight))
            }
            Expr::Zero => Degree::Any,
            Expr::Sum(members) => self.weight_of_all(members.get()),
            Expr::Times(_, e) => self.weight_of(e.get()),
            Expr::Br(a, b) => {
                let left = self.weight_of(a.get());
                let right = self.weight_of(b.get());
                left.bracket(right)
            }
        }
    }

    #[cycle(weighing)]
    #[tactic(auto, using(crate::proofs::Plain::plain_forms), unfolding(math_algebra::specs::Degrees::weight_of))]
    fn weight_of_all(&self, members: &Exprs) -> Degree
        requires weights { HaveWeights self.now.generators }
        requires terms { AreTerms self.now.field (length self.now.generators) (trees (map plain members.now)) }
        requires few { count_trees (trees (map plain members.now)) < 2 ^ 40 }
        ensures { weight_degree result ≡ weights_of (presentation_in self.now) (trees_in self.now.field members.now) }
    {
        let mut all = Degree::Any;
        for e in members.as_slice() {
            all = all.both(self.weight_of(e));
        }
        all
    }

    /// The parity of an expression over the generators, as written.
    #[cycle(pairing)]
    #[tactic(auto, using(crate::proofs::Plain::plain_forms), unfolding(math_algebra::specs::Degrees::parity_of))]
    pub fn parity_of(&self, e: &Expr) -> ParityOf
        requires { IsTerm self.now.field (length self.now.generators) (plain e.now) }
        ensures { parity_degree result ≡ parity_of (presentation_in self.now) (tree_in self.now.field e.now) }
    {
        match e {
            Expr::Gen(g) => {
                let at = *g as usize - 1;
                ParityOf::Exact(self.generators.as_slice()[at].parity)
            }
            Expr::Zero => ParityOf::Any,
            Expr::Sum(members) => self.parity_of_all(members.get()),
            Expr::Times(_, e) => self.parity_of(e.get()),
            Expr::Br(a, b) => {
                let left = self.parity_of(a.get());
                let right = self.parity_of(b.get());
                left.bracket(right)
            }
        }
    }

    #[cycle(pairing)]
    #[tactic(auto, using(crate::proofs::Plain::plain_forms), unfolding(math_algebra::specs::Degrees::parity_of))]
    fn parity_of_all(&self, members: &Exprs) -> ParityOf
        requires { AreTerms self.now.field (length self.now.generators) (trees (map plain members.now)) }
        ensures { parity_degree result ≡ parities_of (presentation_in self.now) (trees_in self.now.field members.now) }
    {
        let mut all = ParityOf::Any;
        for e in members.as_slice() {
            all = all.both(self.parity_of(e));
        }
        all
    }

    /// The weight of an equation, its two sides taken as one sum.
    pub fn equation_weight(&self, q: &Equation) -> Degree
        requires weights { HaveWeights self.now.generators }
        requires left { IsTerm self.now.field (length self.now.generators) (plain q.now.left) }
        requires right { IsTerm self.now.field (length self.now.generators) (plain q.now.right) }
        requires few { count_tree (plain q.now.left) + count_tree (plain q.now.right) < 2 ^ 40 }
        ensures { weight_degree result ≡ weight_of_both (presentation_in self.now) (tree_in self.now.field q.now.left) (tree_in self.now.field q.now.right) }
    {
        let left = self.weight_of(&q.left);
        left.both(self.weight_of(&q.right))
    }

    /// Whether an equation has weight `w`, its two sides taken as one sum.
    pub fn has_weight(&self, q: &Equation, w: u32) -> bool
        requires weights { HaveWeights self.now.generators }
        requires left { IsTerm self.now.field (length self.now.generators) (plain q.now.left) }
        requires right { IsTerm self.now.field (length self.now.generators) (plain q.now.right) }
        requires few { count_tree (plain q.now.left) + count_tree (plain q.now.right) < 2 ^ 40 }
        ensures { result ≡ is_exactly w (weight_of_both (presentation_in self.now) (tree_in self.now.field q.now.left) (tree_in self.now.field q.now.right)) }
    {
        match self.equation_weight(q) {
            Degree::Exact(v) => v == u64::from(w),
            Degree::Any | Degree::Mixed => false,
        }
    }
}
