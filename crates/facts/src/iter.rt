ghost use Rattle.std.specs.Prelude.{◌≡◌, ◌+◌, ◌-◌, IfSome};
ghost use Rattle.std.specs.Iterator.{at_most};
ghost use Rattle.facts.specs.Members.{Next};

use crate::set::FactSet;

// The facts of a set in rising order, of which those from `from` on are still to come.
#[derive(Clone, Debug, Drop)]
pub struct Iter<'a> {
    set: &'a FactSet,
    from: usize,
}

impl FactSet {
    pub fn iter(&self) -> Iter<'_>
        ensures set { result.set.now ≡ self.now }
        ensures start { result.from ≡ 0 }
    {
        Iter { set: self, from: 0 }
    }
}

impl<'a> IntoIterator for &'a FactSet {
    type Item = u8;

    type IntoIter = Iter<'a>;

    ghost into_iter_gives = { λ s r. (r.set.now ≡ s.now) × (r.from ≡ 0) };

    fn into_iter(self) -> Iter<'a> {
        self.iter()
    }
}

impl<'a> Iterator for Iter<'a> {
    type Item = u8;

    ghost next_gives = { λ s r t. (t.set.now ≡ s.set.now) × Next s.set.now.words s.from r × IfSome r (λ fact. t.from ≡ fact + 1) };

    ghost remaining = { λ s. at_most (256 - s.from) };

    fn next(&mut self) -> Option<u8> {
        let fact = self.set.next(self.from)?;
        self.from = usize::from(fact) + 1;
        Some(fact)
    }
}
