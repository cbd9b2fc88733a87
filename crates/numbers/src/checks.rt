// Whether lists of numbers spell out a book, and if not, what is wrong with them.
ghost use Rattle.std.specs.Prelude.{◌≡◌, ◌<◌, ◌≤◌, length, is_some};
ghost use Rattle.base.specs.Search.{least};
ghost use Rattle.numbers.specs.NumbersLaw.{Faithful};
ghost use Rattle.numbers.specs.Numbers.{due_start, sound_at, first_faulty, reaches_past, outside, names_fit, rest_fits, numbers_verdict};

use crate::lists::{Names, RuleLists};
use crate::rule::RuleAt;
use book::error::BookError;

impl Names<'_> {
    fn is_outside(&self, start: u32, len: u32) -> bool
        ensures { result ≡ reaches_past (length self.now.text.now) start len }
    {
        len > 0 && self.text.len() < start as usize + len as usize
    }

    fn any_outside(&self) -> bool
        requires { length self.now.starts.now ≡ length self.now.lengths.now }
        ensures { result ≡ is_some (least (outside self.now) (length self.now.starts.now)) }
    {
        let mut names = self.starts.iter().zip(self.lengths);
        names.any(|(start, len)| self.is_outside(*start, *len))
    }

    fn fit(&self, atoms: u32) -> bool
        ensures { result ≡ names_fit atoms self.now }
    {
        let n = atoms as usize;
        self.starts.len() == n && self.lengths.len() == n && !self.any_outside()
    }
}

impl<'a> RuleLists<'a> {
    // The rule that starts among the integers at a place.
    pub(crate) fn rule_from(&self, start: u32) -> RuleAt<'a>
        ensures integers { result.integers.now ≡ self.now.integers.now }
        ensures start { result.start ≡ start }
    {
        RuleAt {
            integers: self.integers,
            start,
        }
    }

    // Where the rule at a place has to start.
    fn due_start(&self, rule: usize) -> usize
        requires { rule ≤ length self.now.starts.now }
        ensures { result ≡ due_start self.now.integers.now self.now.starts.now rule }
    {
        if rule == 0 {
            return 0;
        }
        self.rule_from(self.starts[rule - 1]).end()
    }

    fn is_sound_at(&self, rule: usize) -> bool
        requires { rule < length self.now.starts.now }
        ensures { result ≡ sound_at self.now rule }
    {
        let start = self.starts[rule];
        rule < 2048
            && start as usize == self.due_start(rule)
            && self.rule_from(start).is_sound(self.atoms)
    }

    // By its place, since a rule starts where the one before ends.
    fn first_faulty(&self) -> Option<u32>
        ensures { result ≡ first_faulty self.now }
    {
        (0..self.starts.len())
            .find(|rule| !self.is_sound_at(*rule))
            .map(|rule| rule as u32)
    }

    fn rest_fits(&self) -> bool
        ensures { result ≡ rest_fits self.now }
    {
        self.due_start(self.starts.len()) == self.integers.len() && self.names.fit(self.atoms)
    }

    // Nothing where the lists spell out a book, or else the first thing that is wrong with them.
    #[tactic(auto, using(crate::proofs::Encoded::faithful))]
    pub fn check(&self) -> Result<(), BookError>
        ensures verdict { result ≡ numbers_verdict self.now }
        ensures faithful { Faithful self.now }
    {
        if self.atoms > 1024 {
            return Err(BookError::TooManyAtoms);
        }
        if let Some(rule) = self.first_faulty() {
            return Err(BookError::FaultyRule(rule));
        }
        if !self.rest_fits() {
            return Err(BookError::FaultyRest(self.starts.len() as u32));
        }
        Ok(())
    }
}
