// Tests of a rule of any book: of its head, and of its body literal by literal.
ghost use Rattle.std.specs.Prelude.{◌≡◌, ℕ, ℤ, Bool, Option, nat_eq};
ghost use Rattle.base.specs.Closures.{Computes};
ghost use Rattle.base.specs.Search.{least};
ghost use Rattle.sheet.specs.Lists.{passes};
ghost use Rattle.sheet.specs.Marks.{says};
ghost use Rattle.sheet.specs.Bodies.{first_unmet, is_positive, literal_holds, literal_fails, literal_true};
ghost use Rattle.sheet.specs.Allowed.{is_constraint};
ghost use Rattle.sheet.specs.Open.{broken_at, first_broken};
ghost use Rattle.sheet.specs.Verdicts.{fits_required, unfailing_at, first_unfailing};
ghost use Rattle.sheet.specs.Closures.{ComputesOnFound, ComputesOnLiterals};
ghost use Rattle.sheet.specs.Judges.{rules_of, answer_of, marks_of, rule_of, some_head, some_literal};

use crate::judge::Judge;
use crate::mark::Mark;
use crate::tests::{is_positive, mark_at};
use base::parts::item_or;
use book::book::Book;
use book::kind::Kind;

// The first of so many places whose item passes the test.
fn first_place<T, L: Fn(u32) -> Option<T>, F: Fn(T) -> bool>(
    count: u32,
    look: L,
    test: F,
) -> Option<u32>
    requires look { L.IsAlwaysCallable look }
    requires test { F.IsAlwaysCallable test }
    ensures { (found : ℕ → Option T) (p : T → Bool) → Computes (L.post look) found → ComputesOnFound found (F.post test) p → result ≡ least (λ at. passes p (found at)) count }
{
    (0..count).find(|at| look(*at).is_some_and(|item| test(item)))
}

// A rule is named by its place throughout: a judge goes over all rules of its book, and a value for one rule would be made
// for one question.
impl<'a, B: Book> Judge<'a, B> {
    // Whether the atom is in the answer.
    pub(crate) fn is_in_answer(&self, atom: u32) -> bool
        ensures { result ≡ answer_of self.now atom }
    {
        item_or(self.answer, atom as usize, false)
    }

    // Whether the atom is marked, and the mark says this.
    fn says(&self, atom: u32, truth: bool) -> bool
        ensures { result ≡ says truth (marks_of self.now atom) }
    {
        mark_at(self.marks, atom) == (if truth { Mark::True } else { Mark::False })
    }

    // Whether its atom is marked as the literal has it.
    pub(crate) fn holds(&self, literal: i32) -> bool
        ensures { result ≡ literal_holds (marks_of self.now) literal }
    {
        self.says(literal.unsigned_abs(), literal >= 0)
    }

    // Whether its atom is marked the other way.
    fn fails(&self, literal: i32) -> bool
        ensures { result ≡ literal_fails (marks_of self.now) literal }
    {
        self.says(literal.unsigned_abs(), literal < 0)
    }

    // Whether the literal is true under the answer.
    fn is_true(&self, literal: i32) -> bool
        ensures { result ≡ literal_true (answer_of self.now) (answer_of self.now) literal }
    {
        self.is_in_answer(literal.unsigned_abs()) != (literal < 0)
    }

    // The first position of the body whose literal does not pass the test.
    pub(crate) fn first_unmet<F: Fn(i32) -> bool>(&self, rule: u32, test: F) -> Option<u32>
        requires { F.IsAlwaysCallable test }
        ensures { (p : ℤ → Bool) → ComputesOnLiterals (F.post test) p → result ≡ first_unmet p (rule_of B.meaning self.now rule) }
    {
        let size = self.book.body_size(rule).unwrap_or(0);
        first_place(
            size,
            |at| self.book.literal(rule, at),
            |literal| !test(literal),
        )
    }

    // Whether a literal of the body passes the test.
    fn any_literal<F: Fn(i32) -> bool>(&self, rule: u32, test: F) -> bool
        requires { F.IsAlwaysCallable test }
        ensures { (p : ℤ → Bool) → ComputesOnLiterals (F.post test) p → result ≡ some_literal p (rule_of B.meaning self.now rule) }
    {
        let size = self.book.body_size(rule).unwrap_or(0);
        first_place(size, |at| self.book.literal(rule, at), test).is_some()
    }

    // Whether an atom of the head passes the test.
    fn any_head<F: Fn(u32) -> bool>(&self, rule: u32, test: F) -> bool
        requires { F.IsAlwaysCallable test }
        ensures { (p : ℕ → Bool) → Computes (F.post test) p → result ≡ some_head p (rule_of B.meaning self.now rule) }
    {
        let size = self.book.head_size(rule).unwrap_or(0);
        first_place(size, |at| self.book.head(rule, at), test).is_some()
    }

    // Whether the rule has the atom in its head.
    pub(crate) fn is_in_head(&self, atom: u32, rule: u32) -> bool
        ensures { result ≡ some_head (nat_eq atom) (rule_of B.meaning self.now rule) }
    {
        self.any_head(rule, |head| head == atom)
    }

    // Whether a head atom of the rule is in the answer.
    fn has_true_head(&self, rule: u32) -> bool
        ensures { result ≡ some_head (answer_of self.now) (rule_of B.meaning self.now rule) }
    {
        self.any_head(rule, |head| self.is_in_answer(head))
    }

    // Whether it is a plain rule without a head.
    fn is_constraint(&self, rule: u32) -> bool
        ensures { result ≡ passes is_constraint (rule_of B.meaning self.now rule) }
    {
        self.book.kind(rule) == Some(Kind::Plain) && self.book.head_size(rule) == Some(0)
    }

    // Whether the atom stands positive in the rule's body.
    fn is_in_body(&self, atom: u32, rule: u32) -> bool
        ensures { result ≡ some_literal (is_positive atom) (rule_of B.meaning self.now rule) }
    {
        self.any_literal(rule, |literal| is_positive(atom, literal))
    }

    // Whether the rule is a constraint with the atom positive in its body.
    #[tactic(auto, unfolding(crate::specs::Judges::some_literal))]
    pub(crate) fn can_require(&self, atom: u32, rule: u32) -> bool
        ensures { result ≡ passes (fits_required atom) (rule_of B.meaning self.now rule) }
    {
        self.is_constraint(rule) && self.is_in_body(atom, rule)
    }

    // Whether a literal of the body fails.
    fn body_fails(&self, rule: u32) -> bool
        ensures { result ≡ some_literal (literal_fails (marks_of self.now)) (rule_of B.meaning self.now rule) }
    {
        self.any_literal(rule, |literal| self.fails(literal))
    }

    // Whether the rule has the atom in its head, and no literal of its body fails.
    #[tactic(auto, unfolding(crate::specs::Judges::some_head, crate::specs::Judges::some_literal))]
    fn is_unfailing(&self, atom: u32, rule: u32) -> bool
        ensures { result ≡ unfailing_at (rules_of B.meaning self.now) (marks_of self.now) atom rule }
    {
        self.is_in_head(atom, rule) && !self.body_fails(rule)
    }

    // The first rule with the atom in its head that has no failing literal.
    pub(crate) fn first_unfailing(&self, atom: u32) -> Option<u32>
        ensures { result ≡ first_unfailing (rules_of B.meaning self.now) (marks_of self.now) atom }
    {
        (0..self.book.rules()).find(|rule| self.is_unfailing(atom, *rule))
    }

    // Whether it is a plain rule whose body is true under the answer while no head atom is.
    #[tactic(auto, unfolding(crate::specs::Judges::some_head))]
    fn is_broken(&self, rule: u32) -> bool
        ensures { result ≡ broken_at (rules_of B.meaning self.now) (answer_of self.now) rule }
    {
        self.book.kind(rule) == Some(Kind::Plain)
            && !self.has_true_head(rule)
            && self
                .first_unmet(rule, |literal| self.is_true(literal))
                .is_none()
    }

    // The first rule that is broken under the answer.
    pub(crate) fn first_broken(&self) -> Option<u32>
        ensures { result ≡ first_broken (rules_of B.meaning self.now) (answer_of self.now) }
    {
        (0..self.book.rules()).find(|rule| self.is_broken(*rule))
    }
}
