// A book over lists of numbers.
ghost use Rattle.std.specs.Prelude.{◌≡◌, ℕ, true, map, is_ok, unsigned_abs};
ghost use Rattle.std.specs.Option.{option_map};
ghost use Rattle.std.specs.List.{slice_get};
ghost use Rattle.book.specs.Rules.{Rules, Lawful, rule_at};
ghost use Rattle.numbers.specs.NumbersLaw.{Encodes};
ghost use Rattle.numbers.specs.Numbers.{rule_from, numbers_verdict, spelled, numbers_book, name_in, numbers_name};
ghost use Rattle.numbers.specs.NumbersLawful.{accepted_lawful};

use crate::lists::RuleLists;
use crate::rule::RuleAt;
use base::parts::{item, item_or, part};
use book::book::{Book, NamedBook};
use book::kind::Kind;

#[derive(Clone, Copy)]
pub struct NumbersBook<'a> {
    lists: RuleLists<'a>,
    ghost accepted: { is_ok (numbers_verdict lists) ≡ true },
}

impl<'a> NumbersBook<'a> {
    // The book that the lists spell out; the empty one where they are not accepted.
    pub fn new(lists: RuleLists<'a>) -> NumbersBook<'a>
        ensures rules { spelled result.lists ≡ numbers_book lists.entry }
        ensures names { (a : ℕ) → name_in result.lists.names a ≡ numbers_name lists.entry a }
        ensures decodes { (R : Rules) → Lawful R → Encodes R lists.entry → spelled result.lists ≡ R }
    {
        if lists.check().is_ok() {
            NumbersBook { lists }
        } else {
            NumbersBook {
                lists: RuleLists::default(),
            }
        }
    }

    // The rule at a place, if there is one.
    fn rule(&self, rule: u32) -> Option<RuleAt<'a>>
        ensures { rule_at (spelled self.now.lists) rule ≡ option_map (λ r. rule_from r.integers.now r.start) result }
    {
        let start = item(self.lists.starts, rule as usize)?;
        Some(self.lists.rule_from(start))
    }
}

// The atom that stands at a position of a head.
fn atom_in(head: &[i32], at: u32) -> Option<u32>
    ensures { result ≡ slice_get (map unsigned_abs head.now) at }
{
    head.get(at as usize).map(|z| z.unsigned_abs())
}

impl<'a> Book for NumbersBook<'a> {
    ghost meaning = { λ b. spelled b.lists };

    ghost lawful = { λ b. accepted_lawful b.lists b.accepted };

    fn atoms(&self) -> u32 {
        self.lists.atoms
    }

    fn rules(&self) -> u32 {
        self.lists.starts.len() as u32
    }

    fn kind(&self, rule: u32) -> Option<Kind> {
        self.rule(rule).map(|found| found.kind())
    }

    fn head_size(&self, rule: u32) -> Option<u32> {
        self.rule(rule).map(|found| found.head().len() as u32)
    }

    fn body_size(&self, rule: u32) -> Option<u32> {
        self.rule(rule).map(|found| found.body().len() as u32)
    }

    fn head(&self, rule: u32, at: u32) -> Option<u32> {
        atom_in(self.rule(rule)?.head(), at)
    }

    fn literal(&self, rule: u32, at: u32) -> Option<i32> {
        item(self.rule(rule)?.body(), at as usize)
    }
}

impl<'a> NamedBook for NumbersBook<'a> {
    ghost naming = { λ b. name_in b.lists.names };

    fn name(&self, atom: u32) -> Option<&[u8]> {
        let i = atom.checked_sub(1)? as usize;
        let names = self.lists.names;
        let len = item_or(names.lengths, i, 0);
        if len == 0 {
            return None;
        }
        let from = item_or(names.starts, i, 0);
        Some(part(names.text, from as usize, len as usize))
    }
}
