// A book of facts: each atom of a list, as a plain rule without a body.
ghost use Rattle.std.specs.Prelude.{◌≡◌, ◌<◌, true, length, is_ok, None};
ghost use Rattle.std.specs.Option.{option_map};
ghost use Rattle.book.specs.Rules.{rule_at};
ghost use Rattle.book.specs.Facts.{fact_rule, fact_rules, sound_fact, first_faulty_fact, facts_verdict, facts_book};
ghost use Rattle.book.specs.FactsLaw.{FactsFaithful};
ghost use Rattle.book.specs.FactsLawful.{accepted_facts};

use crate::book::{Book, NamedBook};
use crate::error::BookError;
use crate::kind::Kind;
use base::parts::item;

fn is_sound_fact(atoms: u32, facts: &[u32], i: usize) -> bool
    requires { i < length facts.now }
    ensures { result ≡ sound_fact atoms facts.now i }
{
    i < 2048 && (1..=atoms).contains(&facts[i])
}

// By its place, since past the limit any fact is faulty. (With `enumerate` each closure would take a pair apart.)
fn first_faulty_fact(atoms: u32, facts: &[u32]) -> Option<u32>
    ensures { result ≡ first_faulty_fact atoms facts.now }
{
    (0..facts.len())
        .find(|i| !is_sound_fact(atoms, facts, *i))
        .map(|i| i as u32)
}

// Nothing where each fact is an atom and the limits are kept, or else the first thing that is wrong. N and the list stay
// two arguments: the book made of them is the struct that has both.
#[tactic(auto, using(crate::proofs::Facted::facts_faithful))]
pub fn check_facts(atoms: u32, facts: &[u32]) -> Result<(), BookError>
    ensures verdict { result ≡ facts_verdict atoms facts.now }
    ensures faithful { FactsFaithful atoms facts.now }
{
    if atoms > 1024 {
        return Err(BookError::TooManyAtoms);
    }
    match first_faulty_fact(atoms, facts) {
        Some(fact) => Err(BookError::FaultyRule(fact)),
        None => Ok(()),
    }
}

#[derive(Clone, Copy)]
pub struct FactBook<'a> {
    atoms: u32,
    facts: &'a [u32],
    ghost accepted: { is_ok (facts_verdict atoms facts.now) ≡ true },
}

impl<'a> FactBook<'a> {
    // The book of these facts; the empty one where they are not accepted.
    pub fn new(atoms: u32, facts: &'a [u32]) -> FactBook<'a>
        ensures { fact_rules result.atoms result.facts.now ≡ facts_book atoms facts.now }
    {
        if check_facts(atoms, facts).is_ok() {
            FactBook { atoms, facts }
        } else {
            FactBook {
                atoms: 0,
                facts: &[],
            }
        }
    }

    // The fact at a place, if there is one.
    fn fact(&self, rule: u32) -> Option<u32>
        ensures { rule_at (fact_rules self.now.atoms self.now.facts.now) rule ≡ option_map fact_rule result }
    {
        item(self.facts, rule as usize)
    }
}

impl<'a> Book for FactBook<'a> {
    ghost meaning = { λ b. fact_rules b.atoms b.facts.now };

    ghost lawful = { λ b. accepted_facts b.atoms b.facts.now b.accepted };

    fn atoms(&self) -> u32 {
        self.atoms
    }

    fn rules(&self) -> u32 {
        self.facts.len() as u32
    }

    fn kind(&self, rule: u32) -> Option<Kind> {
        self.fact(rule).map(|_| Kind::Plain)
    }

    fn head_size(&self, rule: u32) -> Option<u32> {
        self.fact(rule).map(|_| 1)
    }

    fn body_size(&self, rule: u32) -> Option<u32> {
        self.fact(rule).map(|_| 0)
    }

    fn head(&self, rule: u32, at: u32) -> Option<u32> {
        self.fact(rule).filter(|_| at == 0)
    }

    fn literal(&self, _rule: u32, _at: u32) -> Option<i32> {
        None
    }
}

impl<'a> NamedBook for FactBook<'a> {
    ghost naming = { λ _ _. None };

    fn name(&self, _atom: u32) -> Option<&[u8]> {
        None
    }
}
