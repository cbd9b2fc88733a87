// One rule among the integers: where its parts lie, and whether they keep the limits.
ghost use Rattle.std.specs.Prelude.{◌≡◌, ◌+◌, ◌^◌, ◌<◌, length};
ghost use Rattle.std.specs.List.{list_all};
ghost use Rattle.numbers.specs.Numbers.{integer_at, count as counted, kind_from, part_at, part_end, head_part, body_start, body_part, rule_end, within, is_literal, sound_counts, sound_rule};

use base::parts::{item_or, part};
use book::kind::Kind;

fn count(z: i32) -> u32
    ensures { result ≡ counted z }
{
    z.max(0).unsigned_abs()
}

// Every integer is taken for a kind, since the look-ups answer whatever the lists hold.
fn kind_from(z: i32) -> Kind
    ensures { result ≡ kind_from z }
{
    Kind::try_from(z).unwrap_or(Kind::Choice)
}

fn is_within(z: i32, low: u32, high: u32) -> bool
    ensures { result ≡ within low high z }
{
    u32::try_from(z).is_ok_and(|n| (low..=high).contains(&n))
}

fn is_literal(n: u32, z: i32) -> bool
    ensures { result ≡ is_literal n z }
{
    (1..=n).contains(&z.unsigned_abs())
}

// The integers of all rules, and where one of them starts.
#[derive(Clone, Copy)]
pub(crate) struct RuleAt<'a> {
    pub integers: &'a [i32],
    pub start: u32,
}

impl<'a> RuleAt<'a> {
    // The integer at a place, and 0 past the last one.
    fn integer(&self, at: usize) -> i32
        ensures { result ≡ integer_at self.now.integers.now at }
    {
        item_or(self.integers, at, 0)
    }

    pub(crate) fn kind(&self) -> Kind
        ensures { result ≡ kind_from (integer_at self.now.integers.now self.now.start) }
    {
        kind_from(self.integer(self.start as usize))
    }

    // The integers of the part whose type stands at a place: a type, a count, and so many integers.
    fn part_at(&self, at: usize) -> &'a [i32]
        requires { at < 2 ^ 34 }
        ensures part { result.now ≡ part_at self.now.integers.now at }
        ensures bound { length result.now < 2 ^ 32 }
    {
        let size = count(self.integer(at + 1));
        part(self.integers, at + 2, size as usize)
    }

    // Where such a part ends.
    fn part_end(&self, at: usize) -> usize
        requires { at < 2 ^ 34 }
        ensures place { result ≡ part_end self.now.integers.now at }
        ensures bound { result < at + 2 ^ 33 }
    {
        at + 2 + count(self.integer(at + 1)) as usize
    }

    pub(crate) fn head(&self) -> &'a [i32]
        ensures part { result.now ≡ head_part self.now.integers.now self.now.start }
        ensures bound { length result.now < 2 ^ 32 }
    {
        self.part_at(self.start as usize)
    }

    // Where the body type stands.
    fn body_start(&self) -> usize
        ensures place { result ≡ body_start self.now.integers.now self.now.start }
        ensures bound { result < 2 ^ 34 }
    {
        self.part_end(self.start as usize)
    }

    pub(crate) fn body(&self) -> &'a [i32]
        ensures part { result.now ≡ body_part self.now.integers.now self.now.start }
        ensures bound { length result.now < 2 ^ 32 }
    {
        self.part_at(self.body_start())
    }

    // Where the next rule starts.
    pub(crate) fn end(&self) -> usize
        ensures { result ≡ rule_end self.now.integers.now self.now.start }
    {
        self.part_end(self.body_start())
    }

    fn has_sound_counts(&self) -> bool
        ensures { result ≡ sound_counts self.now.integers.now self.now.start }
    {
        let from = self.start as usize;
        let body = self.body_start();
        is_within(self.integer(from), 0, 1)
            && is_within(self.integer(from + 1), 0, self.kind().head_limit())
            && is_within(self.integer(body), 0, 0)
            && is_within(self.integer(body + 1), 0, 255)
    }

    fn has_atoms(&self, atoms: u32) -> bool
        ensures { result ≡ list_all (within 1 atoms) (head_part self.now.integers.now self.now.start) }
    {
        self.head().iter().all(|z| is_within(*z, 1, atoms))
    }

    fn has_literals(&self, atoms: u32) -> bool
        ensures { result ≡ list_all (is_literal atoms) (body_part self.now.integers.now self.now.start) }
    {
        self.body().iter().all(|z| is_literal(atoms, *z))
    }

    // Whether this is a rule over so many atoms.
    pub(crate) fn is_sound(&self, atoms: u32) -> bool
        ensures { result ≡ sound_rule atoms self.now.integers.now self.now.start }
    {
        self.has_sound_counts()
            && self.end() <= self.integers.len()
            && self.has_atoms(atoms)
            && self.has_literals(atoms)
    }
}
