// Tests of atoms, marks and literals. Marks are lent as the list that they are: that it has a place for each atom, and what
// it says with the entries, are facts of the sheet, and a struct around it would be opened for each.
ghost use Rattle.std.specs.Prelude.{◌≡◌, ◌&&◌, nat_le};
ghost use Rattle.sheet.specs.Marks.{is_unmarked};
ghost use Rattle.sheet.specs.Bodies.{is_positive};
ghost use Rattle.sheet.specs.Kept.{marking, mark_assumed};

use crate::mark::Mark;
use base::parts::item_or;

pub(crate) fn mark_at(marks: &[Mark], atom: u32) -> Mark
    ensures { result ≡ marking marks.now atom }
{
    item_or(marks, atom as usize, Mark::Unmarked)
}

pub(crate) fn is_atom(atoms: u32, atom: u32) -> bool
    ensures { result ≡ (nat_le 1 atom && nat_le atom atoms) }
{
    (1..=atoms).contains(&atom)
}

pub(crate) fn is_unmarked(marks: &[Mark], atom: u32) -> bool
    ensures { result ≡ is_unmarked (marking marks.now atom) }
{
    mark_at(marks, atom) == Mark::Unmarked
}

// An assumed atom is false. No From: a bool may as well be what an atom is.
pub(crate) fn mark_assumed(assumed: bool) -> Mark
    ensures { result ≡ mark_assumed assumed }
{
    if assumed { Mark::False } else { Mark::Unmarked }
}

pub(crate) fn is_positive(atom: u32, literal: i32) -> bool
    ensures { result ≡ is_positive atom literal }
{
    u32::try_from(literal).is_ok_and(|n| n == atom)
}
