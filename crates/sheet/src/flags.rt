// Sets of atoms as flags, and the marks of assumed atoms.
ghost use Rattle.std.specs.Prelude.{◌≡◌, [], ◌∷◌, map, length};
ghost use Rattle.sheet.specs.Kept.{with_positives, with_negatives, mark_assumed};

use crate::mark::Mark;
use crate::tests::mark_assumed;
use base::parts::put;

fn put_literal(answer: &mut [bool], assumed: &mut [bool], literal: i32)
    ensures answer { answer.new ≡ with_positives answer.old (literal ∷ []) }
    ensures assumed { assumed.new ≡ with_negatives assumed.old (literal ∷ []) }
{
    let atom = literal.unsigned_abs() as usize;
    if literal < 0 {
        put(assumed, atom, true);
    } else {
        put(answer, atom, true);
    }
}

// The positive literals into the answer, and the atoms of the negative ones into the assumed set.
pub(crate) fn put_literals(answer: &mut [bool], assumed: &mut [bool], literals: &[i32])
    ensures answer { answer.new ≡ with_positives answer.old literals.now }
    ensures assumed { assumed.new ≡ with_negatives assumed.old literals.now }
{
    for literal in literals {
        put_literal(answer, assumed, *literal);
    }
}

// The assumed atoms are marked false, and no others are marked.
pub(crate) fn put_assumed(marks: &mut [Mark], assumed: &[bool])
    requires { length marks.old ≡ length assumed.now }
    ensures { marks.new ≡ map mark_assumed assumed.now }
{
    // A zip of both lists was tried: what the marks are after it is not known.
    for (atom, mark) in marks.iter_mut().enumerate() {
        *mark = mark_assumed(assumed[atom]);
    }
}
