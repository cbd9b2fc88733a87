// The names that outputs give to atoms.
ghost use Rattle.std.specs.Prelude.{◌≡◌, ◌<◌, IfSome};
ghost use Rattle.reader.specs.Fill.{sole_atom, atom_named, both, with_names};
ghost use Rattle.reader.specs.Seen.{numbers_in, output_meant, statements_left};

use crate::statement::{Numbers, Output, Statement};
use crate::statements::Statements;
use base::parts::{item_or, put};

// The atom that the literals are alone.
fn sole_atom(literals: Numbers<'_>) -> Option<u32>
    ensures atom { result ≡ sole_atom (numbers_in literals.entry) }
    ensures some { IfSome result (λ a. 0 < a) }
{
    let mut values = literals.values();
    match (values.next(), values.next()) {
        (Some(value), None) if value > 0 => Some(value.unsigned_abs()),
        _ => None,
    }
}

// The atom that an output names.
fn atom_named(output: Output<'_>) -> Option<u32>
    ensures atom { result ≡ atom_named (output_meant output.entry) }
    ensures some { IfSome result (λ a. 0 < a) }
{
    if output.name.is_empty() {
        None
    } else {
        sole_atom(output.literals)
    }
}

// For each atom where its name stands in the text and how many bytes it has, in two lists of the caller's, as `Lists` has
// them.
#[derive(Drop)]
struct NameTable<'a> {
    places: &'a mut [u32],
    lengths: &'a mut [u32],
}

impl NameTable<'_> {
    ghost use Rattle.std.specs.Prelude.{◌≡◌, not, ◌==◌, slice_index};
    ghost use Rattle.reader.specs.Fill.{with_name, with_names};
    ghost use Rattle.reader.specs.Seen.{output_meant, statements_left};
    ghost use Rattle.reader.specs.Tables.{table, SameTable};

    // Whether the atom at a place has a name already.
    fn has_name(&self, place: usize) -> bool
        ensures { result ≡ not (slice_index self.now.lengths.now place == 0) }
    {
        item_or(self.lengths, place, 0) != 0
    }

    // The name that an output gives, if any.
    fn put(&mut self, output: Output<'_>)
        ensures names { table self.new ≡ with_name (table self.old) (output_meant output.entry) }
        ensures same { SameTable self.old self.new }
    {
        let Some(atom) = atom_named(output) else {
            return;
        };
        let place = atom as usize - 1;
        if !self.has_name(place) {
            put(self.places, place, output.at as u32);
            put(self.lengths, place, output.name.len() as u32);
        }
    }

    // The names that outputs give.
    fn fill(&mut self, statements: Statements<'_>)
        ensures names { table self.new ≡ with_names (table self.old) (statements_left statements.entry) }
        ensures same { SameTable self.old self.new }
    {
        for statement in statements {
            if let Statement::Output(output) = statement {
                self.put(output);
            }
        }
    }
}

// The names that outputs give, into lists where no atom has one yet. (A table made of two fields of `Lists` was tried: what
// these hold after it is not known.)
pub(crate) fn fill_names(statements: Statements<'_>, places: &mut [u32], lengths: &mut [u32])
    ensures places { places.new ≡ (with_names (both places.old lengths.old) (statements_left statements.entry)).starts }
    ensures lengths { lengths.new ≡ (with_names (both places.old lengths.old) (statements_left statements.entry)).lengths }
{
    let mut names = NameTable { places, lengths };
    names.fill(statements);
}
