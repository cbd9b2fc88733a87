// What statements hold, put into the lists of the caller.
// A pen's call is public and asks nothing of its caller, so it can refuse; that it never does so here is said by `done`.
ghost use Rattle.std.specs.Prelude.{◌≡◌, ◌≤◌, length, Ok};
ghost use Rattle.std.proofs.lemmas.List.Edits.{sets};
ghost use Rattle.reader.specs.Statements.{assumed_in};
ghost use Rattle.reader.specs.Fill.{integers_in, parts_in, starts_in};
ghost use Rattle.reader.specs.Seen.{statements_left};

use crate::puts::{put_numbers, put_rule};
use crate::statement::Statement;
use crate::statements::Statements;
use base::pen::Pen;
use base::short::TooShort;

// The integers of all rules, and where each rule starts among them, from the fronts of two lists on.
pub(crate) fn fill_rules(
    statements: Statements<'_>,
    integers: &mut [i32],
    starts: &mut [u32],
) -> Result<(), TooShort>
    requires integers { length (parts_in integers_in (statements_left statements)) ≤ length integers.old }
    requires starts { length (starts_in 0 (statements_left statements)) ≤ length starts.old }
    requires few { length (parts_in integers_in (statements_left statements)) ≤ 16384 }
    ensures done { result ≡ Ok tt }
    ensures integers { integers.new ≡ sets integers.old 0 (parts_in integers_in (statements_left statements.entry)) }
    ensures starts { starts.new ≡ sets starts.old 0 (starts_in 0 (statements_left statements.entry)) }
{
    let mut integers = Pen {
        out: integers,
        at: 0,
    };
    let mut starts = Pen { out: starts, at: 0 };
    for statement in statements {
        if let Statement::Rule(rule) = statement {
            starts.put_all(&[integers.at as u32])?;
            put_rule(&mut integers, rule)?;
        }
    }
    Ok(())
}

// The assumed literals, from the front of a list on.
pub(crate) fn fill_assumed(statements: Statements<'_>, out: &mut [i32]) -> Result<(), TooShort>
    requires room { length (parts_in assumed_in (statements_left statements)) ≤ length out.old }
    ensures done { result ≡ Ok tt }
    ensures list { out.new ≡ sets out.old 0 (parts_in assumed_in (statements_left statements.entry)) }
{
    let mut pen = Pen { out, at: 0 };
    for statement in statements {
        if let Statement::Assumption(literals) = statement {
            put_numbers(&mut pen, literals)?;
        }
    }
    Ok(())
}
