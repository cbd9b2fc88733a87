// What a text holds, or the first fault from the left.
ghost use Rattle.std.specs.Prelude.{◌≡◌, ◌≤◌, true, length};
ghost use Rattle.reader.specs.Scan.{nothing, with_one, keeps, statements_from, counts_of};
ghost use Rattle.reader.specs.Seen.{meant};

use crate::cursor::Cursor;
use crate::pieces::Counts;
use crate::statement::Statement;
use aspif::error::TextError;

// What was read, with one statement more.
fn with_statement(counts: Counts, statement: Statement<'_>) -> Counts
    requires { keeps counts ≡ true }
    ensures { result ≡ with_one counts (meant statement.entry) }
{
    match statement {
        Statement::Rule(rule) => Counts {
            atoms: counts
                .atoms
                .max(rule.heads.greatest().max(rule.body.greatest())),
            rules: counts.rules + 1,
            integers: counts.integers + rule.size(),
            ..counts
        },
        Statement::Output(output) => Counts {
            atoms: counts.atoms.max(output.literals.greatest()),
            ..counts
        },
        Statement::Assumption(literals) => Counts {
            atoms: counts.atoms.max(literals.greatest()),
            assumed: counts.assumed + literals.len(),
            ..counts
        },
        Statement::Skipped { .. } => counts,
    }
}

impl Counts {
    // Whether all lines together are within the limits.
    fn is_kept(self) -> bool
        ensures { result ≡ keeps self }
    {
        self.rules <= 2048 && self.integers <= 16_384 && self.assumed <= 1024
    }
}

// All lines after the heading.
#[tactic(auto, using(crate::proofs::Turns::line_steps))]
pub(crate) fn survey(text: &[u8]) -> Result<Counts, TextError>
    requires { (10 ≤ length text.now) × (length text.now ≤ 65536) }
    ensures { result ≡ counts_of nothing (statements_from (length text.now) nothing text.now 10) }
{
    let mut counts = Counts::default();
    let mut cursor = Cursor { text, at: 10 };
    let mut line = cursor.at;
    while let Some(statement) = cursor.statement()? {
        let more = with_statement(counts, statement);
        if !more.is_kept() {
            return Err(TextError::OverLimit(line as u32));
        }
        counts = more;
        line = cursor.at;
    }
    if cursor.at != text.len() {
        return Err(TextError::Malformed(cursor.offset()));
    }
    Ok(counts)
}
