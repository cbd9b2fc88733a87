// Standing rules and the facts of the day as one program text.
ghost use Rattle.std.specs.Prelude.{◌≡◌, length};
ghost use Rattle.report.specs.Compose.{compose_answer, compose_into};

use crate::fault::Fault;
use aspif::writer::write;
use book::facts::{FactBook, check_facts};
use book::joined::JoinedBook;
use numbers::lists::RuleLists;
use numbers::numbers::NumbersBook;

// Checks both lists, joins the books made of them and writes the text; answers how many bytes it has.
pub fn compose(rules: RuleLists<'_>, facts: &[u32], out: &mut [u8]) -> Result<usize, Fault>
    ensures result { result ≡ compose_answer rules.entry facts.now (length out.old) }
    ensures buffer { out.new ≡ compose_into rules.entry facts.now out.old }
{
    rules.check()?;
    check_facts(rules.atoms, facts)?;
    let book = JoinedBook {
        first: NumbersBook::new(rules),
        second: FactBook::new(rules.atoms, facts),
    };
    Ok(write(&book, out)?)
}
