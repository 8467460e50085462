//! The rewritings that one step makes of a question, put into a table.

ghost use Rattle.std.specs.Prelude.{◌≡◌};
ghost use Rattle.question.specs.Growth.{ByAtoms, ByPairs, Next, Taken};
ghost use Rattle.question.specs.Parts.{of_parts};
ghost use Rattle.theory.specs.Tidying.{tidy};

use crate::parts::Parts;
use crate::record::Record;
use crate::ruling::becomes;
use distinct::Distinct;
use vocabulary::faults::Fault;
use vocabulary::rules::Rule;

// Table, rules and question stay three parameters: each loop would take a struct of them apart again.

/// Puts the tidy question in, unless it stands there.
pub(crate) fn put(table: &mut Distinct<Record>, question: Parts) -> Result<(), Fault>
    ensures { Taken (λ x. x ≡ tidy (of_parts question)) table.old table.new result }
{
    table
        .put(Record::from(question.tidied()))
        .map_err(|_| Fault::Rewritings)?;
    Ok(())
}

/// Puts in what the rules make of any atom.
fn put_ruled(table: &mut Distinct<Record>, rules: &[Rule], question: &Parts) -> Result<(), Fault>
    ensures { Taken (ByAtoms rules.now (of_parts question.now)) table.old table.new result }
{
    for (i, a) in question.atoms.all().iter().enumerate() {
        for rule in rules {
            if let Some(made) = becomes(*rule, *a) {
                put(table, question.replaced(i, made))?;
            }
        }
    }
    Ok(())
}

/// Puts in the question with any two atoms merged.
fn put_merged(table: &mut Distinct<Record>, question: &Parts) -> Result<(), Fault>
    ensures { Taken (ByPairs (of_parts question.now)) table.old table.new result }
{
    let n = question.atoms.len();
    // Both places are needed to merge, and no atom is read here.
    for i in 0..n {
        for j in i + 1..n {
            if let Some(made) = question.merged(i, j) {
                put(table, made)?;
            }
        }
    }
    Ok(())
}

/// Puts in all that one step makes of the question.
pub(crate) fn put_next(
    table: &mut Distinct<Record>,
    rules: &[Rule],
    question: &Parts,
) -> Result<(), Fault>
    ensures { Taken (Next rules.now (of_parts question.now)) table.old table.new result }
{
    put_ruled(table, rules, question)?;
    put_merged(table, question)
}
