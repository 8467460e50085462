//! One question put to one book.

use crate::lines::Shown;
use anyhow::anyhow;
use book::book::Book;
use book::draft::Draft;
use book::pass::Pass;
use question::asked::Question;
use question::record::Record;
use vocabulary::basic::Directed;
use vocabulary::faults::Fault;
use vocabulary::numbers::Link;
use vocabulary::rules::Rule;

/// Enters the rules, until one is refused.
fn enter_all(draft: &mut Draft, rules: &[Rule]) -> Result<(), Fault> {
    for rule in rules {
        draft.enter(*rule)?;
    }
    Ok(())
}

/// Makes a book of family R and asks it for the rewritings, in so many places.
pub(crate) fn ask(
    rt: &(impl Print + AllocGlobal),
    rules: &[Rule],
    question: Question,
    places: usize,
) -> anyhow::Result<()> {
    // A book holds no tables of its own: they are lent to it.
    let mut entered = [Rule::Single(Directed::Forward(Link(0))); 256];
    let mut basic = [0; 256];
    let mut linked = [0; 64];
    let Ok(pass) = Pass::test(0, &entered, &basic, &linked) else {
        return Err(anyhow!("no draft can be opened"));
    };
    let mut draft = Draft::open(pass, &mut entered, &mut basic, &mut linked);
    enter_all(&mut draft, rules).map_err(|_| anyhow!("a rule is refused"))?;
    let book = draft.seal();
    answer(rt, &book, question, places)
}

/// Prints the count and the rewritings, or the fault and what the table holds then.
fn answer(
    rt: &(impl Print + AllocGlobal),
    book: &Book,
    question: Question,
    places: usize,
) -> anyhow::Result<()> {
    let record = match question.test() {
        Ok(record) => record,
        Err(fault) => {
            println!(rt; "fault {}", u8::from(fault))?;
            return Ok(());
        }
    };
    let mut table = vec![in rt.alloc(); record; places]?;
    match record.rewritings(book, &mut table) {
        Ok(count) => {
            println!(rt; "{count} rewritings in {places} places")?;
            print_sorted(rt, &table[..count])
        }
        Err(fault) => {
            println!(rt; "fault {} with {places} places", u8::from(fault))?;
            print_sorted(rt, &table)
        }
    }
}

/// Prints records as lines, sorted as text.
fn print_sorted(rt: &(impl Print + AllocGlobal), records: &[Record]) -> anyhow::Result<()> {
    let mut lines = Vec::new(rt.alloc());
    for record in records {
        lines.push(format!(in rt.alloc(); "{}", Shown(record))?)?;
    }
    lines.sort()?;
    for line in lines.iter() {
        println!(rt; "  {line}")?;
    }
    Ok(())
}
