//! A script: its lines, and the drafts, books and stores that its calls make.
//!
//! Drafts, books and stores borrow their tables, so each stands within a function that goes through the lines of a section.
//! A section ends where a draft is opened or sealed or a store is made; one function serves all sections.

ghost use Rattle.facts.specs.Passes.{ListPlaces};
ghost use Rattle.script.specs.declared.offer.Offer.TheVariants as offers;
ghost use Rattle.script.specs.Makings.{BitNames};
ghost use Rattle.script.specs.Offers.{KeepsOffer, Offered};
ghost use Rattle.script.specs.Sections.{GoesTo, Kept};
ghost use Rattle.std.specs.Prelude.{◌≡◌, IfOk};
ghost use Rattle.std.specs.Slice.Iter.{iter_rest};

use crate::calls::{Call, Making};
use crate::closure::Closure;
use crate::offer::Offer;
use crate::opening::Opening;
use crate::report::{Answer, Line, Refusal, Report};
use crate::rules::{NoDraft, Rules};
use crate::session::Session;
use crate::shelf::{Held, NoStore, Shelf};
use crate::stock::{Stock, bytes, listed, places};
use bitstore::pass::BitPass;
use bitstore::store::BitStore;
use book::draft::Draft;
use facts::list::ListStore;
use facts::pass::ListPass;
use facts::source::Store;
use std::alloc::{AllocError, Global};

/// Answers the calls of a script, of those on offer.
pub fn run(heap: Global, text: &str, offer: Offer) -> Result<Report, AllocError>
    ensures { IfOk result (λ report. report.offer ≡ offer) }
{
    let lines = calls_in(heap, text)?;
    let mut session = Session {
        heap,
        lines: lines.iter(),
        stock: None,
        report: Report::new(heap, offer),
    };
    let mut stop = session.over(&mut NoDraft)?;
    while let Some(Stop::Family(opening)) = stop {
        stop = session.opened(opening)?;
    }
    Ok(session.report)
}

/// The lines that hold a call.
fn calls_in<'a>(heap: Global, text: &'a str) -> Result<Vec<Line<'a>>, AllocError> {
    text.lines()
        .enumerate()
        .map(|(i, line)| Line {
            number: i + 1,
            call: without_comment(line).trim(),
        })
        .filter(|line| !line.call.is_empty())
        .collect(heap)
}

fn without_comment(line: &str) -> &str {
    match line.split_once('#') {
        Some((call, _)) => call,
        None => line,
    }
}

/// What ends a section.
#[derive(Drop)]
pub(crate) enum Stop<'a> {
    /// A draft is opened.
    Family(Opening),
    /// This line seals the draft.
    Seal(Line<'a>),
    /// A store is made.
    Store(Stock),
}

impl<'a> Session<'a> {
    /// Opens a draft, and answers the lines for which it or its book stands.
    fn opened(&mut self, opening: Opening) -> Result<Option<Stop<'a>>, AllocError>
        ensures goes { GoesTo self.old self.new result }
        ensures offer { KeepsOffer self.old self.new result }
    {
        let Opening {
            pass,
            mut rules,
            mut basic,
            mut links,
        } = opening;
        let mut draft = Draft::open(pass, &mut rules, &mut basic, &mut links);
        let stop = self.over(&mut draft)?;
        let Some(Stop::Seal(line)) = stop else {
            return Ok(stop);
        };
        let mut book = draft.seal();
        self.report.answer(line, &Closure(book))?;
        self.over(&mut book)
    }

    /// Answers the lines for which these rules stand, over one store after another.
    fn over<R: Rules>(&mut self, rules: &mut R) -> Result<Option<Stop<'a>>, AllocError>
        ensures goes { GoesTo self.old self.new result }
        ensures offer { KeepsOffer self.old self.new result }
    {
        let mut stop = self.stocked(rules)?;
        while let Some(Stop::Store(stock)) = stop {
            self.stock = Some(stock);
            stop = self.stocked(rules)?;
        }
        Ok(stop)
    }

    /// Answers the lines of a section over the store that was made last, if one was, which is made anew.
    fn stocked<R: Rules>(&mut self, rules: &mut R) -> Result<Option<Stop<'a>>, AllocError>
        ensures goes { GoesTo self.old self.new result }
        ensures offer { KeepsOffer self.old self.new result }
    {
        let Some(stock) = self.stock.take() else {
            return self.section(rules, &mut NoStore);
        };
        match stock.making {
            Making::List(count) => self.over_list(rules, count, stock),
            Making::Bits(names) => self.over_bits(rules, names, stock),
        }
    }

    // Each make has a function of its own, since a function pays at entry for its locals, and a bit store is a large one.
    /// Answers the lines of a section over a list store.
    fn over_list<R: Rules>(
        &mut self,
        rules: &mut R,
        count: usize,
        stock: Stock,
    ) -> Result<Option<Stop<'a>>, AllocError>
        requires { (self.old.report.offer ≡ offers.Facts) × ListPlaces count }
        ensures goes { GoesTo self.old self.new result }
        ensures offer { KeepsOffer self.old self.new result }
    {
        let mut table = places(self.heap, count)?;
        let pass = ListPass::test(&table).unwrap();
        let mut held = Held {
            store: ListStore::new(pass, &mut table),
        };
        self.stored(rules, &mut held, stock)
    }

    /// Answers the lines of a section over a bit store.
    fn over_bits<R: Rules>(
        &mut self,
        rules: &mut R,
        names: usize,
        stock: Stock,
    ) -> Result<Option<Stop<'a>>, AllocError>
        requires { (self.old.report.offer ≡ offers.Facts) × BitNames names }
        ensures goes { GoesTo self.old self.new result }
        ensures offer { KeepsOffer self.old self.new result }
    {
        let mut table = bytes(self.heap, names)?;
        let pass = BitPass::test(names, &table).unwrap();
        let mut held = Held {
            store: BitStore::new(pass, &mut table),
        };
        self.stored(rules, &mut held, stock)
    }

    /// Answers the lines of a section over a store, and keeps what it then lists.
    fn stored<R: Rules, S: Store>(
        &mut self,
        rules: &mut R,
        held: &mut Held<S>,
        mut stock: Stock,
    ) -> Result<Option<Stop<'a>>, AllocError>
        requires { self.old.report.offer ≡ offers.Facts }
        ensures goes { GoesTo self.old self.new result }
        ensures offer { KeepsOffer self.old self.new result }
        ensures kept { IfOk result (λ _. Kept (S.Source.facts held.new.store) self.new.stock) }
    {
        stock.restore(&mut held.store);
        let stop = self.section(rules, held)?;
        stock.facts = listed(self.heap, &held.store)?;
        self.stock = Some(stock);
        Ok(stop)
    }

    /// Answers the lines of a section.
    fn section<R: Rules, F: Shelf>(
        &mut self,
        rules: &mut R,
        shelf: &mut F,
    ) -> Result<Option<Stop<'a>>, AllocError>
        ensures goes { GoesTo self.old self.new result }
        ensures offer { KeepsOffer self.old self.new result }
    {
        while let Some(line) = self.lines.next() {
            match self.answer(*line, rules, shelf) {
                Ok(None) => {}
                Ok(Some(stop)) => return Ok(Some(stop)),
                Err(refusal) => self.report.refuse(*line, refusal)?,
            }
        }
        Ok(None)
    }

    /// Answers a line, unless it ends the section.
    fn answer<R: Rules, F: Shelf>(
        &mut self,
        line: Line<'a>,
        rules: &mut R,
        shelf: &mut F,
    ) -> Result<Option<Stop<'a>>, Refusal>
        ensures lines { iter_rest self.new.lines ≡ iter_rest self.old.lines }
        ensures offer { KeepsOffer self.old self.new result }
    {
        let call = Call::read(line.call, self.report.offer)?;
        self.called(line, call, rules, shelf)
    }

    /// Answers a call on offer, unless it ends the section.
    fn called<R: Rules, F: Shelf>(
        &mut self,
        line: Line<'a>,
        call: Call,
        rules: &mut R,
        shelf: &mut F,
    ) -> Result<Option<Stop<'a>>, Refusal>
        requires { Offered self.old.report.offer call }
        ensures lines { iter_rest self.new.lines ≡ iter_rest self.old.lines }
        ensures offer { KeepsOffer self.old self.new result }
    {
        let answer = match call {
            Call::Family(code) => {
                let opening = Opening::of(self.heap, code)?;
                self.report.answer(line, &Answer::Done)?;
                return Ok(Some(Stop::Family(opening)));
            }
            Call::Seal => {
                rules.can_seal()?;
                return Ok(Some(Stop::Seal(line)));
            }
            Call::Store(making) => {
                let stock = Stock::of(self.heap, making)?;
                self.report.answer(line, &Answer::Done)?;
                return Ok(Some(Stop::Store(stock)));
            }
            Call::Rule(rule) => rules.enter(rule)?,
            Call::Follows(rule) => rules.follows(rule)?,
            Call::Enter(fact) => shelf.enter(fact)?,
            Call::Withdraw(fact) => shelf.withdraw(fact)?,
            Call::List => shelf.list(self.heap)?,
        };
        self.report.answer(line, &answer)?;
        Ok(None)
    }
}
