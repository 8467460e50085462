//! Rules are read as they are written.

ghost use Rattle.std.specs.Prelude.{◌≡◌, Ok};
ghost use Rattle.vocabulary.specs.Ranges.{RuleFits};

use script::calls::Written;
use vocabulary::faults::Fault;
use vocabulary::rules::Rule;

/// A rule in range is the one that is read where its codes are written.
pub fn read_back(rule: Rule) -> Result<Rule, Fault>
    ensures { RuleFits rule → result ≡ Ok rule }
{
    let written = Written::try_from(rule)?;
    Rule::try_from(written)
}
