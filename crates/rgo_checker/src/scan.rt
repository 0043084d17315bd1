//! What is known after a walk over lines: the least rule that they break, and the first line that breaks it.

ghost use Rattle.std.specs.Prelude.{◌≡◌, Bool, nat_lt, ◌&&◌, not};
ghost use Rattle.rgo_code.specs.Checked.{rule_number};
ghost use Rattle.rgo_checker.specs.Scan.{past_next_line};
ghost use Rattle.rgo_checker.specs.Tests.{broken_if};

use rgo_code::{CodeRefusal, Rule};

/// The state of a walk. A rule that was broken at an earlier line, and the rules above it, need no second look.
#[derive(Clone, Copy, Debug, PartialEq, Eq)]
pub(crate) struct Scan {
    /// The number of the next line. After a line with the greatest number of 32 bits it is that number again.
    pub line: u32,
    /// The rules with numbers below it were kept so far.
    pub limit: u8,
    pub broken: Option<CodeRefusal>,
}

/// Notes what the next line breaks.
pub(crate) fn pass(scan: &mut Scan, broken: Option<Rule>)
    ensures { scan.new ≡ past_next_line scan.old broken }
{
    let line = scan.line;
    match broken {
        Some(rule) => {
            scan.limit = rule.number();
            scan.broken = Some(CodeRefusal { rule, line });
        }
        None => {}
    }
    // Each line has a number of 32 bits, as the lines were counted before; what follows the last one may have none.
    scan.line = line.saturating_add(1);
}

/// The rule, if it is below the limit and not kept.
pub(crate) fn broken_if(limit: u8, rule: Rule, kept: bool) -> Option<Rule>
    ensures { result ≡ broken_if limit rule kept }
{
    if rule.number() < limit && !kept {
        Some(rule)
    } else {
        None
    }
}
