// The line of a step.
ghost use Rattle.std.specs.Prelude.{◌≡◌};
ghost use Rattle.formulas.specs.Readings.{Named};
ghost use Rattle.log_texts.specs.Steps.{RuleRead, StepLineRead};

use crate::kinds::read_multiplier;
use crate::naming::{read_letters, read_mark, to_formula};
use refusal::Refusal;
use rules::steps::{Step, rule_letters};
use texts::{Unread, behind, byte_at, past_blanks};

// The number of a rule, and the position behind its colon.
#[derive(Clone, Copy)]
pub struct Rule {
    pub at: usize,
    pub rule: u8,
}

// `rule 2:`: the number is one digit, 1 to 5.
fn read_rule(line: &[u8]) -> Result<Rule, Unread>
    ensures { RuleRead line.now result }
{
    let word = past_blanks(line, 0);
    let at = past_blanks(line, word + 4);
    let b = byte_at(line, at);
    if b < b'1' || b > b'5' {
        return Err(Unread {
            why: Refusal::Torn,
            column: at,
        });
    }
    let next = behind(line, at);
    let colon = read_mark(b':', line, next)?;
    Ok(Rule {
        at: colon,
        rule: b - 48,
    })
}

// `rule 2: a b c d, M = 1`.
pub fn read_step_line(names: &[u8], table: &[u8], line: &[u8]) -> Result<Step, Unread>
    requires { Named names.now table.now }
    ensures { StepLineRead names.now table.now line.now result }
{
    let a = read_rule(line)?;
    let n = rule_letters(a.rule);
    let l = read_letters(names, line, a.at, n)?;
    let at = to_formula(line, l.at)?;
    let m = read_multiplier(names, table, line, at)?;
    let letters = l.letters;
    Ok(Step {
        rule: a.rule,
        letters,
        m,
    })
}
