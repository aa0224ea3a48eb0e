// Steps in their order with their count, and their letters in byte order.
ghost use Rattle.std.specs.Prelude.{◌≡◌, length};
ghost use Rattle.terms.specs.Abstraction.{Counted};
ghost use Rattle.logs.specs.Steps.{at_step, StepsValid, StepsTested};

use refusal::Refusal;
use rules::admissible::test_step_letters;
use rules::steps::Step;
use terms::build::no_term;

// The steps of a log.
#[derive(Clone, Copy)]
pub struct Steps {
    pub count: usize,
    pub steps: [Step; 64],
}

// Why a log is refused, and at which step: 0 for the first form, one more than the number of steps for the last form.
#[derive(Clone, Copy)]
pub struct RefusedAt {
    pub why: Refusal,
    pub step: u8,
}

// An answer about one step of a log: a refusal gets the step.
pub fn at_step<T>(r: Result<T, Refusal>, step: u8) -> Result<T, RefusedAt>
    ensures { result ≡ at_step r step }
{
    match r {
        Ok(x) => Ok(x),
        Err(why) => Err(RefusedAt { why, step }),
    }
}

// A step that counts for nothing.
pub fn no_step() -> Step
    ensures { Counted result.m }
{
    let m = no_term();
    let letters = [0u8; 6];
    Step {
        rule: 0,
        letters,
        m,
    }
}

// No steps yet.
pub fn no_steps() -> Steps
    ensures { (result.count ≡ 0) × (length result.steps ≡ 64) }
{
    let none = no_step();
    let nones = [none; 64];
    Steps {
        count: 0,
        steps: nones,
    }
}

// The letters of all steps, in byte order.
pub fn test_steps(table: &[u8], q: Steps) -> Result<(), RefusedAt>
    requires { StepsValid q }
    ensures { StepsTested table.now q result }
{
    let n = q.count;
    for i in 0..n {
        at_step(test_step_letters(table, q.steps[i]), i as u8 + 1)?;
    }
    Ok(())
}
