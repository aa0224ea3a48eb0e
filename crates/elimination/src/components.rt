// A component of the difference of two forms, gathered in lent bytes.
ghost use Rattle.terms.specs.Abstraction.{form_of};
ghost use Rattle.polynomials.specs.Memory.{summands};
ghost use Rattle.polynomials.specs.Expansion.{Expanded};
ghost use Rattle.elimination.specs.Differences.{expand_terms, FormExpandable, difference, Comparable, Compared};

use polynomials::expansion::expand_term;
use polynomials::passes::substitute;
use polynomials::sorting::sort;
use terms::types::Form;

// Writes the summands of a component of a form, times a sign, from `start` on; so many they are.
fn expand_form(work: &mut [u8], start: usize, f: Form, i: u8, sign: i64) -> usize
    requires { FormExpandable start f i sign (summands work.old) }
    ensures { Expanded start (expand_terms i sign (form_of f).terms) result (summands work.old) (summands work.new) }
{
    let mut n: usize = 0;
    for k in 0..f.count {
        n += expand_term(work, start + n, f.terms[k], i, sign);
    }
    n
}

// The summands of a component of the difference of two forms, gathered; so many are left. The digit 255 is no variable.
pub fn compare(work: &mut [u8], f: Form, g: Form, i: u8) -> usize
    requires { Comparable f g i (summands work.old) }
    ensures { Compared (difference i (form_of f) (form_of g)) result (summands work.old) (summands work.new) }
{
    let m = expand_form(work, 0, f, i, 1);
    let n = m + expand_form(work, m, g, i, -1);
    sort(work, n);
    substitute(work, n, 255, 1)
}
