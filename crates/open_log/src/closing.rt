// Whether the last form is the one reached.
ghost use Rattle.std.specs.Prelude.{◌≡◌};
ghost use Rattle.specification.specs.Logs.{same_form};
ghost use Rattle.terms.specs.Abstraction.{form_of};
ghost use Rattle.terms.specs.Valid.{FormValid};

use replaying::same_form;
use rows::hold;
use terms::types::Form;

// Whether a form is the one reached, by the replay's own comparison.
pub fn is_reached(last: Form, reached: Form) -> bool
    requires { FormValid last × FormValid reached }
    ensures { result ≡ same_form (form_of last) (form_of reached) }
{
    let z = [0u32; 8];
    let mut rows = [z; 48];
    let mut coefs = [0i64; 48];
    hold(reached, &mut rows, &mut coefs);
    same_form(last, reached.kind, &rows, &coefs, reached.count)
}
