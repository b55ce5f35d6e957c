//! Labels that are given twice.

ghost use Rattle.std.specs.Prelude.{◌≡◌, IfSome, None};
ghost use Rattle.schema_load.specs.Given.{AreNames};
ghost use Rattle.schema_load.specs.Requirements.{HasOne, IsFirst, IsTwice, NoneIs};

use crate::given::{Names, is_given_again};
use crate::part::Part;

/// The first part whose label is given twice. It is the first whose label is given at a later place, too.
pub fn find_twice(parts: &[Part], names: &Names) -> Option<usize>
    requires { AreNames parts.now names.now }
    ensures found { IfSome result (IsFirst (HasOne (IsTwice parts.now))) }
    ensures none { result ≡ None → NoneIs (HasOne (IsTwice parts.now)) }
{
    for place in 0..parts.len() {
        if is_given_again(names, &parts[place], place) {
            return Some(place);
        }
    }
    None
}
