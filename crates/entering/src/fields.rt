// The number of an entry's view read as a view. No `From`: neither type is this crate's own, and any number is read (`view_of`).
ghost use Rattle.std.specs.Prelude.{◌≡◌};
ghost use Rattle.working.specs.Events.{view_of};

use working::View;

pub(crate) fn view_of(number: u8) -> View
    ensures { result ≡ view_of number }
{
    match number {
        1 => View::Clear,
        2 => View::Night,
        _ => View::Impaired,
    }
}
