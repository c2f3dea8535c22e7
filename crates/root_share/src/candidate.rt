//! The children that workers return.

ghost use Rattle.std.specs.Prelude.{◌≡◌};
ghost use Rattle.root_share.specs.Answer.{first_of};

/// A child whose value was found.
#[derive(Clone, Copy, PartialEq, Eq, Debug)]
pub struct Candidate {
    pub child: u32,
    pub value: i32,
}

/// The one with the greater value, and the first if the values are equal.
pub fn better(one: Option<Candidate>, other: Option<Candidate>) -> Option<Candidate>
    ensures { result ≡ first_of one other }
{
    match (one, other) {
        (None, _) => other,
        (_, None) => one,
        (Some(a), Some(b)) => {
            if a.value > b.value || (a.value == b.value && a.child <= b.child) {
                one
            } else {
                other
            }
        }
    }
}
