//! The values that words give the options of a command.
ghost use Rattle.std.specs.Prelude.{◌≡◌, List, ℕ, Option, option_map};
ghost use Rattle.option_words.specs.Options.{value_at, values_of};

use std::marker::Model;

/// The value of each option of a command, in the order of the options. An option that is not given
/// has `None`.
#[derive(Drop)]
pub struct GivenOptions<'a> {
    values: Vec<Option<&'a str>>,
}

impl<'a> Model for GivenOptions<'a> {
    ghost Value = { List (Option (List ℕ)) };

    ghost view = { λ given. values_of given.values.items };
}

impl<'a> GivenOptions<'a> {
    pub(crate) fn new(values: Vec<Option<&'a str>>) -> Self
        ensures { result ≡ values_of values.entry.items }
    {
        GivenOptions { values }
    }

    /// The value of the option at this place. It is `None` if the option is not given, and past the
    /// last option.
    pub fn value(&self, index: usize) -> Option<&'a str>
        ensures { option_map (λ text. text.now) result ≡ value_at self.now index }
    {
        self.values.get(index).copied().flatten()
    }
}
