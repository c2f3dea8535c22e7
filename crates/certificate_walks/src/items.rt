//! The source from which a walk takes its items.

ghost use Rattle.std.specs.Prelude.{◌≡◌, ℕ, List, IsTrue};
ghost use Rattle.io_edge.specs.Outside.{HasCause};
ghost use Rattle.certificate_walks.specs.Items.{Supply, Takes, counted};

/// The answer of a call that takes an item.
#[derive(Clone, Copy, Debug, PartialEq, Eq)]
pub enum ItemAnswer<T> {
    /// The first item. It was taken.
    Item(T),
    /// No item is left.
    End,
    /// The first item is bad. It was taken.
    Bad,
    /// The items could not be read. Their count of faults rose, and nothing was taken.
    Failed,
    /// No more may be read. Nothing was taken.
    Full,
}

/// A source of items.
pub trait Items {
    /// The type of an item that is not bad.
    type Item: Copy;

    /// What contracts know of the items at this moment.
    ghost supply: { Self → Supply Self.Item };

    /// Takes the first item. If the items were observable before, they are observable after.
    fn take(&mut self) -> ItemAnswer<Self::Item>
        ensures item { Takes result (supply self.old).left (supply self.new).left }
        ensures cause { HasCause (result ≡ ItemAnswer.Failed)
            (supply self.old).faults (supply self.new).faults }
        ensures full { result ≡ ItemAnswer.Full → IsTrue (supply self.new).full }
        ensures count { (supply self.new).count ≡ counted result (supply self.old).count }
        ensures lenders { (supply self.new).lenders ≡ (supply self.old).lenders }
        ensures known { (input : List ℕ) (before : ℕ) → (supply self.old).known input before
            → (supply self.new).known input before }
        ensures met { (supply self.new).met result };
}
