//! The signals that an expression names.
ghost use Rattle.std.specs.Prelude.{◌≡◌};
ghost use Rattle.const_eval.specs.Nodes.{term_of};
ghost use Rattle.const_eval.specs.Binding.{first_signal as first_signal_of, signal_in, or_later};

use crate::bound::{Node, Typed};
use crate::{Bound, ITEM, Meaning};

/// The place of the first signal that the expression names, in reading order. `item` counts as one where `with_item` says
/// so. It takes no memory.
pub fn first_signal(bound: &Bound, with_item: bool) -> Option<u32>
    ensures { result ≡ first_signal_of with_item bound.now }
{
    bound.typed.get().first_signal(with_item)
}

/// The place, where a name at it stands for a signal.
fn place_of_signal(meaning: &Meaning, at: u32, with_item: bool) -> Option<u32>
    ensures { result ≡ signal_in with_item meaning.now at }
{
    match meaning {
        Meaning::Const { .. } => None,
        Meaning::Signal { index, .. } => {
            if *index == ITEM && !with_item {
                None
            } else {
                Some(at)
            }
        }
    }
}

/// The first of the two that is there.
fn earlier(first: Option<u32>, later: Option<u32>) -> Option<u32>
    ensures { result ≡ or_later first later }
{
    match first {
        Some(at) => Some(at),
        None => later,
    }
}

impl Typed {
    /// The place of the first signal that it names.
    fn first_signal(&self, with_item: bool) -> Option<u32>
        ensures { result ≡ first_signal_of with_item (term_of self.now) }
    {
        match &self.node {
            Node::Number { .. } => None,
            Node::Name { meaning, at } => place_of_signal(meaning, *at, with_item),
            Node::Part { meaning, at, .. } => place_of_signal(meaning, *at, with_item),
            Node::Alone(inner) | Node::Unary(_, inner) => inner.first_signal(with_item),
            Node::Joined(left, right) | Node::Binary(_, left, right) => earlier(
                left.first_signal(with_item),
                right.first_signal(with_item),
            ),
            Node::Cond(test, first, second) => {
                let sides = earlier(
                    first.first_signal(with_item),
                    second.first_signal(with_item),
                );
                earlier(test.first_signal(with_item), sides)
            }
        }
    }
}
