// What a walk works with: the things to do, the pile of words, and the list of the accesses that were made.
#![tactic(auto)]

pub mod access;
pub mod item;
pub mod mode;
pub mod stack;

ghost use Rattle.std.specs.Prelude.{◌≡◌, ◌<◌, length, slice_set};
ghost use Rattle.x_meaning.specs.SourceRun as source;

use access::Listing;
use item::Item;
use stack::Stack;

// Room for all that a table of 1,024 rows ever has to do at a time, and for its words on the pile.
pub type Items = Stack<Item, 3072>;

pub type Pile = Stack<u32, 3072>;

// The things to do and the pile, each with its last first, and the access list.
#[derive(Drop)]
pub struct Work {
    pub items: Items,
    pub pile: Pile,
    pub listing: Listing,
}

// ---- the pile ----

pub fn top(pile: &Pile) -> u32
    ensures { result ≡ source.top pile.now }
{
    pile.last().unwrap_or(0)
}

// The top is taken off.
pub fn take(pile: &mut Pile) -> u32
    ensures top { result ≡ source.top pile.old }
    ensures rest { pile.new ≡ source.rest pile.old }
    ensures room { length pile.new < 3072 }
{
    pile.pop().unwrap_or(0)
}

// ---- words ----

// By a test: after a slice's `get_mut` a proof knows none of its elements.
pub fn set_word(words: &mut [u32], k: usize, w: u32)
    ensures { words.new ≡ slice_set words.old k w }
{
    if k < words.len() {
        words[k] = w;
    }
}
