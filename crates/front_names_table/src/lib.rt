// The name table: what a name stands for, and a name more.
#![tactic(auto)]

ghost use Rattle.std.specs.Prelude.{◌≡◌, ℕ, suc, ◌+◌, ◌<◌, List, ◌∷◌, length, get_or, set};
ghost use Rattle.x_names.specs.Scope.{lookup, same};
ghost use Rattle.front_names_table.specs.View.{meant, bare, view, arrays, seen_by};
ghost use Rattle.front_names_table.specs.View as views;
ghost use Rattle.front_names_table.specs.Held.{held};
ghost use Rattle.front_names_table.specs.Sorts.{number};

use arm_word::entry_or;
use x_program::row;

// What a name stands for: a variable or an array by its row, a val by its word, or nothing that is declared.
#[derive(Clone, Copy)]
pub enum Meaning {
    Unknown,
    Variable(u32),
    Array(u32),
    Constant(u32),
}

// The sorts of names: see specs/Sorts.antt. What is declared has the number of its row's kind.
#[derive(Clone, Copy, PartialEq, Eq)]
pub enum Sort {
    Undeclared,
    Var,
    Array,
    Val,
}

// Its number: in a name table, and as the kind of the row that declares the name.
impl From<Sort> for u32 {
    ghost from_gives = { λ sort n. n ≡ number sort };

    fn from(sort: Sort) -> u32 {
        sort as u32
    }
}

// The first `count` names, each with the place and length of its bytes in the source, its row, its sort and its word.
// A sort may be any number: all but a variable's and an array's are read as a val's.
// Moved, not copied: of 256 names it has five KB.
#[derive(Drop)]
pub struct Names<const N: usize> {
    pub places: [u32; N],
    pub lengths: [u32; N],
    pub rows: [u32; N],
    pub sorts: [u32; N],
    pub words: [u32; N],
    pub count: usize,
}

// The n bytes of a source from p on, as far as there are.
pub fn text(source: &[u8], p: usize, n: usize) -> &[u8]
    ensures { result.now ≡ views.text source.now p n }
{
    let start = p.min(source.len());
    let end = start + n.min(source.len() - start);
    &source[start..end]
}

// Entry i of a token array, 0 past the last.
pub fn number(s: &[u32], i: usize) -> u32
    ensures { result ≡ get_or s.now i 0 }
{
    entry_or(s, i, 0)
}

// The name at k is the n bytes at p.
#[tactic(auto, using(x_spelling::specs::Runs::same_pointwise))]
fn named(source: &[u8], name_places: &[u32], name_lengths: &[u32], k: usize, p: u32, n: u32) -> bool
    ensures { result ≡ same (views.text source.now (get_or name_places.now k 0) (get_or name_lengths.now k 0))
        (views.text source.now p n) }
{
    let a = text(
        source,
        number(name_places, k) as usize,
        number(name_lengths, k) as usize,
    );
    let b = text(source, p as usize, n as usize);
    a == b
}

fn meaning_at(name_rows: &[u32], sorts: &[u32], words: &[u32], k: usize) -> Meaning
    ensures { result ≡ seen_by (get_or sorts.now k 0) (get_or name_rows.now k 0) (get_or words.now k 0) }
{
    match number(sorts, k) {
        row::VAR => Meaning::Variable(number(name_rows, k)),
        row::ARRAY => Meaning::Array(number(name_rows, k)),
        _ => Meaning::Constant(number(words, k)),
    }
}

// What the n bytes at p stand for among the first `count` names, the latest first. Five slices here and in `add`, and no record: each may be as
// long as it is, which a `Names` can't say, and docs/DEMANDS.md and docs/DECISIONS.md name the two so.
pub fn stands_for(
    source: &[u8],
    name_places: &[u32],
    name_lengths: &[u32],
    name_rows: &[u32],
    sorts: &[u32],
    words: &[u32],
    count: usize,
    p: u32,
    n: u32,
) -> Meaning
    ensures { (sizes : List ℕ) → meant result ≡ bare (lookup (view source.now
        (arrays name_places.now name_lengths.now name_rows.now sorts.now words.now sizes) count)
        (views.text source.now p n)) }
{
    for k in (0..count).rev() {
        if named(source, name_places, name_lengths, k, p, n) {
            return meaning_at(name_rows, sorts, words, k);
        }
    }
    Meaning::Unknown
}

// A name more, at k.
pub fn add(
    name_places: &mut [u32],
    name_lengths: &mut [u32],
    name_rows: &mut [u32],
    sorts: &mut [u32],
    words: &mut [u32],
    k: usize,
    p: u32,
    n: u32,
    row: u32,
    sort: u32,
    word: u32,
)
    requires { (k < length name_places.old) × ((k < length name_lengths.old) × ((k < length name_rows.old)
        × ((k < length sorts.old) × (k < length words.old)))) }
    ensures { (source sizes : List ℕ) (size : ℕ) → k < length sizes
        → view source (arrays name_places.new name_lengths.new name_rows.new sorts.new words.new (set sizes k size)) (suc k)
        ≡ record { name = views.text source p n; meaning = views.by_sort sort row word size }
        ∷ view source (arrays name_places.old name_lengths.old name_rows.old sorts.old words.old sizes) k }
{
    name_places[k] = p;
    name_lengths[k] = n;
    name_rows[k] = row;
    sorts[k] = sort;
    words[k] = word;
}

impl<const N: usize> Names<N> {
    // No names.
    pub fn new() -> Self
        ensures { result.count ≡ 0 }
    {
        Names {
            places: [0; N],
            lengths: [0; N],
            rows: [0; N],
            sorts: [0; N],
            words: [0; N],
            count: 0,
        }
    }

    // What the n bytes at p stand for, the latest name first.
    pub fn stands_for(&self, source: &[u8], p: u32, n: u32) -> Meaning
        ensures { (sizes : List ℕ) → meant result ≡ bare (lookup (view source.now (held self.now sizes) self.now.count)
            (views.text source.now p n)) }
    {
        stands_for(
            source,
            &self.places,
            &self.lengths,
            &self.rows,
            &self.sorts,
            &self.words,
            self.count,
            p,
            n,
        )
    }

    // A name more, of n bytes at p. Six parameters: an entry of each array, and no record that would be taken apart here at once.
    pub fn add(&mut self, p: u32, n: u32, row: u32, sort: u32, word: u32)
        requires { self.old.count < N }
        ensures count { self.new.count ≡ self.old.count + 1 }
        ensures name { (source sizes : List ℕ) (size : ℕ) → self.old.count < length sizes
            → view source (held self.new (set sizes self.old.count size)) (suc self.old.count)
            ≡ record { name = views.text source p n; meaning = views.by_sort sort row word size }
            ∷ view source (held self.old sizes) self.old.count }
    {
        let k = self.count;
        add(
            &mut self.places,
            &mut self.lengths,
            &mut self.rows,
            &mut self.sorts,
            &mut self.words,
            k,
            p,
            n,
            row,
            sort,
            word,
        );
        self.count = k + 1;
    }
}
