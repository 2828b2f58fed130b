// What a specification deserves, and what it declares: the judging part of filling the name table.
#![tactic(auto)]

ghost use Rattle.std.specs.Prelude.{◌≡◌, ◌++◌};
ghost use Rattle.x_tokens.specs.Refusals as refusals;
ghost use Rattle.x_names.specs.Complaints.{is_known, bad_length, when};
ghost use Rattle.x_names.specs.FirstComplaint.{first};
ghost use Rattle.front_names_table.specs.View.{meant};
ghost use Rattle.front_names_judge.specs.Judge as judging;
ghost use Rattle.front_names_judge.specs.Judge.{verdict_of, read_as, listed, over, constant_by, complaints_by, item_of};

use front_names_table::{Meaning, Sort};
use x_spelling::kind;
use x_tokens::refusal::{Reason, Refusal};

// What a specification enters into the name table, and how many rows and words it declares.
#[derive(Clone, Copy)]
pub struct Item {
    pub sort: Sort,
    pub row: u32,
    pub word: u32,
    pub size: u32,
    pub rows: usize,
    pub words: u32,
}

fn known(m: Meaning) -> bool
    ensures { result ≡ is_known (meant m) }
{
    !matches!(m, Meaning::Unknown)
}

fn full(names: usize, words: u32, more: u32) -> bool
    ensures { result ≡ over names words more }
{
    255 < names || 8192 < words as u64 + more as u64
}

fn bad_length(n: u32) -> bool
    ensures { result ≡ bad_length n }
{
    !(1..=8192).contains(&n)
}

// What a name that declares `more` words deserves.
fn new_name(m: Meaning, names: usize, words: u32, more: u32, place: u32) -> Result<(), Refusal>
    ensures { verdict_of result ≡ first (listed place (when (is_known (meant m)) refusals.declared_twice ++ when (over names words more) refusals.too_much)) }
{
    if known(m) {
        return Err(Refusal {
            reason: Reason::DeclaredTwice,
            place,
        });
    }
    if full(names, words, more) {
        return Err(Refusal {
            reason: Reason::TooMuch,
            place,
        });
    }
    Ok(())
}

// What an array of that length deserves.
fn new_array(m: Meaning, names: usize, words: u32, length: u32, place: u32) -> Result<(), Refusal>
    ensures { verdict_of result ≡ first (listed place (when (is_known (meant m)) refusals.declared_twice
        ++ (when (bad_length length) refusals.bad_length ++ when (over names words length) refusals.too_much))) }
{
    if known(m) {
        return Err(Refusal {
            reason: Reason::DeclaredTwice,
            place,
        });
    }
    if bad_length(length) {
        return Err(Refusal {
            reason: Reason::BadLength,
            place,
        });
    }
    if full(names, words, length) {
        return Err(Refusal {
            reason: Reason::TooMuch,
            place,
        });
    }
    Ok(())
}

// The word of a constant whose name stands for m, or why it has none.
pub fn constant_of(m: Meaning) -> Result<u32, Reason>
    ensures { read_as result ≡ constant_by (meant m) }
{
    match m {
        Meaning::Unknown => Err(Reason::NotDeclared),
        Meaning::Variable(_) | Meaning::Array(_) => Err(Reason::WrongKind),
        Meaning::Constant(word) => Ok(word),
    }
}

// What a specification of kind k deserves: m is what its name stands for already, p the name's place, q that of its constant, c.
// Seven parameters: its one caller has each from elsewhere (tokens, name table, counts so far), and a record of them would be taken apart here at once.
pub fn judge(
    k: u8,
    m: Meaning,
    c: Result<u32, Reason>,
    names: usize,
    words: u32,
    p: u32,
    q: u32,
) -> Result<(), Refusal>
    ensures { verdict_of result ≡ first (complaints_by k (meant m) (read_as c).status (read_as c).word names words p q) }
{
    if k == kind::VAR {
        return new_name(m, names, words, 1, p);
    }
    match c {
        Ok(word) => {
            if k == kind::ARRAY {
                new_array(m, names, words, word, p)
            } else {
                new_name(m, names, words, 0, p)
            }
        }
        Err(reason) => {
            new_name(m, names, words, 0, p)?;
            Err(Refusal { reason, place: q })
        }
    }
}

#[tactic(auto, unfolding(crate::specs::Judge::item_of))]
pub fn item_of(k: u8, word: u32, rows: u32, words: u32) -> Item
    ensures { result ≡ item_of k word rows words }
{
    match k {
        kind::VAR => Item {
            sort: Sort::Var,
            row: rows,
            word: words,
            size: 1,
            rows: 1,
            words: 1,
        },
        kind::ARRAY => Item {
            sort: Sort::Array,
            row: rows,
            word: words,
            size: word,
            rows: 1,
            words: word,
        },
        _ => Item {
            sort: Sort::Val,
            row: 0,
            word,
            size: 0,
            rows: 0,
            words: 0,
        },
    }
}

pub fn width(k: u8) -> usize
    ensures { result ≡ judging.width k }
{
    match k {
        kind::VAR => 3,
        kind::ARRAY => 6,
        _ => 5,
    }
}
