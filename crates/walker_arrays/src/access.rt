// The access list in the lent buffer. See specs/AccessEntries.antt.
ghost use Rattle.std.specs.Prelude.{◌≡◌, ℕ, ◌%◌, List, [], ◌∷◌, ◌++◌};
ghost use Rattle.arm_word.specs.Access as list;
ghost use Rattle.walker_arrays.specs.AccessEntries.{op_of};
ghost use Rattle.walker_arrays.specs.AccessEntryLaws.{entered};
ghost use Rattle.walker_arrays.specs.WorkingArrays as working;
ghost use Rattle.walker_arrays.specs.WorkingArrays.{kind_of, made};

// The words of an entry.
const WORDS: usize = 4;

// What an entry's first word says.
#[derive(Clone, Copy)]
pub enum Kind {
    Load = 1,
    Store = 2,
}

// Of a word of data, by its offset: the word before and after.
#[derive(Clone, Copy)]
pub struct Access {
    pub kind: Kind,
    pub offset: usize,
    pub old: u32,
    pub new: u32,
}

// The number of the access that the buffer begins with, and how many were made.
#[derive(Clone, Copy)]
pub struct Listing {
    pub first: u64,
    pub total: u64,
}

// Entry n of the buffer, if it has one.
fn write_entry(accesses: &mut [u32], n: u64, a: Access)
    ensures { accesses.new ≡ entered accesses.old n (op_of (kind_of a.kind) ∷ a.offset % 4294967296 ∷ a.old ∷ a.new ∷ []) }
{
    if n < (accesses.len() / WORDS) as u64 {
        let at = WORDS * (n as usize);
        accesses[at] = a.kind as u32;
        accesses[at + 1] = (a.offset % 0x1_0000_0000) as u32;
        accesses[at + 2] = a.old;
        accesses[at + 3] = a.new;
    }
}

impl Listing {
    // One access more: it is written where the buffer has room for it.
    pub fn list(&mut self, accesses: &mut [u32], a: Access)
        ensures listed { (before : List ℕ) (l : List list.Access)
            → (working.Small l → working.Listed self.old.first before accesses.old self.old.total l)
            → working.Small (l ++ made a ∷ []) → working.Listed self.old.first before accesses.new self.new.total (l ++ made a ∷ []) }
        ensures same_first { self.new.first ≡ self.old.first }
    {
        if self.first <= self.total {
            write_entry(accesses, self.total - self.first, a);
        }
        self.total = self.total.wrapping_add(1);
    }
}
