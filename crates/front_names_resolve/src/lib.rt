// Resolves the raw rows in place, and keeps the least complaint about the names in them.
#![tactic(auto)]

ghost use Rattle.std.specs.Prelude.{◌≡◌, ℕ, ◌-◌, ◌*◌, ◌<◌, ◌≤◌, List};
ghost use Rattle.std.proofs.lemmas.List.Edits.{sets};
ghost use Rattle.x_program.specs.Layout.{row_words};
ghost use Rattle.front_names_table.specs.Sorts.{number};
ghost use Rattle.front_names_table.specs.View.{meant, view, text_at, place_at};
ghost use Rattle.front_names_table.specs.Held.{held};
ghost use Rattle.x_names.specs.RowComplaints.{lesser_of};
ghost use Rattle.x_names.specs.ResolvedRows;
ghost use Rattle.x_names.specs.Complaints;
ghost use Rattle.front_names_resolve.specs.ResolvingWalk.{verdict, numbered, judged_by, walk, walked, scope_of};
ghost use Rattle.front_names_resolve.specs.ResolvingWalk as spec;

use front_names_table::{Meaning, Names, Sort, number};
use front_read_expressions::put;
use x_program::row;
use x_program::table::{Row, row_at};
use x_tokens::TokenArrays;
use x_tokens::refusal::{Reason, Refusal};

// The lesser of two: by place, then by number. No derived order: it would go by the reason first, and put none before any.
fn lesser(a: Option<Refusal>, b: Option<Refusal>) -> Option<Refusal>
    ensures { verdict result ≡ lesser_of (verdict a) (verdict b) }
{
    match (a, b) {
        (None, _) => b,
        (_, None) => a,
        (Some(x), Some(y)) => {
            if x.place < y.place {
                return a;
            }
            if x.place == y.place && u32::from(x.reason) <= u32::from(y.reason) {
                return a;
            }
            b
        }
    }
}

// What a name stands for, by sort.
fn sort_of(m: Meaning) -> Sort
    ensures { number result ≡ spec.sort_of (meant m) }
{
    match m {
        Meaning::Unknown => Sort::Undeclared,
        Meaning::Variable(_) => Sort::Var,
        Meaning::Array(_) => Sort::Array,
        Meaning::Constant(_) => Sort::Val,
    }
}

// The row that declares what a name stands for.
fn row_of(m: Meaning) -> u32
    ensures { result ≡ ResolvedRows.declared_row (meant m) }
{
    match m {
        Meaning::Variable(row) | Meaning::Array(row) => row,
        Meaning::Unknown | Meaning::Constant(_) => 0,
    }
}

// Not declared, or of the sort `wrong`.
#[tactic(auto, unfolding(crate::specs::ResolvingWalk::unless))]
fn unless(sort: Sort, wrong: Sort) -> Option<Reason>
    ensures { numbered result ≡ spec.unless (number sort) (number wrong) }
{
    if sort == Sort::Undeclared {
        Some(Reason::NotDeclared)
    } else if sort == wrong {
        Some(Reason::WrongKind)
    } else {
        None
    }
}

// Not declared, or not of the sort `right`.
#[tactic(auto, unfolding(crate::specs::ResolvingWalk::only))]
fn only(sort: Sort, right: Sort) -> Option<Reason>
    ensures { numbered result ≡ spec.only (number sort) (number right) }
{
    if sort == Sort::Undeclared {
        Some(Reason::NotDeclared)
    } else if sort == right {
        None
    } else {
        Some(Reason::WrongKind)
    }
}

// What a name of this sort deserves in a row of this kind.
#[tactic(auto, unfolding(crate::specs::ResolvingWalk::complaint))]
fn complaint(kind: u32, sort: Sort) -> Option<Reason>
    ensures { numbered result ≡ spec.complaint kind (number sort) }
{
    match kind {
        row::VARIABLE => unless(sort, Sort::Array),
        row::ASSIGN => only(sort, Sort::Var),
        row::ELEMENT | row::ASSIGN_ELEMENT => only(sort, Sort::Array),
        _ => None,
    }
}

// The same at a place.
#[tactic(auto, using(x_tokens::specs::TokenLaws::not_zero))]
fn complaint_at(reason: Option<Reason>, place: u32) -> Option<Refusal>
    ensures { verdict result ≡ judged_by (numbered reason) place }
{
    let reason = reason?;
    Some(Refusal { reason, place })
}

// The kinds whose field a is a name, but for a variable's.
fn names_one(kind: u32) -> bool
    ensures { result ≡ ResolvedRows.names_one kind }
{
    matches!(kind, row::ELEMENT | row::ASSIGN | row::ASSIGN_ELEMENT)
}

// Row r, which is `raw` and whose name stands for m, is resolved.
fn resolve_row(table: &mut [u32; 4096], r: usize, m: Meaning, raw: Row)
    requires { r < 1024 }
    ensures { table.new ≡ sets table.old (row_words * r) (spec.row_by raw.kind (meant m) raw.a raw.b raw.c) }
{
    if raw.kind == row::VARIABLE {
        if let Meaning::Constant(word) = m {
            put(table, r, row::NUMBER, word, 0, 0);
        } else {
            put(table, r, row::VARIABLE, row_of(m), 0, 0);
        }
    } else if names_one(raw.kind) {
        put(table, r, raw.kind, row_of(m), raw.b, raw.c);
    } else {
        put(table, r, raw.kind, raw.a, raw.b, raw.c);
    }
}

// Rows `first` up to `end` of the table are resolved; the least complaint about their names.
// Six parameters: what is read is lent apart from the table, which changes, and the rows' bounds come from two answers, `bind`'s and the reader's.
pub fn resolve(
    source: &[u8],
    tokens: TokenArrays,
    names: &Names<256>,
    table: &mut [u32; 4096],
    first: usize,
    end: usize,
) -> Option<Refusal>
    requires { end ≤ 1024 }
    ensures { (sizes : List ℕ) → walked table.new (verdict result)
        ≡ walk (text_at source.now tokens.entry.places.now tokens.entry.values.now) (place_at tokens.entry.places.now)
        (scope_of (view source.now (held names.now sizes) names.now.count))
        (end - first) table.old first Complaints.fine }
{
    let mut least = None;
    for r in first..end {
        let raw = row_at(table, r);
        let p = number(tokens.places, raw.a as usize);
        let n = number(tokens.values, raw.a as usize);
        let m = names.stands_for(source, p, n);
        least = lesser(least, complaint_at(complaint(raw.kind, sort_of(m)), p));
        resolve_row(table, r, m, raw);
    }
    least
}
