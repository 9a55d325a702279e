//! Lists of terms with rising variables.

ghost use Rattle.std.specs.Prelude.{◌≡◌, ◌↔◌, IsTrue, [], ◌++◌, ◌<◌, ◌≤◌, pos, ◌+ℤ◌, length, replicate, take, drop, slice_set, OkIff};
ghost use Rattle.std.specs.Ordering.{int_eq};
ghost use Rattle.std.specs.Cmp.Lexicographic.{pointwise};
ghost use Rattle.smallvec.specs.SmallVec.{HasRoomFor};
ghost use Rattle.pc_rows.specs.Linear.{InRange, AllInRange, add_lists, scale_list, negate_list, zero_from, dot};
ghost use Rattle.pc_rows.specs.Points.{SumsFit};
ghost use Rattle.pc_rows.specs.Terms.{lookup, dense, Rises, term_of, least, front, past, before, after, AreTerms, TermsIff};
ghost use Rattle.pc_rows.specs.Merges.{MultipleFits};

use crate::number::{Number, Past};
use crate::row::VARIABLES;
use smallvec::SmallVec;
use std::alloc::Global;

/// A variable with its coefficient.
#[derive(Clone, Copy, Debug, Default, PartialEq, Eq)]
pub struct Term {
    pub variable: u32,
    pub coefficient: Number,
}

/// At most one term for each variable: it never spills, and so it never needs memory.
pub(crate) type Terms = SmallVec<Term, VARIABLES>;

/// No terms. It needs no memory.
pub(crate) fn no_terms(alloc: Global) -> Terms
    ensures terms { AreTerms result }
    ensures value { dense result.items ≡ replicate VARIABLES (pos 0) }
{
    SmallVec::new(alloc)
}

/// The same terms. It needs no memory, since they do not spill.
pub(crate) fn copied(terms: &Terms) -> Terms
    requires { AreTerms terms.now }
    ensures terms { AreTerms result }
    ensures value { result.items ≡ terms.now.items }
{
    SmallVec::from_slice(*terms.allocator(), terms.as_slice()).unwrap()
}

/// The coefficient at variable `v`.
pub(crate) fn lookup(terms: &[Term], v: u32) -> Number
    ensures { result ≡ lookup terms.now v }
{
    for t in terms {
        if t.variable == v {
            return t.coefficient;
        }
    }
    Number::new(0)
}

/// The terms with `c` as the coefficient at `v`. It needs no memory.
pub(crate) fn put(alloc: Global, terms: &[Term], v: u32, c: Number) -> Terms
    requires rises { Rises 0 terms.now }
    requires variable { v < VARIABLES }
    requires range { InRange c }
    ensures terms { AreTerms result }
    ensures value { dense result.items ≡ slice_set (dense terms.now) v c }
{
    let (low, high) = split(terms, v);
    let mut all = SmallVec::from_slice(alloc, low).unwrap();
    push_term(&mut all, v, c);
    all.extend_from_slice(past(high, v)).unwrap();
    all
}

/// The terms with a variable below `v`. It needs no memory.
pub(crate) fn first(alloc: Global, terms: &[Term], v: u32) -> Terms
    requires { Rises 0 terms.now }
    ensures terms { AreTerms result }
    ensures value { dense result.items ≡ zero_from v (dense terms.now) }
{
    let (low, _) = split(terms, v);
    SmallVec::from_slice(alloc, low).unwrap()
}

/// The terms with a variable below `v`, and the others.
fn split(terms: &[Term], v: u32) -> (&[Term], &[Term])
    ensures low { result.0.now ≡ before terms.entry.now v }
    ensures high { result.1.now ≡ after terms.entry.now v }
{
    terms.split_at(rank(terms, v))
}

/// How many terms have a variable below `v`.
fn rank(terms: &[Term], v: u32) -> usize
    ensures within { result ≤ length terms.now }
    ensures low { take result terms.now ≡ before terms.now v }
    ensures high { drop result terms.now ≡ after terms.now v }
{
    for (i, t) in terms.iter().enumerate() {
        if t.variable >= v {
            return i;
        }
    }
    terms.len()
}

/// The sum of two lists of terms. `Past` exactly where one of its coefficients is not in range.
pub(crate) fn sums(alloc: Global, a: &[Term], b: &[Term]) -> Result<Terms, Past>
    requires left { Rises 0 a.now }
    requires right { Rises 0 b.now }
    ensures { TermsIff result (AllInRange (add_lists (dense a.now) (dense b.now))) (add_lists (dense a.now) (dense b.now)) }
{
    plus_multiple(alloc, a, Number::new(1), b)
}

/// The difference. `Past` exactly where one of its coefficients is not in range.
pub(crate) fn differences(alloc: Global, a: &[Term], b: &[Term]) -> Result<Terms, Past>
    requires left { Rises 0 a.now }
    requires right { Rises 0 b.now }
    ensures { TermsIff result (AllInRange (add_lists (dense a.now) (negate_list (dense b.now)))) (add_lists (dense a.now) (negate_list (dense b.now))) }
{
    plus_multiple(alloc, a, Number::new(-1), b)
}

/// `k` times the terms. `Past` exactly where one of the products is not in range.
pub(crate) fn products(alloc: Global, k: Number, b: &[Term]) -> Result<Terms, Past>
    requires { Rises 0 b.now }
    ensures { TermsIff result (AllInRange (scale_list k (dense b.now))) (scale_list k (dense b.now)) }
{
    plus_multiple(alloc, &[], k, b)
}

/// The opposite of each coefficient. It is never `Past`, since the range is symmetric.
pub(crate) fn opposites(alloc: Global, b: &[Term]) -> Result<Terms, Past>
    requires { Rises 0 b.now }
    ensures { TermsIff result (AllInRange (negate_list (dense b.now))) (negate_list (dense b.now)) }
{
    products(alloc, Number::new(-1), b)
}

/// The terms of `a` plus `k` times those of `b`, by a merge. `Past` exactly where one of the
/// products or of the sums is not in range.
pub(crate) fn plus_multiple(alloc: Global, a: &[Term], k: Number, b: &[Term]) -> Result<Terms, Past>
    requires left { Rises 0 a.now }
    requires right { Rises 0 b.now }
    ensures { TermsIff result (MultipleFits (dense a.now) k (dense b.now)) (add_lists (dense a.now) (scale_list k (dense b.now))) }
{
    let mut sum = SmallVec::new(alloc);
    let mut left = a;
    let mut right = b;
    while !are_empty(left, right) {
        let v = least(left, right);
        let c = front(left, v).plus_product(k, front(right, v))?;
        push_term(&mut sum, v, c);
        left = past(left, v);
        right = past(right, v);
    }
    Ok(sum)
}

/// `start` plus the sum of the coefficients times the numbers at their variables, from the left.
/// `Past` exactly where a product or a sum so far is not in range.
pub(crate) fn sum_of_products(
    start: Number,
    terms: &[Term],
    xs: &[Number; VARIABLES],
) -> Result<Number, Past>
    requires rises { Rises 0 terms.now }
    requires range { InRange start }
    ensures { OkIff result (SumsFit start (dense terms.now) xs.now) (start +ℤ dot (dense terms.now) xs.now) }
{
    let mut sum = start;
    for t in terms {
        sum = sum.plus_product(t.coefficient, xs[t.variable as usize])?;
    }
    Ok(sum)
}

/// Whether two lists have the same coefficients.
pub(crate) fn are_same(a: &[Term], b: &[Term]) -> bool
    requires left { Rises 0 a.now }
    requires right { Rises 0 b.now }
    ensures { result ≡ pointwise int_eq (dense a.now) (dense b.now) }
{
    a == b
}

/// Adds a term at the end, where its coefficient is not 0.
fn push_term(terms: &mut Terms, variable: u32, coefficient: Number)
    requires { HasRoomFor terms.old 1 }
    ensures items { terms.new.items ≡ terms.old.items ++ term_of variable coefficient }
    ensures capacity { terms.new.capacity ≡ terms.old.capacity }
{
    if !coefficient.is_zero() {
        terms.push_reserved(Term {
            variable,
            coefficient,
        });
    }
}

/// Whether both lists are empty.
fn are_empty(a: &[Term], b: &[Term]) -> bool
    ensures { IsTrue result ↔ (a.now ≡ []) × (b.now ≡ []) }
{
    a.is_empty() && b.is_empty()
}

/// The lesser of the first variables.
fn least(a: &[Term], b: &[Term]) -> u32
    ensures { result ≡ least a.now b.now }
{
    match (a, b) {
        ([], []) => VARIABLES as u32,
        ([], [y, ..]) => y.variable,
        ([x, ..], []) => x.variable,
        ([x, ..], [y, ..]) => x.variable.min(y.variable),
    }
}

/// The coefficient of the first term, where it has the variable `v`.
fn front(terms: &[Term], v: u32) -> Number
    ensures { result ≡ front terms.now v }
{
    match terms.first() {
        Some(t) if t.variable == v => t.coefficient,
        _ => Number::new(0),
    }
}

/// The terms without the first, where it has the variable `v`.
fn past(terms: &[Term], v: u32) -> &[Term]
    ensures { result.now ≡ past terms.entry.now v }
{
    match terms.split_first() {
        Some((t, more)) if t.variable == v => more,
        _ => terms,
    }
}
