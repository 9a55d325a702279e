//! The first statement that makes a program other than straight, and its first open end.

ghost use Rattle.std.specs.Prelude.{◌≡◌};
ghost use Rattle.pc_program.specs.Loops.{first};
ghost use Rattle.pc_breach.specs.Sought.{open_end, in_choice, in_place, in_test, places, places_of, bends, open_ends};

use pc_language::{Bound, Choice};
use pc_program::{Program, Stmt, Test};
use pc_text::Place;

/// What is sought in a program.
#[derive(Clone, Copy)]
pub enum Sought {
    /// A `while`, an `assume`, or an `if` with a test other than `*`.
    Bend,
    /// A choice with an open end.
    OpenEnd,
}

/// The place of the first `while`, `assume` or `if` with a test other than `*`; none exactly where there is none, which is
/// where the program is straight. It needs no memory.
pub fn first_bend(p: &Program) -> Option<Place>
    ensures { result ≡ first (bends p.now) }
{
    first_in(p.body.as_slice(), Sought::Bend)
}

/// The place of the `[` of the first choice with an open end; none exactly where there is none. It needs no memory.
pub fn first_open_end(p: &Program) -> Option<Place>
    ensures { result ≡ first (open_ends p.now) }
{
    first_in(p.body.as_slice(), Sought::OpenEnd)
}

/// The first place that is sought in statements.
#[cycle(seeking)]
fn first_in(list: &[Stmt], sought: Sought) -> Option<Place>
    ensures { result ≡ first (places_of sought list.now) }
{
    for s in list {
        if let Some(place) = first_of(s, sought) {
            return Some(place);
        }
    }
    None
}

/// The first place that is sought in a statement.
#[cycle(seeking)]
fn first_of(s: &Stmt, sought: Sought) -> Option<Place>
    ensures { result ≡ first (places sought s.now) }
{
    match s {
        Stmt::Set { right, .. } => in_choice(sought, &right.choice),
        Stmt::If {
            place,
            test,
            then_part,
            else_part,
        } => match in_test(sought, *place, test) {
            Some(found) => Some(found),
            None => match first_in(then_part.as_slice(), sought) {
                Some(found) => Some(found),
                None => first_in(else_part.as_slice(), sought),
            },
        },
        Stmt::While { place, body, .. } => match in_place(sought, *place) {
            Some(found) => Some(found),
            None => first_in(body.as_slice(), sought),
        },
        Stmt::Assert { .. } => None,
        Stmt::Assume { place, .. } => in_place(sought, *place),
    }
}

/// The place of a statement that is no part of a straight program, where such are sought.
fn in_place(sought: Sought, place: Place) -> Option<Place>
    ensures { result ≡ first (in_place sought place) }
{
    match sought {
        Sought::Bend => Some(place),
        Sought::OpenEnd => None,
    }
}

/// The place of an `if` with this test, where it is sought.
fn in_test(sought: Sought, place: Place, test: &Test) -> Option<Place>
    ensures { result ≡ first (in_test sought place test.now) }
{
    match test {
        Test::Any => None,
        Test::All(_) => in_place(sought, place),
    }
}

/// The place of a choice, where it is sought.
fn in_choice(sought: Sought, choice: &Option<Choice>) -> Option<Place>
    ensures { result ≡ first (in_choice sought choice.now) }
{
    match sought {
        Sought::Bend => None,
        Sought::OpenEnd => open_end(choice),
    }
}

/// The place of a choice with an open end.
fn open_end(choice: &Option<Choice>) -> Option<Place>
    ensures { result ≡ first (open_end choice.now) }
{
    match choice {
        Some(
            Choice {
                lo: Bound::At(_),
                hi: Bound::At(_),
                ..
            },
        ) => None,
        Some(choice) => Some(choice.place),
        None => None,
    }
}
