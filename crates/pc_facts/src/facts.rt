//! What is known at each point, as lines.

ghost use Rattle.std.specs.Prelude.{◌≡◌, ◌<◌, ◌++◌, ◌∷◌, [], pos, codes, length, IfOk, OnOk};
ghost use Rattle.pc_text.specs.Numerals.{numeral};
ghost use Rattle.pc_facts.specs.Lines.{is_over, shown, is_minus_one, is_nothing, what_text, place_text, point_line};
ghost use Rattle.pc_facts.specs.Facts.{IsFacts, RowsAre, AreLines};

use pc_condition::push_rows;
use pc_domain::Forward;
use pc_fixpoint::forward;
use pc_flow::Graph;
use pc_rows::Row;
use pc_text::{Names, NoMemory, Place, Text};
use sqlite_items::Items;
use std::alloc::Global;

/// For each point of a graph a line with its number, its place and rows that each state meets which some walk brings there:
/// those that a domain gives, without those that have a variable without a name.
pub fn show_facts<D: Forward>(alloc: Global, g: &Graph, names: &Names) -> Result<Text, NoMemory>
    ensures { IfOk result (IsFacts D.Forward g.now names.now.names) }
{
    match forward::<D>(alloc, g) {
        Ok(values) => all_lines(alloc, g, names, &values),
        Err(pc_domain::NoMemory) => Err(NoMemory),
    }
}

/// The lines of all points.
fn all_lines<D: Forward>(
    alloc: Global,
    g: &Graph,
    names: &Names,
    values: &Items<D>,
) -> Result<Text, NoMemory>
    requires { length values.now ≡ length g.now.points }
    ensures { IfOk result (AreLines D.Forward g.now names.now.names values.now (length g.now.points)) }
{
    let mut text = Text::new(alloc);
    for p in 0..g.points() {
        let rows = rows_of(alloc, &values.as_slice()[p as usize])?;
        push_line(alloc, &mut text, g, p, &rows, names)?;
    }
    Ok(text)
}

/// The rows that a value gives.
fn rows_of<D: Forward>(alloc: Global, value: &D) -> Result<Items<Row>, NoMemory>
    ensures { IfOk result (RowsAre D.Forward value.now) }
{
    match value.rows(alloc) {
        Ok(rows) => Ok(rows),
        Err(pc_domain::NoMemory) => Err(NoMemory),
    }
}

/// Adds the line of a point.
fn push_line(
    alloc: Global,
    text: &mut Text,
    g: &Graph,
    p: u32,
    rows: &Items<Row>,
    names: &Names,
) -> Result<(), NoMemory>
    requires { p < length g.now.points }
    ensures { OnOk result (text.new ≡ text.old ++ point_line names.now.names g.now.points p rows.now) }
{
    push_told(alloc, text, p, g.place(p), rows, names)
}

/// Adds a line of a point's number, its place and what is known there.
fn push_told(
    alloc: Global,
    text: &mut Text,
    p: u32,
    place: Place,
    rows: &Items<Row>,
    names: &Names,
) -> Result<(), NoMemory>
    ensures { OnOk result (text.new ≡ text.old ++ (codes "point " ++ numeral (pos p) ++ codes " " ++ place_text place ++ codes ": " ++ what_text names.now.names rows.now ++ codes "\n")) }
{
    push_head(text, p, place)?;
    push_known(alloc, text, rows, names)?;
    text.push(b'\n')
}

/// Adds a point's number and its place.
fn push_head(text: &mut Text, p: u32, place: Place) -> Result<(), NoMemory>
    ensures { OnOk result (text.new ≡ text.old ++ (codes "point " ++ numeral (pos p) ++ codes " " ++ place_text place ++ codes ": ")) }
{
    text.push_all(b"point ")?;
    text.push_number(i128::from(p))?;
    text.push(b' ')?;
    push_place(text, place)?;
    text.push_all(b": ")
}

/// Adds the line and the column of a place.
fn push_place(text: &mut Text, place: Place) -> Result<(), NoMemory>
    ensures { OnOk result (text.new ≡ text.old ++ place_text place) }
{
    text.push_number(i128::from(place.line))?;
    text.push(b':')?;
    text.push_number(i128::from(place.column))
}

/// Adds the rows without those that have a variable without a name, and `nothing` where the one row is -1.
fn push_known(
    alloc: Global,
    text: &mut Text,
    rows: &Items<Row>,
    names: &Names,
) -> Result<(), NoMemory>
    ensures { OnOk result (text.new ≡ text.old ++ what_text names.now.names rows.now) }
{
    if is_nothing(rows.as_slice()) {
        return text.push_all(b"nothing");
    }
    let known = shown(alloc, rows.as_slice(), names.len())?;
    push_rows(alloc, text, &known, names)
}

/// Whether the one row is -1.
fn is_nothing(rows: &[Row]) -> bool
    ensures { result ≡ is_nothing rows.now }
{
    match rows {
        [r] => is_minus_one(r),
        _ => false,
    }
}

fn is_minus_one(r: &Row) -> bool
    ensures { result ≡ is_minus_one r.now }
{
    r.is_number() && r.constant() == -1
}

/// The rows over the first `count` variables.
fn shown(alloc: Global, rows: &[Row], count: u32) -> Result<Items<Row>, NoMemory>
    ensures { IfOk result (λ known. known ≡ shown count rows.now) }
{
    let mut known = Items::new(alloc);
    for r in rows {
        add_shown(&mut known, r, count)?;
    }
    Ok(known)
}

fn add_shown(known: &mut Items<Row>, r: &Row, count: u32) -> Result<(), NoMemory>
    ensures { OnOk result (known.new ≡ known.old ++ shown count (r.now ∷ [])) }
{
    if is_over(r, count) && known.push(r.copy()).is_err() {
        return Err(NoMemory);
    }
    Ok(())
}

/// Whether a row has no variable from number `count` on.
fn is_over(r: &Row, count: u32) -> bool
    ensures { result ≡ is_over count r.now }
{
    r.first(count).is_at_most(r)
}
