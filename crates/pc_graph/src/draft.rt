//! A graph in the making.

ghost use Rattle.std.specs.Prelude.{◌≡◌, ◌<◌, ◌-◌, ◌^◌, OnOk, IfOk, true};
ghost use Rattle.std.specs.List.{list_all};
ghost use Rattle.pc_program.specs.Forms.{row_fits, rows_all};
ghost use Rattle.pc_program.specs.Sane.{sane_test};
ghost use Rattle.pc_program.specs.declared.tree.Test.TheVariants.{All};
ghost use Rattle.pc_flow.specs.Arc.{IsFit, marked};
ghost use Rattle.pc_graph.specs.Drawn.{begun, extended, with_point, with_edge, with_tests, branched, joined_at, turned, headed};
ghost use Rattle.pc_graph.specs.Lowering.{one};
ghost use Rattle.pc_graph.specs.Sides.{holds, is_body};
ghost use Rattle.pc_graph.specs.Ways.{apart, is_lone, ways_of, ways};

use crate::row::{is_lone, negation, only};
use crate::side::Side;
use pc_flow::{Edge, What};
use pc_program::{Compare, Test, rows_of};
use pc_rows::Rows;
use pc_text::{NoMemory, Place};
use sqlite_items::Items;
use std::alloc::Global;
use std::marker::Model;

/// The head of a loop, and the rows that the loop tries.
#[derive(Drop)]
pub struct Loop {
    pub head: u32,
    pub tried: Rows,
}

/// What the rules have made so far: the present point, the number of the next point, the places of the points, the edges
/// and the loops. Each list is in the memory of `alloc`.
#[derive(Drop)]
pub struct Draft {
    pub alloc: Global,
    pub at: u32,
    pub next: u32,
    pub places: Items<Place>,
    pub edges: Items<Edge>,
    pub loops: Items<Loop>,
}

impl Model for Draft {
    ghost use Rattle.pc_graph.specs.Drawn.{Drawn};

    ghost Value = { Drawn };

    ghost view = { λ d. record { at = d.at; next = d.next; places = d.places; edges = d.edges; loops = d.loops } };
}

impl Draft {
    /// Nothing but the present point and the number of the next.
    pub(crate) fn new(alloc: Global, at: u32, next: u32) -> Draft
        ensures { result ≡ begun at next }
    {
        Draft {
            alloc,
            at,
            next,
            places: Items::new(alloc),
            edges: Items::new(alloc),
            loops: Items::new(alloc),
        }
    }

    /// The present point.
    pub(crate) fn at(&self) -> u32
        ensures { result ≡ self.now.at }
    {
        self.at
    }

    /// An edge from the present point to a new one.
    pub(crate) fn link(&mut self, place: Place, what: What) -> Result<(), NoMemory>
        requires fit { IsFit what }
        requires room { self.old.next < 2 ^ 32 - 1 }
        ensures { OnOk result (self.new ≡ extended self.old (one place what self.old.at self.old.next)) }
    {
        let from = self.at;
        let to = self.point(place)?;
        self.edge(from, to, what, false)
    }

    /// A new point, which is the present one from now on.
    pub(crate) fn point(&mut self, place: Place) -> Result<u32, NoMemory>
        requires { self.old.next < 2 ^ 32 - 1 }
        ensures number { IfOk result (λ p. p ≡ self.old.next) }
        ensures made { OnOk result (self.new ≡ with_point place self.old) }
    {
        if self.places.push(place).is_err() {
            return Err(NoMemory);
        }
        self.at = self.next;
        self.next += 1;
        Ok(self.at)
    }

    /// An edge.
    pub(crate) fn edge(
        &mut self,
        from: u32,
        to: u32,
        what: What,
        body: bool,
    ) -> Result<(), NoMemory>
        requires { IsFit what }
        ensures { OnOk result (self.new ≡ with_edge (marked body «from» to what) self.old) }
    {
        let edge = Edge {
            from,
            to,
            what,
            body,
        };
        match self.edges.push(edge) {
            Ok(()) => Ok(()),
            Err(_) => Err(NoMemory),
        }
    }

    /// The edges of one side of a test, from `p` to a new point.
    pub(crate) fn branch(
        &mut self,
        n: u32,
        p: u32,
        place: Place,
        test: &Test,
        side: Side,
    ) -> Result<(), NoMemory>
        requires sane { sane_test n test.now ≡ true }
        requires room { self.old.next < 2 ^ 32 - 1 }
        ensures { OnOk result (self.new ≡ branched p place (ways test.now (holds side)) (is_body side) self.old) }
    {
        let to = self.point(place)?;
        match test {
            Test::Any => self.edge(p, to, What::Test(Rows::new(self.alloc)), side.is_body()),
            Test::All(all) => self.ways(n, p, to, all.as_slice(), side),
        }
    }

    /// The edges of one side of a conjunction: one for all rows, or one for the negation of each.
    fn ways(&mut self, n: u32, p: u32, to: u32, all: &[Compare], side: Side) -> Result<(), NoMemory>
        requires sane { sane_test n (All all.now) ≡ true }
        ensures { OnOk result (self.new ≡ with_tests p to (ways_of (is_lone all.now) (rows_all all.now) (holds side)) (is_body side) self.old) }
    {
        let rows = rows_of(self.alloc, all)?;
        if is_lone(all) == side.holds() {
            self.spread(p, to, &rows, side.is_body())
        } else {
            self.edge(p, to, What::Test(rows), side.is_body())
        }
    }

    /// An edge for the negation of each row.
    fn spread(&mut self, p: u32, to: u32, rows: &Rows, body: bool) -> Result<(), NoMemory>
        requires { list_all row_fits rows.now ≡ true }
        ensures { OnOk result (self.new ≡ with_tests p to (apart rows.now) body self.old) }
    {
        for i in 0..rows.len() {
            let alone = only(self.alloc, negation(rows.at(i)))?;
            self.edge(p, to, What::Test(alone), body)?;
        }
        Ok(())
    }

    /// The edges from the end `t` of a block and from the present point to a new one.
    pub(crate) fn join(&mut self, place: Place, t: u32) -> Result<(), NoMemory>
        requires { self.old.next < 2 ^ 32 - 1 }
        ensures { OnOk result (self.new ≡ joined_at place t self.old) }
    {
        let from = self.at;
        let to = self.point(place)?;
        self.edge(t, to, What::Test(Rows::new(self.alloc)), false)?;
        self.edge(from, to, What::Test(Rows::new(self.alloc)), false)
    }

    /// The edge from the present point back to a head.
    pub(crate) fn turn(&mut self, head: u32) -> Result<(), NoMemory>
        ensures { OnOk result (self.new ≡ turned head self.old) }
    {
        let from = self.at;
        self.edge(from, head, What::Test(Rows::new(self.alloc)), false)
    }

    /// The present point becomes the head of a loop that tries the rows.
    pub(crate) fn head(&mut self, tried: Rows) -> Result<(), NoMemory>
        ensures { OnOk result (self.new ≡ headed tried self.old) }
    {
        let head = self.at;
        match self.loops.push(Loop { head, tried }) {
            Ok(()) => Ok(()),
            Err(_) => Err(NoMemory),
        }
    }
}
