//! Proofs that premises show a goal.

ghost use Rattle.std.specs.Prelude.{◌≡◌, ◌≢◌, ◌<◌, ◌≤◌, pos, [], ◌∷◌, ◌++◌, length, slice_get, Some, IfOk, OnOk, OnErr};
ghost use Rattle.std.specs.List.{list_all};
ghost use Rattle.pc_rows.specs.Checks.{is_usable, are_usable};
ghost use Rattle.pc_rows.specs.Evidence.{IsAbove, IsParts, IsProof};
ghost use Rattle.pc_rows.specs.Parts.{part_of, parts_from};

use crate::number::Number;
use crate::rows::NoMemory;
use crate::system::PREMISES;
use sqlite_items::Items;
use std::alloc::Global;
use std::marker::Model;

/// A premise, by its index counted from 0, and its multiplier.
#[derive(Clone, Copy, Debug, PartialEq, Eq)]
pub struct Part {
    pub index: u32,
    pub multiplier: Number,
}

/// Premises with their multipliers: rising indices below `PREMISES`, and multipliers in range and
/// other than 0.
#[derive(Drop)]
pub struct Parts {
    alloc: Global,
    parts: Items<Part>,
}

impl Model for Parts {
    ghost use Rattle.std.specs.Prelude.{List};
    ghost use Rattle.pc_rows.specs.declared.proof.Part.{Part as Share};
    ghost use Rattle.pc_rows.specs.Evidence.{IsParts};

    ghost Value = { List Share };

    ghost view = { λ p. p.parts };

    ghost invariant = { λ p. IsParts p.parts };
}

impl Parts {
    /// No parts. It needs no memory; what is pushed later, and each copy, is taken from `alloc`.
    pub fn new(alloc: Global) -> Parts
        ensures { result ≡ [] }
    {
        Parts {
            alloc,
            parts: Items::new(alloc),
        }
    }

    /// The multipliers other than 0, each with its index. What is pushed later, and each copy, is
    /// taken from `alloc` too.
    pub fn of_multipliers(alloc: Global, multipliers: &[Number]) -> Result<Parts, NoMemory>
        requires { length multipliers.now ≤ PREMISES }
        ensures { IfOk result (λ parts. parts ≡ parts_from 0 multipliers.now) }
    {
        let mut parts = Parts::new(alloc);
        for i in 0..multipliers.len() {
            parts.add(i as u32, multipliers[i])?;
        }
        Ok(parts)
    }

    /// How many parts there are.
    pub fn len(&self) -> usize
        ensures value { result ≡ length self.now }
        ensures parts { IsParts self.now }
    {
        self.parts.len()
    }

    /// Part `i` of the list, counted from 0.
    pub fn at(&self, i: usize) -> Part
        requires { i < length self.now }
        ensures { slice_get self.now i ≡ Some result }
    {
        self.parts.as_slice()[i]
    }

    /// Puts a part at the end; its index is above those before it. After a refusal the list is as before.
    pub fn push(&mut self, part: Part) -> Result<(), NoMemory>
        requires premise { part.index < PREMISES }
        requires rising { IsAbove part.index self.old }
        requires not_zero { part.multiplier ≢ pos 0 }
        ensures ok { OnOk result (self.new ≡ self.old ++ part ∷ []) }
        ensures err { OnErr result (self.new ≡ self.old) }
    {
        let _in_range = part.multiplier.get();
        match self.parts.push(part) {
            Ok(()) => Ok(()),
            Err(_) => Err(NoMemory),
        }
    }

    /// Puts a part at the end, unless its multiplier is 0; its index is above those before it. After
    /// a refusal the list is as before.
    pub fn add(&mut self, index: u32, multiplier: Number) -> Result<(), NoMemory>
        requires premise { index < PREMISES }
        requires rising { IsAbove index self.old }
        ensures ok { OnOk result (self.new ≡ self.old ++ part_of index multiplier) }
        ensures err { OnErr result (self.new ≡ self.old) }
    {
        if multiplier.is_zero() {
            return Ok(());
        }
        self.push(Part { index, multiplier })
    }

    /// Whether each part names one of the first `count` premises, with a multiplier of at least 0.
    fn are_usable(&self, count: usize) -> bool
        ensures { result ≡ list_all (is_usable count) self.now }
    {
        self.parts.as_slice().iter().all(|part| (part.index as usize) < count
            && part.multiplier.is_at_least_zero())
    }

    /// The same parts, from the same allocator.
    pub fn copy(&self) -> Result<Parts, NoMemory>
        ensures { IfOk result (λ parts. parts ≡ self.now) }
    {
        match Items::from_slice(self.alloc, self.parts.as_slice()) {
            Ok(parts) => Ok(Parts {
                alloc: self.alloc,
                parts,
            }),
            Err(_) => Err(NoMemory),
        }
    }
}

/// A multiplier of the negated goal, and multipliers of premises. It shows the goal where no
/// multiplier is negative, and the sum of these rows, each times its multiplier, has no variable
/// and a negative constant.
#[derive(Drop)]
pub struct Proof {
    goal: Number,
    parts: Parts,
}

impl Model for Proof {
    ghost use Rattle.pc_rows.specs.Evidence.{Proof as Multipliers, IsProof};

    ghost Value = { Multipliers };

    ghost view = { λ p. record { goal = p.goal; parts = p.parts } };
}

impl Proof {
    /// The proof with `goal` as the multiplier of the negated goal.
    pub fn new(goal: Number, parts: Parts) -> Proof
        ensures { result ≡ record { goal = goal; parts = parts } }
    {
        Proof { goal, parts }
    }

    /// The multiplier of the negated goal.
    pub fn goal(&self) -> Number
        ensures value { result ≡ self.now.goal }
        ensures proof { IsProof self.now }
    {
        let _in_range = self.goal.get();
        let _parts = self.parts.len();
        self.goal
    }

    /// The premises with their multipliers.
    pub fn parts(&self) -> &Parts
        ensures { result.now ≡ self.now.parts }
    {
        &self.parts
    }

    /// Whether no multiplier is negative, and each part names one of the first `count` premises.
    pub(crate) fn is_usable(&self, count: usize) -> bool
        ensures { result ≡ are_usable count self.now }
    {
        self.goal.is_at_least_zero() && self.parts.are_usable(count)
    }

    /// The same proof, from the allocator of its parts.
    pub fn copy(&self) -> Result<Proof, NoMemory>
        ensures { IfOk result (λ proof. proof ≡ self.now) }
    {
        Ok(Proof {
            goal: self.goal,
            parts: self.parts.copy()?,
        })
    }
}
