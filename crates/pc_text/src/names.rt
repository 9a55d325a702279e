//! Names and the numbers that stand for them.

ghost use Rattle.std.specs.Prelude.{◌≡◌, ◌<◌, ◌≤◌, ◌+◌, ◌-◌, ◌^◌, None, Some, [], ◌∷◌, ◌++◌, length, slice_get, OnOk, OnErr, IfSome};
ghost use Rattle.pc_text.specs.Named.{number_of, texts, AreDistinct};

use crate::text::NoMemory;
use indexmap::IndexSet;
use std::alloc::Global;
use std::marker::Model;

/// Names, no two of them the same. Each has a number, counted from 0: the parameters come first,
/// and then the locals.
#[derive(Drop)]
pub struct Names {
    alloc: Global,
    names: IndexSet<Vec<u8>>,
    params: usize,
}

impl Model for Names {
    ghost use Rattle.std.specs.Prelude.{◌<◌, ◌≤◌, ◌^◌, length};
    ghost use Rattle.pc_text.specs.Named.{Named, AreDistinct, texts};

    ghost Value = { Named };

    ghost view = { λ n. record { names = texts n.names.keys; params = n.params } };

    ghost invariant = { λ n. (length n.names.keys < 2 ^ 32) × (n.params ≤ length n.names.keys) × AreDistinct (texts n.names.keys) };
}

impl Names {
    /// No names.
    pub fn new(alloc: Global) -> Names
        ensures { result ≡ record { names = []; params = 0 } }
    {
        Names {
            alloc,
            names: IndexSet::new(alloc),
            params: 0,
        }
    }

    /// How many names there are.
    pub fn len(&self) -> u32
        ensures value { result ≡ length self.now.names }
        ensures params { self.now.params ≤ length self.now.names }
        ensures distinct { AreDistinct self.now.names }
    {
        self.names.len() as u32
    }

    /// How many of them, from number 0 on, are parameters.
    pub fn params(&self) -> u32
        ensures { result ≡ self.now.params }
    {
        self.params as u32
    }

    /// The bytes of the name with this number.
    pub fn at(&self, i: u32) -> &[u8]
        requires { i < length self.now.names }
        ensures { slice_get self.now.names i ≡ Some result.now }
    {
        self.names.as_slice()[i as usize].as_slice()
    }

    /// The number of the name with these bytes, nothing exactly where there is none.
    pub fn position(&self, name: &[u8]) -> Option<u32>
        ensures number { result ≡ number_of self.now.names name.now }
        ensures within { IfSome result (λ i. i < length self.now.names) }
    {
        match self.names.get_index_of(name) {
            Some(index) => Some(index as u32),
            None => None,
        }
    }

    /// Adds a parameter, before there are locals. Where memory is wanting, nothing changes.
    pub fn push_param(&mut self, name: &[u8]) -> Result<(), NoMemory>
        requires fresh { number_of self.old.names name.now ≡ None }
        requires room { length self.old.names < 2 ^ 32 - 1 }
        requires first { self.old.params ≡ length self.old.names }
        ensures added { OnOk result (self.new ≡ record { names = self.old.names ++ name.now ∷ []; params = self.old.params + 1 }) }
        ensures unchanged { OnErr result (self.new ≡ self.old) }
    {
        self.push_local(name)?;
        self.params += 1;
        Ok(())
    }

    /// Adds a local. Where memory is wanting, nothing changes.
    pub fn push_local(&mut self, name: &[u8]) -> Result<(), NoMemory>
        requires fresh { number_of self.old.names name.now ≡ None }
        requires room { length self.old.names < 2 ^ 32 - 1 }
        ensures added { OnOk result (self.new ≡ record { names = self.old.names ++ name.now ∷ []; params = self.old.params }) }
        ensures unchanged { OnErr result (self.new ≡ self.old) }
    {
        let Ok(copy) = Vec::from_slice(self.alloc, name) else {
            return Err(NoMemory);
        };
        add(&mut self.names, copy)?;
        Ok(())
    }
}

/// Adds a name that is not there yet at the end.
fn add(names: &mut IndexSet<Vec<u8>>, name: Vec<u8>) -> Result<(), NoMemory>
    requires { number_of (texts names.old.keys) name.items ≡ None }
    ensures added { OnOk result (texts names.new.keys ≡ texts names.old.keys ++ name.items ∷ []) }
    ensures unchanged { OnErr result (names.new.keys ≡ names.old.keys) }
    ensures longer { OnOk result (length names.new.keys ≡ length names.old.keys + 1) }
{
    let Ok(_) = names.insert(name) else {
        return Err(NoMemory);
    };
    Ok(())
}
