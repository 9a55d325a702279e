ghost use Rattle.std.specs.Prelude.{◌≡◌, ◌<◌, [], ◌∷◌, ◌++◌, length, slice_get, find, ◌==◌, OnOk, OnErr, MatchOption, string_bytes};
ghost use Rattle.std.specs.List.{list_any};
ghost use Rattle.std.specs.Option.{option_copied};
ghost use Rattle.std.specs.Str.{bytes_eq};
ghost use Rattle.pc_ports.specs.Memory.{held_under, one_more};
ghost use Rattle.pc_ports.specs.Outside.{Held, Nothing};

use std::alloc::Global;
use std::marker::Model;

/// The last value of a count of faults or calls: a count that reaches it stays there.
pub const LAST_COUNT: u64 = u64::MAX;

/// There was no memory.
#[derive(Clone, Copy, Debug, PartialEq, Eq)]
pub struct NoMemory;

/// Files in memory: a list of names with their bytes.
///
/// Of two files with one name the first counts. Contracts see the names as bytes, too.
#[derive(Drop)]
pub struct Files {
    files: Vec<(String, Vec<u8>)>,
}

impl Model for Files {
    ghost use Rattle.std.specs.Prelude.{List, ℕ, map, string_bytes};

    ghost Value = { List (List ℕ × List ℕ) };

    ghost view = { λ f. map (λ file. (string_bytes file.0, file.1.items)) f.files.items };
}

impl Files {
    /// No files.
    pub fn new(alloc: Global) -> Files
        ensures { result ≡ [] }
    {
        Files {
            files: Vec::new(alloc),
        }
    }

    /// How many files there are.
    pub fn len(&self) -> usize
        ensures { result ≡ length self.now }
    {
        self.files.len()
    }

    /// The name and the bytes of the file at this index, counted from 0.
    pub fn at(&self, index: usize) -> &(String, Vec<u8>)
        requires { index < length self.now }
        ensures { slice_get self.now index ≡ Some (string_bytes result.now.0, result.now.1.items) }
    {
        &self.files[index]
    }

    /// Adds a file at the end. Where memory is wanting, nothing changes.
    pub fn push(&mut self, file: (String, Vec<u8>)) -> Result<(), NoMemory>
        ensures added { OnOk result (self.new ≡ self.old ++ (string_bytes file.0, file.1.items) ∷ []) }
        ensures unchanged { OnErr result (self.new ≡ self.old) }
    {
        match self.files.push(file) {
            Ok(()) => Ok(()),
            Err(_) => Err(NoMemory),
        }
    }

    /// The bytes of the first file of this name.
    pub(crate) fn held(&self, name: &str) -> Option<&[u8]>
        ensures { MatchOption result (held_under self.now name.now ≡ Nothing) (λ bytes. held_under self.now name.now ≡ Held bytes.now) }
    {
        match first_named(&self.files, name) {
            Some(file) => Some(file.1.as_slice()),
            None => None,
        }
    }
}

/// Numbers of calls, counted from 1, that are to fail.
#[derive(Drop)]
pub struct Calls {
    numbers: Vec<u64>,
}

impl Model for Calls {
    ghost use Rattle.std.specs.Prelude.{List, ℕ};

    ghost Value = { List ℕ };

    ghost view = { λ c. c.numbers.items };
}

impl Calls {
    /// No calls.
    pub fn new(alloc: Global) -> Calls
        ensures { result ≡ [] }
    {
        Calls {
            numbers: Vec::new(alloc),
        }
    }

    /// How many numbers there are.
    pub fn len(&self) -> usize
        ensures { result ≡ length self.now }
    {
        self.numbers.len()
    }

    /// The number at this index, counted from 0.
    pub fn at(&self, index: usize) -> u64
        requires { index < length self.now }
        ensures { slice_get self.now index ≡ Some result }
    {
        self.numbers[index]
    }

    /// Adds a number at the end. Where memory is wanting, nothing changes.
    pub fn push(&mut self, number: u64) -> Result<(), NoMemory>
        ensures added { OnOk result (self.new ≡ self.old ++ number ∷ []) }
        ensures unchanged { OnErr result (self.new ≡ self.old) }
    {
        match self.numbers.push(number) {
            Ok(()) => Ok(()),
            Err(_) => Err(NoMemory),
        }
    }

    /// Whether the call of this number is listed.
    pub(crate) fn contains(&self, call: u64) -> bool
        ensures { result ≡ list_any (λ number. number == call) self.now }
    {
        self.numbers.contains(&call)
    }
}

/// The first file of this name.
fn first_named<'a>(files: &'a [(String, Vec<u8>)], name: &str) -> Option<&'a (String, Vec<u8>)>
    ensures { option_copied result ≡ find (λ file. bytes_eq (string_bytes file.0) name.now) files.now }
{
    files.iter().find(|file| file.0.as_str() == name)
}

/// One more, up to the last value of a count.
pub(crate) fn one_more_than(count: u64) -> u64
    ensures { result ≡ one_more count }
{
    count.saturating_add(1)
}
