//! Names: the bytes that spell them, their declaration and their use.

ghost use Rattle.std.specs.Prelude.{◌≡◌, ◌<◌, ◌≤◌, ◌+◌, true, length, None, IfOk, OnOk};
ghost use Rattle.pc_rows.specs.declared.row.TheConstants.{VARIABLES};
ghost use Rattle.std.specs.List.{list_all};
ghost use Rattle.pc_text.specs.Named.{number_of};
ghost use Rattle.pc_syntax.specs.Context as spec;
ghost use Rattle.pc_syntax.specs.Faults.{Declares, GivesNames};
ghost use Rattle.pc_syntax.specs.Trees.{fit_symbol};

use crate::fault::SourceFault;
use pc_grammar::{ProgramTree, Symbol};
use pc_rows::VARIABLES;
use pc_text::Names;
use std::alloc::Global;

/// The bytes that spell a symbol.
pub fn word<'a>(src: &'a [u8], symbol: &Symbol) -> &'a [u8]
    requires { fit_symbol (length src.now) symbol.now ≡ true }
    ensures { result.now ≡ spec.word src.now symbol.now }
{
    &src[symbol.from..symbol.to]
}

/// The number of a name that is used.
pub fn resolved(src: &[u8], names: &Names, symbol: &Symbol) -> Result<u32, SourceFault>
    requires { fit_symbol (length src.now) symbol.now ≡ true }
    ensures value { result ≡ spec.resolved src.now names.now.names symbol.now }
    ensures below { IfOk result (λ v. v < length names.now.names) }
{
    match names.position(word(src, symbol)) {
        Some(v) => Ok(v),
        None => Err(SourceFault::UnknownName(symbol.place)),
    }
}

/// Whether a name may be declared after these.
fn may_declare(src: &[u8], names: &Names, symbol: &Symbol) -> Result<(), SourceFault>
    requires { fit_symbol (length src.now) symbol.now ≡ true }
    ensures value { result ≡ spec.may_declare src.now names.now.names symbol.now }
    ensures fresh { OnOk result (number_of names.now.names (spec.word src.now symbol.now) ≡ None) }
    ensures room { OnOk result (length names.now.names < VARIABLES) }
{
    if names.position(word(src, symbol)).is_some() {
        Err(SourceFault::DuplicateName(symbol.place))
    } else if (names.len() as usize) < VARIABLES {
        Ok(())
    } else {
        Err(SourceFault::TooManyNames(symbol.place))
    }
}

fn declare_param(src: &[u8], names: &mut Names, symbol: &Symbol) -> Result<(), SourceFault>
    requires fit { fit_symbol (length src.now) symbol.now ≡ true }
    requires first { names.old.params ≡ length names.old.names }
    ensures value { Declares result (spec.declare src.now names.old.names symbol.now) names.new.names }
    ensures params { OnOk result (names.new.params ≡ names.old.params + 1) }
    ensures longer { OnOk result (length names.new.names ≡ length names.old.names + 1) }
    ensures few { OnOk result (length names.new.names ≤ VARIABLES) }
{
    may_declare(src, names, symbol)?;
    names.push_param(word(src, symbol))?;
    Ok(())
}

fn declare_local(src: &[u8], names: &mut Names, symbol: &Symbol) -> Result<(), SourceFault>
    requires fit { fit_symbol (length src.now) symbol.now ≡ true }
    ensures value { Declares result (spec.declare src.now names.old.names symbol.now) names.new.names }
    ensures params { OnOk result (names.new.params ≡ names.old.params) }
    ensures few { OnOk result (length names.new.names ≤ VARIABLES) }
{
    may_declare(src, names, symbol)?;
    names.push_local(word(src, symbol))?;
    Ok(())
}

fn declare_params(src: &[u8], names: &mut Names, symbols: &[Symbol]) -> Result<(), SourceFault>
    requires fit { list_all (fit_symbol (length src.now)) symbols.now ≡ true }
    requires first { names.old.params ≡ length names.old.names }
    requires few { length names.old.names ≤ VARIABLES }
    ensures value { Declares result (spec.declared_after src.now names.old.names symbols.now) names.new.names }
    ensures params { OnOk result (names.new.params ≡ names.old.params + length symbols.now) }
    ensures few { OnOk result (length names.new.names ≤ VARIABLES) }
{
    for symbol in symbols {
        declare_param(src, names, symbol)?;
    }
    Ok(())
}

fn declare_locals(src: &[u8], names: &mut Names, symbols: &[Symbol]) -> Result<(), SourceFault>
    requires fit { list_all (fit_symbol (length src.now)) symbols.now ≡ true }
    requires few { length names.old.names ≤ VARIABLES }
    ensures value { Declares result (spec.declared_after src.now names.old.names symbols.now) names.new.names }
    ensures params { OnOk result (names.new.params ≡ names.old.params) }
    ensures few { OnOk result (length names.new.names ≤ VARIABLES) }
{
    for symbol in symbols {
        declare_local(src, names, symbol)?;
    }
    Ok(())
}

/// The names of a program: its parameters, and then its locals.
pub fn declared(alloc: Global, src: &[u8], tree: &ProgramTree) -> Result<Names, SourceFault>
    requires params { list_all (fit_symbol (length src.now)) tree.now.params ≡ true }
    requires locals { list_all (fit_symbol (length src.now)) tree.now.locals ≡ true }
    ensures value { GivesNames result (spec.checked_names src.now tree.now) }
    ensures params { IfOk result (λ names. names.params ≡ length tree.now.params) }
    ensures few { IfOk result (λ names. length names.names ≤ VARIABLES) }
{
    let mut names = Names::new(alloc);
    declare_params(src, &mut names, tree.params.as_slice())?;
    declare_locals(src, &mut names, tree.locals.as_slice())?;
    Ok(names)
}
