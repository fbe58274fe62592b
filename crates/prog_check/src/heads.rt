//! The check of tables and programs.
ghost use Rattle.std.specs.Prelude.{◌≡◌, [], ◌∷◌, ◌++◌, map, OnOk};
ghost use Rattle.prog_tree.specs.Tree.{program_tree};
ghost use Rattle.prog_check.specs.declared.fault.CheckFault.TheVariants.{DuplicateParameter};
ghost use Rattle.prog_check.specs.Faults.{first_broken, program_rules, tables_fault, program_fault};
ghost use Rattle.prog_check.specs.Faults.{programs_fault};
ghost use Rattle.prog_check.specs.Names.{has_twice};
ghost use Rattle.prog_check.specs.Sets.{Finds};

use crate::body::{Position, check_block};
use crate::counts::check_paths;
use crate::fault::{CheckFault, Place};
use crate::limits::{MAX_PARAMETERS, MAX_PROGRAMS, MAX_TABLES};
use crate::names::Names;
use crate::tables::Tables;
use prog_tree::{Name, Program, TableDecl};
use std::alloc::Global;

/// Checks the names of tables, and gives them with their numbers.
pub fn check_tables(alloc: Global, tables: &[TableDecl]) -> Result<Names, CheckFault>
    ensures { Finds (λ names. names ≡ map (λ d. d.name) tables.now) result
        (tables_fault [] (map (λ d. d.name) tables.now)) }
{
    let mut names = Names::new(alloc);
    for table in tables {
        let place = Place::Table { table: names.len() };
        if names.len() >= MAX_TABLES {
            return Err(CheckFault::TooMany { place });
        }
        if !names.insert(&table.name)? {
            return Err(CheckFault::DuplicateTable { place });
        }
    }
    Ok(names)
}

// Checks that no parameter is repeated, and gives them as visible names.
fn check_params(alloc: Global, place: Place, params: &[Name]) -> Result<Names, CheckFault>
    ensures { Finds (λ names. names ≡ params.now) result
        (first_broken ((has_twice params.now, DuplicateParameter place) ∷ [])) }
{
    let mut visible = Names::new(alloc);
    for param in params {
        if !visible.insert(param)? {
            return Err(CheckFault::DuplicateParameter { place });
        }
    }
    Ok(visible)
}

// Checks a program's name and parameters behind the programs of these names, and gives its
// parameters as visible names.
fn check_head(alloc: Global, earlier: &mut Names, program: &Program) -> Result<Names, CheckFault>
    ensures found { Finds (λ names. names ≡ program.now.params.items) result
        (first_broken (program_rules earlier.old (program_tree program.now))) }
    ensures named { OnOk result (earlier.new ≡ earlier.old ++ program.now.name ∷ []) }
{
    let place = Place::Program {
        program: earlier.len(),
    };
    if earlier.len() >= MAX_PROGRAMS {
        return Err(CheckFault::TooMany { place });
    }
    if !earlier.insert(&program.name)? {
        return Err(CheckFault::DuplicateProgram { place });
    }
    if program.params.len() > MAX_PARAMETERS {
        return Err(CheckFault::TooMany { place });
    }
    check_params(alloc, place, &program.params)
}

// Checks a program behind the programs of these names, which its own name joins.
fn check_program(
    alloc: Global,
    tables: &Tables<'_>,
    earlier: &mut Names,
    program: &Program,
) -> Result<(), CheckFault>
    ensures found { Finds (λ _. Unit {0}) result
        (program_fault tables.now earlier.old (program_tree program.now)) }
    ensures named { OnOk result (earlier.new ≡ earlier.old ++ program.now.name ∷ []) }
{
    let number = earlier.len();
    let visible = check_head(alloc, earlier, program)?;
    let mut at = Position { number: 0, visible };
    check_block(tables, number, &mut at, &program.body)?;
    check_paths(tables, number, program)?;
    Ok(())
}

/// Checks the programs, one before the next, and gives their names with their numbers.
pub fn check_programs(
    alloc: Global,
    tables: &Tables<'_>,
    programs: &[Program],
) -> Result<Names, CheckFault>
    ensures { Finds (λ names. names ≡ map (λ p. p.name) programs.now) result
        (programs_fault tables.now [] (map program_tree programs.now)) }
{
    let mut earlier = Names::new(alloc);
    for program in programs {
        check_program(alloc, tables, &mut earlier, program)?;
    }
    Ok(earlier)
}
