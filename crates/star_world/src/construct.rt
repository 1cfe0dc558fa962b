//! New values that expressions make, and the sites of statements and comprehensions. Nothing is evaluated here.

ghost use Rattle.std.specs.Prelude.{◌≡◌, ◌+◌, []};
ghost use Rattle.star_machine.specs.Refines.{Refines};
ghost use Rattle.star_meaning.specs.Comprehensions.{inner};
ghost use Rattle.star_meaning.specs.Module.{at_line};
ghost use Rattle.star_meaning.specs.Run.{build};
ghost use Rattle.star_meaning.specs.Values.{new_text};
ghost use Rattle.star_store.specs.declared.values.Cell.TheVariants as cell;
ghost use Rattle.star_world.specs.Closures.{closure};
ghost use Rattle.star_world.specs.World.{variables};

use crate::variables::paid_frame;
use crate::world::World;
use sqlite_items::Boxed;
use star_machine::fault::EvalError;
use star_machine::machine::Machine;
use star_meaning::site::Site;
use star_store::defaults::Defaults;
use star_store::values::{Cell, Entries, Function, Value, Values};
use star_text::Text;
use star_tree::tree::Statement;

/// The site of a statement. A fault gets the line of the innermost statement of the running module's own file.
pub fn site_of(world: &World, site: &Site, statement: &Statement) -> Site
    ensures { result ≡ at_line world.now.setting site.now statement.now }
{
    if site.file != world.setting().home() {
        return *site;
    }
    Site {
        file: site.file,
        frame: site.frame,
        line: statement.position.line,
    }
}

/// A new string of these bytes, which pays 1 and one for each.
#[inline(never)]
pub fn new_string(machine: &mut Machine, line: usize, text: &Text) -> Result<Value, EvalError>
    ensures { Refines (new_text line text.now machine.old) result machine.new }
{
    let copy = text.share()?;
    Ok(machine.new_text(line, copy)?)
}

/// A new function, which pays 1.
pub fn new_closure(
    machine: &mut Machine,
    site: &Site,
    token: usize,
    name: &str,
    defaults: Defaults,
) -> Result<Value, EvalError>
    ensures { Refines (closure site.now token name.now defaults machine.old) result machine.new }
{
    let Ok(definition) = u32::try_from(token) else {
        return Err(EvalError::Memory);
    };
    let function = Function {
        file: site.file,
        definition,
        name: Text::new(machine.alloc(), name)?,
        defaults,
        frame: site.frame,
    };
    let function = Boxed::new(machine.alloc(), function)?;
    machine.build(site.line, 1, Cell::Func(function))
}

/// A new list of no items, which pays 1.
pub fn new_empty_list(machine: &mut Machine, line: usize) -> Result<Value, EvalError>
    ensures { Refines (build line 1 (cell.List []) machine.old) result machine.new }
{
    let items = Values::new(Vec::new(machine.alloc()));
    machine.build(line, 1, Cell::List(items))
}

/// A new dictionary of no entries, which pays 1.
pub fn new_empty_dict(machine: &mut Machine, line: usize) -> Result<Value, EvalError>
    ensures { Refines (build line 1 (cell.Dict []) machine.old) result machine.new }
{
    let entries = Entries::new(machine.alloc());
    machine.build(line, 1, Cell::Dict(entries))
}

/// The site inside of a comprehension: its frame, whose parent is the running one. 1 is paid.
pub fn enter(
    machine: &mut Machine,
    world: &World,
    site: &Site,
    token: usize,
) -> Result<Site, EvalError>
    ensures { Refines (inner (variables world.now) site.now (1 + token) machine.old) result machine.new }
{
    let Some(block) = token.checked_add(1) else {
        return Err(EvalError::Memory);
    };
    let frame = paid_frame(
        machine,
        world,
        site.line,
        site.file,
        block,
        Some(site.frame),
    )?;
    Ok(Site {
        file: site.file,
        frame,
        line: site.line,
    })
}
