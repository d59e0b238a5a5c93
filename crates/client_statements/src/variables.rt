//! SHOW VARIABLES.
ghost use Rattle.std.specs.Prelude.{◌≡◌, ◌∷◌, ◌++◌, [], IfOk, OnOk};
ghost use Rattle.vschema.specs.declared.schema.VSchema.{VSchema};
ghost use Rattle.client_statements.specs.declared.statement.ClientStatement.{ClientStatement};
ghost use Rattle.client_statements.specs.Answers.{variable_row, variable_rows, IsClientAnswer};

use crate::answers::{ClientAnswer, Facts};
use crate::likes::Pattern;
use crate::listings::{fits_pattern, heads, pattern, texts};
use crate::variable::{VARIABLES, Variable, shown_variable, variable_name};
use sql_tree::Name;
use std::alloc::{AllocError, Global};
use vt_value::{Items, Row};

fn variable_row(alloc: Global, autocommit: bool, variable: Variable) -> Result<Row, AllocError>
    ensures { IfOk result (λ row. row ≡ variable_row autocommit variable) }
{
    let name = variable_name(variable).as_bytes();
    let value = shown_variable(variable, autocommit).as_bytes();
    texts(alloc, &[Some(name), Some(value)])
}

/// Adds the row of a variable, if its name fits.
#[tactic(auto, unfolding(crate::specs::Answers::variable_rows))]
fn push_variable(
    alloc: Global,
    autocommit: bool,
    like: &Option<Pattern>,
    variable: Variable,
    rows: &mut Items<Row>,
) -> Result<(), AllocError>
    ensures { OnOk result (rows.new ≡ rows.old ++ variable_rows autocommit like.now (variable ∷ [])) }
{
    if fits_pattern(alloc, like, variable_name(variable).as_bytes())? {
        rows.push(variable_row(alloc, autocommit, variable)?)?;
    }
    Ok(())
}

/// A row of each variable whose name fits.
fn variable_rows(
    alloc: Global,
    autocommit: bool,
    like: &Option<Pattern>,
    variables: &[Variable],
) -> Result<Items<Row>, AllocError>
    ensures { IfOk result (λ rows. rows ≡ variable_rows autocommit like.now variables.now) }
{
    let mut rows = Items::new(alloc);
    for variable in variables {
        push_variable(alloc, autocommit, like, *variable, &mut rows)?;
    }
    Ok(rows)
}

/// SHOW VARIABLES
pub fn shown(alloc: Global, facts: &Facts, like: &Option<Name>) -> Result<ClientAnswer, AllocError>
    ensures { IfOk result (λ a. (schema : VSchema) → IsClientAnswer schema facts.now (ClientStatement.ShowVariables like.now) a) }
{
    let columns = heads(alloc, &["Variable_name", "Value"])?;
    let like = pattern(alloc, like)?;
    let rows = variable_rows(alloc, facts.autocommit, &like, &VARIABLES)?;
    Ok(ClientAnswer::Rows { columns, rows })
}
