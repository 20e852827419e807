// The stages over lent tables, each after the ones before it: all that is tested again (4, 26, 1, 2, 6 to 9), then the arrows (11, 12, and 9
// for equal nodes), then the supplied hashes (13). The check of the types makes arrays of widths and of next records. A stage hands them
// back, on a refusal too, so that who goes on after it checks no table twice and is told nothing by a caller.
#![tactic(auto)]

ghost use Rattle.std.specs.Prelude.{◌≡◌};
ghost use Rattle.scope.specs.Stages.{lent_tables, arrow_stage, hash_stage};
ghost use Rattle.types.specs.Table.{type_table};
ghost use Rattle.common.specs.Answers.{check_of};
ghost use Rattle.stages.specs.Answers.{verdict_of, table_of};

use arrow::LentTables;
use refusal::Refusal;
use types::TypeTable;

// Why lent tables are refused, with what the check of the types made of them.
#[derive(Drop)]
pub struct Refused {
    pub why: Refusal,
    pub table: TypeTable,
}

impl From<Refused> for Refusal {
    ghost from_gives = { λ refused why. why ≡ refused.why };

    // The refusal, without the table.
    fn from(stopped: Refused) -> Refusal {
        stopped.why
    }
}

// Lent tables tested again, where the check of the types made this table: 4 of the nodes, then of the types, 26, 1 for a program over the limit, 2, then 6 to 9.
fn lent_tables(tables: &LentTables<'_>, table: &TypeTable) -> Result<(), Refusal>
    requires { table.now ≡ type_table tables.now.types.now }
    ensures { check_of result ≡ lent_tables tables.now.types.now tables.now.nodes.now tables.now.program.now
        tables.now.hashes.now }
{
    table::check_count(tables.nodes)?;
    types::type_count(tables.types)?;
    table::check_records(tables.program, tables.hashes, tables.nodes)?;
    if limits::DOSSIER_BYTES < tables.program.len() {
        return Err(Refusal::Header(0));
    }
    table.answer?;
    table::walk(tables.nodes, tables.hashes)
}

// The same, then 11, 12 and 9 for equal nodes.
fn lent_arrows(tables: &LentTables<'_>, table: &TypeTable) -> Result<(), Refusal>
    requires { table.now ≡ type_table tables.now.types.now }
    ensures { check_of result ≡ arrow_stage tables.now.types.now tables.now.nodes.now tables.now.arrows.now
        tables.now.program.now tables.now.hashes.now }
{
    lent_tables(tables, table)?;
    arrow::check_arrows(tables)
}

// The same, then 13.
fn lent_hashes(tables: &LentTables<'_>, table: &TypeTable, given: &[u8]) -> Result<(), Refusal>
    requires { table.now ≡ type_table tables.now.types.now }
    ensures { check_of result ≡ hash_stage tables.now.types.now tables.now.nodes.now tables.now.arrows.now
        tables.now.program.now tables.now.hashes.now given.now }
{
    lent_arrows(tables, table)?;
    hashes::check_hashes(tables.nodes, given)
}

// Lent tables up to their arrows (12), with what the check of the types made, on a refusal too.
pub fn arrow_tables(tables: &LentTables<'_>) -> Result<TypeTable, Refused>
    ensures verdict { verdict_of result ≡ arrow_stage tables.now.types.now tables.now.nodes.now tables.now.arrows.now
        tables.now.program.now tables.now.hashes.now }
    ensures made { table_of result ≡ type_table tables.now.types.now }
{
    let table = types::check_types(tables.types);
    match lent_arrows(tables, &table) {
        Ok(()) => Ok(table),
        Err(why) => Err(Refused { why, table }),
    }
}

// Lent tables up to the supplied hashes (13), with the same.
pub fn hash_tables(tables: &LentTables<'_>, given: &[u8]) -> Result<TypeTable, Refused>
    ensures verdict { verdict_of result ≡ hash_stage tables.now.types.now tables.now.nodes.now tables.now.arrows.now
        tables.now.program.now tables.now.hashes.now given.now }
    ensures made { table_of result ≡ type_table tables.now.types.now }
{
    let table = types::check_types(tables.types);
    match lent_hashes(tables, &table, given) {
        Ok(()) => Ok(table),
        Err(why) => Err(Refused { why, table }),
    }
}

// Lent tables up to their arrows (12): the verdict alone.
pub fn arrow_stage(tables: &LentTables<'_>) -> Result<(), Refusal>
    ensures { check_of result ≡ arrow_stage tables.now.types.now tables.now.nodes.now tables.now.arrows.now
        tables.now.program.now tables.now.hashes.now }
{
    lent_arrows(tables, &types::check_types(tables.types))
}

// Lent tables up to the supplied hashes (13): the verdict alone.
pub fn hash_stage(tables: &LentTables<'_>, given: &[u8]) -> Result<(), Refusal>
    ensures { check_of result ≡ hash_stage tables.now.types.now tables.now.nodes.now tables.now.arrows.now
        tables.now.program.now tables.now.hashes.now given.now }
{
    lent_hashes(tables, &types::check_types(tables.types), given)
}
